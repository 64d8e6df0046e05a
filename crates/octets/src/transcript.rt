//! The octets that passed through a device of the outside world, for contracts only.
ghost use Rattle.std.specs.Prelude.{◌≡◌, List, ℕ, [], ◌++◌};
ghost use Rattle.std.specs.Borrow.{ftrue};

use std::marker::{Model, PhantomData};

/// A list of octets that no code can read. It needs no memory, and its methods do nothing at run time.
#[derive(Drop)]
pub struct Transcript {
    marker: PhantomData<u8>,
    pub ghost octets: { List ℕ },
}

impl Model for Transcript {
    ghost also_owns = { λ _. ftrue };
}

impl Transcript {
    /// No octet has passed yet.
    pub(crate) fn new() -> Transcript
        ensures { result.octets ≡ [] }
    {
        Transcript {
            marker: PhantomData,
        }
    }

    /// These octets have passed after the others.
    pub(crate) fn append(&mut self, _octets: &[u8])
        ensures { self.new.octets ≡ self.old.octets ++ _octets.now }
    {}
}
