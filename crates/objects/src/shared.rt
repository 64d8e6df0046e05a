//! Octets and texts that stand once in an object, and that several of its recipients refer to.
ghost use Rattle.std.specs.Prelude.{◌≡◌, IfOk, IfErr, string_bytes};

use octets::Refusal;
use std::alloc::Global;
use std::marker::Model;
use std::rc::Rc;

/// Octets with any number of owners. Contracts see the octets.
#[derive(Drop)]
pub struct SharedOctets {
    octets: Rc<Vec<u8>>,
}

impl Model for SharedOctets {
    ghost use Rattle.std.specs.Prelude.{List, ℕ};

    ghost Value = { List ℕ };

    ghost view = { λ s. s.octets.value.items };
}

impl SharedOctets {
    /// The octets, with one owner. Fails only with `Memory`.
    pub fn new(alloc: Global, octets: Vec<u8>) -> Result<SharedOctets, Refusal>
        ensures octets { IfOk result (λ shared. shared ≡ octets.items) }
        ensures memory { IfErr result (λ e. e ≡ Refusal.Memory) }
    {
        Ok(SharedOctets {
            octets: Rc::new(alloc, octets)?,
        })
    }

    /// The same octets for one more owner, not copied. Fails only with `Memory`.
    pub(crate) fn share(&self) -> Result<SharedOctets, Refusal>
        ensures same { IfOk result (λ shared. shared ≡ self.now) }
        ensures memory { IfErr result (λ e. e ≡ Refusal.Memory) }
    {
        Ok(SharedOctets {
            octets: self.octets.clone()?,
        })
    }

    /// The octets.
    pub fn octets(&self) -> &[u8]
        ensures { result.now ≡ self.now }
    {
        &self.octets
    }
}

/// A text with any number of owners. Contracts see its octets.
#[derive(Drop)]
pub(crate) struct SharedText {
    text: Rc<String>,
}

impl Model for SharedText {
    ghost use Rattle.std.specs.Prelude.{List, ℕ, string_bytes};

    ghost Value = { List ℕ };

    ghost view = { λ s. string_bytes s.text.value };
}

impl SharedText {
    /// A copy of the text, with one owner. Fails only with `Memory`.
    pub(crate) fn new(alloc: Global, text: &str) -> Result<SharedText, Refusal>
        ensures text { IfOk result (λ shared. shared ≡ text.now) }
        ensures memory { IfErr result (λ e. e ≡ Refusal.Memory) }
    {
        Ok(SharedText {
            text: Rc::new(alloc, String::from_str(alloc, text)?)?,
        })
    }

    /// The same text for one more owner, not copied. Fails only with `Memory`.
    pub(crate) fn share(&self) -> Result<SharedText, Refusal>
        ensures same { IfOk result (λ shared. shared ≡ self.now) }
        ensures memory { IfErr result (λ e. e ≡ Refusal.Memory) }
    {
        Ok(SharedText {
            text: self.text.clone()?,
        })
    }

    /// The text.
    pub(crate) fn text(&self) -> &str
        ensures { result.now ≡ self.now }
    {
        &self.text
    }
}
