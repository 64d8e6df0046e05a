//! A block that is being filled.
ghost use Rattle.std.specs.Prelude.{◌≡◌, ◌+◌, ◌<◌, [], ◌++◌, length};

use std::marker::Model;

/// Fewer than sixteen octets of a block. Contracts see these octets.
#[derive(Drop)]
pub(crate) struct PartialBlock {
    octets: [u8; 16],
    len: usize,
}

impl Model for PartialBlock {
    ghost use Rattle.std.specs.Prelude.{◌<◌, List, ℕ, take};

    ghost Value = { List ℕ };

    ghost view = { λ block. take block.len block.octets };

    ghost invariant = { λ block. block.len < 16 };
}

impl PartialBlock {
    /// A block without octets.
    pub(crate) fn new() -> PartialBlock
        ensures { result ≡ [] }
    {
        PartialBlock {
            octets: [0; 16],
            len: 0,
        }
    }

    /// How many octets the block still needs.
    pub(crate) fn space(&self) -> usize
        ensures some { 0 < result }
        ensures space { length self.now + result ≡ 16 }
    {
        16 - self.len
    }

    /// Adds octets that do not fill the block.
    pub(crate) fn push(&mut self, octets: &[u8])
        requires { length self.old + length octets.now < 16 }
        ensures { self.new ≡ self.old ++ octets.now }
    {
        let end = self.len + octets.len();
        self.octets[self.len..end].copy_from_slice(octets);
        self.len = end;
    }

    /// The block, which these octets fill. No octet is left.
    pub(crate) fn complete(&mut self, octets: &[u8]) -> [u8; 16]
        requires { length self.old + length octets.now ≡ 16 }
        ensures block { result ≡ self.old ++ octets.now }
        ensures none { self.new ≡ [] }
    {
        let mut block = self.octets;
        block[self.len..].copy_from_slice(octets);
        self.len = 0;
        block
    }
}
