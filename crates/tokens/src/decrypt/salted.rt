//! The keys of a set, salted for a recipient. A salt that several recipients share is hashed once for each key.
ghost use Rattle.std.specs.Prelude.{◌≡◌, map, IfOk, IfErr};
ghost use Rattle.objects.specs.Code.KeyManagementView.{management_view};
ghost use Rattle.tokens.specs.Code.Trying.{AreSalted, IsSaltFor, salted_with};

use ciphers::SaltedKey;
use keys::Key;
use objects::KeyManagement;
use octets::{Refusal, same_octets};
use std::alloc::Global;

/// The keys of a set, and in the same order each salted with one p2s (RFC 7518 section 4.8.1.1).
#[derive(Drop)]
pub(crate) struct SaltedKeys<'x> {
    pub(crate) keys: &'x [Key],
    pub(crate) salted: Vec<SaltedKey<'x>>,
    pub(crate) p2s: &'x [u8],
}

impl<'x> SaltedKeys<'x> {
    /// The keys with an empty salt. Fails only with `Memory`.
    pub(crate) fn new(alloc: Global, keys: &'x [Key]) -> Result<SaltedKeys<'x>, Refusal>
        ensures keys { IfOk result (λ salted. salted.keys.now ≡ keys.entry.now) }
        ensures salted { IfOk result AreSalted }
        ensures memory { IfErr result (λ e. e ≡ Refusal.Memory) }
    {
        let mut salted = Vec::new(alloc);
        for key in keys {
            salted.push(SaltedKey::new(key.octets(), b""))?;
        }
        Ok(SaltedKeys {
            keys,
            salted,
            p2s: b"",
        })
    }

    /// Salts the keys for a recipient, unless they have its salt. One whose key is no password has none.
    pub(crate) fn salt_for(&mut self, management: &'x KeyManagement)
        ensures keys { self.new.keys ≡ self.old.keys }
        ensures salted { AreSalted self.old → AreSalted self.new }
        ensures salt { IsSaltFor self.new.p2s.now (management_view management.entry.now) }
    {
        match management {
            KeyManagement::Password { p2s, .. } => self.salt(p2s.octets()),
            _ => {}
        }
    }

    /// Salts the keys, unless they have this salt.
    fn salt(&mut self, p2s: &'x [u8])
        ensures keys { self.new.keys ≡ self.old.keys }
        ensures salted { AreSalted self.old → AreSalted self.new }
        ensures salt { self.new.p2s.now ≡ p2s.entry.now }
    {
        if same_octets(self.p2s, p2s) {
            return;
        }
        self.p2s = p2s;
        salt_each(&mut self.salted, p2s);
    }
}

/// Salts each key.
fn salt_each<'x>(keys: &mut Vec<SaltedKey<'x>>, p2s: &'x [u8])
    ensures { keys.new.items ≡ map (salted_with p2s.entry.now) keys.old.items }
{
    for i in 0..keys.len() {
        keys[i].salt(p2s);
    }
}
