//! SHA-512, by the kit's `sha2`.
ghost use Rattle.prf.specs.Sha2.{sha512_function};
ghost use Rattle.prf.specs.Code.Sha2Laws.{sha512_is_hash_function};
ghost use Rattle.sha2.specs.Hashers.{Holds512};

use crate::hash::{Hash, put_front};
use sha2::{Digest, Sha512};

/// SHA-512 (FIPS 180-4 section 6.4).
impl Hash for Sha512 {
    ghost function = { sha512_function };

    ghost holds = { λ state message. Holds512 state message };

    fn block_len() -> usize {
        128
    }

    fn output_len() -> usize {
        64
    }

    fn start() -> Sha512 {
        Sha512::new()
    }

    fn update(&mut self, piece: &[u8]) {
        Digest::update(self, piece);
    }

    fn fork(&self) -> Sha512 {
        self.clone().unwrap()
    }

    fn finish(self, out: &mut [u8; 64]) -> usize {
        put_front(&self.finalize(), out)
    }

    ghost is_hash_function = { sha512_is_hash_function };
}
