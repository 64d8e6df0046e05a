//! SHA-384, by the kit's `sha2`.
ghost use Rattle.prf.specs.Sha2.{sha384_function};
ghost use Rattle.prf.specs.Code.Sha2Laws.{sha384_is_hash_function};
ghost use Rattle.sha2.specs.Hashers.{Holds384};

use crate::hash::{Hash, put_front};
use sha2::{Digest, Sha384};

/// SHA-384 (FIPS 180-4 section 6.5).
impl Hash for Sha384 {
    ghost function = { sha384_function };

    ghost holds = { λ state message. Holds384 state message };

    fn block_len() -> usize {
        128
    }

    fn output_len() -> usize {
        48
    }

    fn start() -> Sha384 {
        Sha384::new()
    }

    fn update(&mut self, piece: &[u8]) {
        Digest::update(self, piece);
    }

    fn fork(&self) -> Sha384 {
        self.clone().unwrap()
    }

    fn finish(self, out: &mut [u8; 64]) -> usize {
        put_front(&self.finalize(), out)
    }

    ghost is_hash_function = { sha384_is_hash_function };
}
