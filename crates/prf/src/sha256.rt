//! SHA-256, by the kit's `sha2`.
ghost use Rattle.prf.specs.Sha2.{sha256_function};
ghost use Rattle.prf.specs.Code.Sha2Laws.{sha256_is_hash_function};
ghost use Rattle.sha2.specs.Hashers.{Holds256};

use crate::hash::{Hash, put_front};
use sha2::{Digest, Sha256};

/// SHA-256 (FIPS 180-4 section 6.2).
impl Hash for Sha256 {
    ghost function = { sha256_function };

    ghost holds = { λ state message. Holds256 state message };

    fn block_len() -> usize {
        64
    }

    fn output_len() -> usize {
        32
    }

    fn start() -> Sha256 {
        Sha256::new()
    }

    fn update(&mut self, piece: &[u8]) {
        Digest::update(self, piece);
    }

    fn fork(&self) -> Sha256 {
        self.clone().unwrap()
    }

    fn finish(self, out: &mut [u8; 64]) -> usize {
        put_front(&self.finalize(), out)
    }

    ghost is_hash_function = { sha256_is_hash_function };
}
