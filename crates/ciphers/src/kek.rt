//! AES under a key encryption key of any length, and the ways to deliver a content encryption key.
ghost use Rattle.std.specs.Prelude.{◌≡◌, ℕ, ◌*◌, length};
ghost use Rattle.aes.specs.Cipher.{encrypted_block};

use crate::arrays::array;
use aes::{Aes128, Aes192, Aes256, Block};

/// AES under a key encryption key.
#[derive(Drop)]
pub(crate) enum Kek {
    A128(Aes128),
    A192(Aes192),
    A256(Aes256),
}

/// How a content encryption key is delivered: it is the recipient's key, or the cipher wraps it, or the cipher encrypts it in GCM. The
/// number next to a key wrap counts the HMAC calls that derived the cipher's key. It is 0 if no key was derived.
#[derive(Drop)]
pub(crate) enum Way {
    Direct,
    Wrap(Kek, u64),
    Encrypt(Kek),
}

impl Block for Kek {
    ghost use Rattle.ciphers.specs.Code.Views.{on_kek, on_each_kek};

    ghost encrypted = { λ kek. on_kek kek ⟦<Aes128 as Block>⟧.encrypted ⟦<Aes192 as Block>⟧.encrypted
        ⟦<Aes256 as Block>⟧.encrypted };

    ghost decrypted = { λ kek. on_kek kek ⟦<Aes128 as Block>⟧.decrypted ⟦<Aes192 as Block>⟧.decrypted
        ⟦<Aes256 as Block>⟧.decrypted };

    fn encrypt(&self, b: &[u8; 16]) -> [u8; 16] {
        match self {
            Kek::A128(cipher) => cipher.encrypt(b),
            Kek::A192(cipher) => cipher.encrypt(b),
            Kek::A256(cipher) => cipher.encrypt(b),
        }
    }

    fn decrypt(&self, b: &[u8; 16]) -> [u8; 16] {
        match self {
            Kek::A128(cipher) => cipher.decrypt(b),
            Kek::A192(cipher) => cipher.decrypt(b),
            Kek::A256(cipher) => cipher.decrypt(b),
        }
    }

    ghost is_cipher = { on_each_kek (λ k. k.is_cipher) (λ k. k.is_cipher) (λ k. k.is_cipher) };
}

/// A cipher with a key of one length.
pub(crate) trait Keyed: Block + Sized {
    /// How many words of 32 bits its key has (FIPS 197 section 5).
    ghost words: { ℕ };

    /// The cipher under this key.
    fn under(key: &[u8]) -> Self
        requires { length key.now ≡ 4 * words }
        ensures { Self.encrypted result ≡ encrypted_block words key.now };
}

impl Keyed for Aes128 {
    ghost words = { 4 };

    fn under(key: &[u8]) -> Aes128 {
        Aes128::new(&array(key))
    }
}

impl Keyed for Aes192 {
    ghost words = { 6 };

    fn under(key: &[u8]) -> Aes192 {
        Aes192::new(&array(key))
    }
}

impl Keyed for Aes256 {
    ghost words = { 8 };

    fn under(key: &[u8]) -> Aes256 {
        Aes256::new(&array(key))
    }
}
