//! AES under its three sizes of key (FIPS 197 section 5): the round keys, and the number of rounds.
ghost use Rattle.std.specs.Prelude.{◌≡◌, ℕ, List};
ghost use Rattle.aes.specs.Block.{IsBlock, IsCipher};
ghost use Rattle.aes.specs.Cipher.{IsDecryptedBlock, cipher, encrypted_block};
ghost use Rattle.aes.specs.InverseCipher.{inverse_cipher};

use crate::block::Block;
use crate::cipher::{cipher, inverse_cipher};
use crate::four_blocks::{cipher_4, inverse_cipher_4};
use crate::key_expansion::key_expansion;

/// AES under a key of 128 bits, with 10 rounds (FIPS 197 section 5).
#[derive(Drop)]
pub struct Aes128 {
    round_keys: [u8; 176],
    ghost is_cipher: { IsCipher (cipher 10 round_keys) (inverse_cipher 10 round_keys) },
}

impl Aes128 {
    /// The cipher under the key. The round keys are made here, once (section 5.2).
    pub fn new(key: &[u8; 16]) -> Aes128
        ensures encrypts { (b : List ℕ)
            → ⟦<Aes128 as Block>⟧.encrypted result b ≡ encrypted_block 4 key.now b }
        ensures decrypts { (c : List ℕ) → IsBlock c
            → IsDecryptedBlock 4 key.now c (⟦<Aes128 as Block>⟧.decrypted result c) }
    {
        let mut round_keys = [0; 176];
        key_expansion(4, key, &mut round_keys);
        Aes128 { round_keys }
    }
}

impl Block for Aes128 {
    ghost use Rattle.aes.specs.Code.Aes.{round_keys_128};

    ghost encrypted = { λ k b. cipher 10 (round_keys_128 k) b };

    ghost decrypted = { λ k b. inverse_cipher 10 (round_keys_128 k) b };

    fn encrypt(&self, b: &[u8; 16]) -> [u8; 16] {
        cipher(&self.round_keys, 10, b)
    }

    fn decrypt(&self, b: &[u8; 16]) -> [u8; 16] {
        inverse_cipher(&self.round_keys, 10, b)
    }

    fn encrypt_4(&self, blocks: &[[u8; 16]; 4]) -> [[u8; 16]; 4] {
        cipher_4(&self.round_keys, 10, blocks)
    }

    fn decrypt_4(&self, blocks: &[[u8; 16]; 4]) -> [[u8; 16]; 4] {
        inverse_cipher_4(&self.round_keys, 10, blocks)
    }

    ghost is_cipher = { λ k. k.is_cipher };
}

/// AES under a key of 192 bits, with 12 rounds (FIPS 197 section 5).
#[derive(Drop)]
pub struct Aes192 {
    round_keys: [u8; 208],
    ghost is_cipher: { IsCipher (cipher 12 round_keys) (inverse_cipher 12 round_keys) },
}

impl Aes192 {
    /// The cipher under the key. The round keys are made here, once (section 5.2).
    pub fn new(key: &[u8; 24]) -> Aes192
        ensures encrypts { (b : List ℕ)
            → ⟦<Aes192 as Block>⟧.encrypted result b ≡ encrypted_block 6 key.now b }
        ensures decrypts { (c : List ℕ) → IsBlock c
            → IsDecryptedBlock 6 key.now c (⟦<Aes192 as Block>⟧.decrypted result c) }
    {
        let mut round_keys = [0; 208];
        key_expansion(6, key, &mut round_keys);
        Aes192 { round_keys }
    }
}

impl Block for Aes192 {
    ghost use Rattle.aes.specs.Code.Aes.{round_keys_192};

    ghost encrypted = { λ k b. cipher 12 (round_keys_192 k) b };

    ghost decrypted = { λ k b. inverse_cipher 12 (round_keys_192 k) b };

    fn encrypt(&self, b: &[u8; 16]) -> [u8; 16] {
        cipher(&self.round_keys, 12, b)
    }

    fn decrypt(&self, b: &[u8; 16]) -> [u8; 16] {
        inverse_cipher(&self.round_keys, 12, b)
    }

    fn encrypt_4(&self, blocks: &[[u8; 16]; 4]) -> [[u8; 16]; 4] {
        cipher_4(&self.round_keys, 12, blocks)
    }

    fn decrypt_4(&self, blocks: &[[u8; 16]; 4]) -> [[u8; 16]; 4] {
        inverse_cipher_4(&self.round_keys, 12, blocks)
    }

    ghost is_cipher = { λ k. k.is_cipher };
}

/// AES under a key of 256 bits, with 14 rounds (FIPS 197 section 5).
#[derive(Drop)]
pub struct Aes256 {
    round_keys: [u8; 240],
    ghost is_cipher: { IsCipher (cipher 14 round_keys) (inverse_cipher 14 round_keys) },
}

impl Aes256 {
    /// The cipher under the key. The round keys are made here, once (section 5.2).
    pub fn new(key: &[u8; 32]) -> Aes256
        ensures encrypts { (b : List ℕ)
            → ⟦<Aes256 as Block>⟧.encrypted result b ≡ encrypted_block 8 key.now b }
        ensures decrypts { (c : List ℕ) → IsBlock c
            → IsDecryptedBlock 8 key.now c (⟦<Aes256 as Block>⟧.decrypted result c) }
    {
        let mut round_keys = [0; 240];
        key_expansion(8, key, &mut round_keys);
        Aes256 { round_keys }
    }
}

impl Block for Aes256 {
    ghost use Rattle.aes.specs.Code.Aes.{round_keys_256};

    ghost encrypted = { λ k b. cipher 14 (round_keys_256 k) b };

    ghost decrypted = { λ k b. inverse_cipher 14 (round_keys_256 k) b };

    fn encrypt(&self, b: &[u8; 16]) -> [u8; 16] {
        cipher(&self.round_keys, 14, b)
    }

    fn decrypt(&self, b: &[u8; 16]) -> [u8; 16] {
        inverse_cipher(&self.round_keys, 14, b)
    }

    fn encrypt_4(&self, blocks: &[[u8; 16]; 4]) -> [[u8; 16]; 4] {
        cipher_4(&self.round_keys, 14, blocks)
    }

    fn decrypt_4(&self, blocks: &[[u8; 16]; 4]) -> [[u8; 16]; 4] {
        inverse_cipher_4(&self.round_keys, 14, blocks)
    }

    ghost is_cipher = { λ k. k.is_cipher };
}
