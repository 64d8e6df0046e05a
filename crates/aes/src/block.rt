//! Block ciphers, for code that works with any of them.
ghost use Rattle.std.specs.Prelude.{◌≡◌, ℕ, ◌%◌, List, length, map};
ghost use Rattle.aes.specs.Block.{IsCipher};
ghost use Rattle.aes.specs.Code.Blocks.{IsBlockwise};

use crate::whole_blocks::{block_at, put_block};

/// A cipher of blocks of sixteen octets, with its key (FIPS 197 sections 5.1 and 5.3).
pub trait Block: Drop {
    /// The encryption of a block.
    ghost encrypted: { Self → List ℕ → List ℕ };

    /// The decryption of a block.
    ghost decrypted: { Self → List ℕ → List ℕ };

    /// Encrypts a block.
    fn encrypt(&self, b: &[u8; 16]) -> [u8; 16]
        ensures { result ≡ encrypted self.now b.now };

    /// Decrypts a block.
    fn decrypt(&self, b: &[u8; 16]) -> [u8; 16]
        ensures { result ≡ decrypted self.now b.now };

    /// Encrypts each of four blocks. A cipher that is faster with four blocks at once has a body of its own.
    fn encrypt_4(&self, blocks: &[[u8; 16]; 4]) -> [[u8; 16]; 4]
        ensures { result ≡ map (encrypted self.now) blocks.now }
    {
        let [a, b, c, d] = *blocks;
        [
            self.encrypt(&a),
            self.encrypt(&b),
            self.encrypt(&c),
            self.encrypt(&d),
        ]
    }

    /// Decrypts each of four blocks. A cipher that is faster with four blocks at once has a body of its own.
    fn decrypt_4(&self, blocks: &[[u8; 16]; 4]) -> [[u8; 16]; 4]
        ensures { result ≡ map (decrypted self.now) blocks.now }
    {
        let [a, b, c, d] = *blocks;
        [
            self.decrypt(&a),
            self.decrypt(&b),
            self.decrypt(&c),
            self.decrypt(&d),
        ]
    }

    /// For every block decrypting undoes encrypting, and encrypting undoes decrypting.
    ghost is_cipher: { (k : Self) → IsCipher (encrypted k) (decrypted k) };

    /// Encrypts each of these whole blocks, in place.
    final fn encrypt_blocks(&self, blocks: &mut [u8])
        requires { length blocks.old % 16 ≡ 0 }
        ensures { IsBlockwise (encrypted self.now) blocks.old blocks.new }
    {
        let fours = blocks.len() / 64;
        for n in 0..fours {
            let i = 4 * n;
            let [a, b, c, d] = self.encrypt_4(&[
                block_at(blocks, i),
                block_at(blocks, i + 1),
                block_at(blocks, i + 2),
                block_at(blocks, i + 3),
            ]);
            put_block(blocks, i, &a);
            put_block(blocks, i + 1, &b);
            put_block(blocks, i + 2, &c);
            put_block(blocks, i + 3, &d);
        }
        for i in 4 * fours..blocks.len() / 16 {
            put_block(blocks, i, &self.encrypt(&block_at(blocks, i)));
        }
    }

    /// Decrypts each of these whole blocks, in place.
    final fn decrypt_blocks(&self, blocks: &mut [u8])
        requires { length blocks.old % 16 ≡ 0 }
        ensures { IsBlockwise (decrypted self.now) blocks.old blocks.new }
    {
        let fours = blocks.len() / 64;
        for n in 0..fours {
            let i = 4 * n;
            let [a, b, c, d] = self.decrypt_4(&[
                block_at(blocks, i),
                block_at(blocks, i + 1),
                block_at(blocks, i + 2),
                block_at(blocks, i + 3),
            ]);
            put_block(blocks, i, &a);
            put_block(blocks, i + 1, &b);
            put_block(blocks, i + 2, &c);
            put_block(blocks, i + 3, &d);
        }
        for i in 4 * fours..blocks.len() / 16 {
            put_block(blocks, i, &self.decrypt(&block_at(blocks, i)));
        }
    }
}
