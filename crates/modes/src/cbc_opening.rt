//! The opening of CBC with padding, in place.
ghost use Rattle.std.specs.Prelude.{◌≡◌, ◌≢◌, ◌+◌, ◌-◌, ◌*◌, ◌%◌, ◌<◌, ◌≤◌, ℕ, List, length, take, IfSome, IfNone};
ghost use Rattle.modes.specs.Cbc.{block, cbc, pad};
ghost use Rattle.modes.specs.Code.Opening.{opened_block, opened_blocks, IsPadded};
ghost use Rattle.octets.specs.Octets.{IsOctets, xor_octets};

use aes::Block;
use octets::xor_into;

/// Opens the ciphertext in `buf` to the plaintext at its front, with its padding behind it, and returns the length of the plaintext.
/// Returns `None`, with `buf` unchanged, if no plaintext has this ciphertext (RFC 5652 section 6.3).
pub fn cbc_open<B: Block>(cipher: &B, iv: &[u8; 16], buf: &mut [u8]) -> Option<usize>
    ensures opened { IfSome result (λ n. (n ≤ length buf.old)
        × (cbc (B.encrypted cipher.now) iv.now (take n buf.new) ≡ buf.old)) }
    ensures rest { IfSome result (λ n. buf.new ≡ pad (take n buf.new)) }
    ensures nothing { IfNone result ((p : List ℕ) → IsOctets p
        → cbc (B.encrypted cipher.now) iv.now p ≢ buf.old) }
    ensures unchanged { IfNone result (buf.new ≡ buf.old) }
{
    let blocks = buf.len() / 16;
    if blocks == 0 || buf.len() % 16 != 0 {
        return None;
    }
    let last = open_block(cipher, iv, buf, blocks - 1);
    let Some(padding) = padding_of(&last) else {
        return None;
    };
    open_blocks(cipher, iv, buf);
    Some(buf.len() - padding)
}

/// The length of the padding at the end of the block, if there is one.
fn padding_of(last: &[u8; 16]) -> Option<usize>
    ensures padding { IfSome result (λ n. IsPadded last.now n) }
    ensures nothing { IfNone result ((n : ℕ) → IsPadded last.now n → ⊥) }
{
    let value = last[15];
    if value == 0 || value > 16 {
        return None;
    }
    let n = value as usize;
    for i in 16 - n..16 {
        if last[i] != value {
            return None;
        }
    }
    Some(n)
}

/// Block i of the padded plaintext.
fn open_block<B: Block>(cipher: &B, iv: &[u8; 16], buf: &[u8], i: usize) -> [u8; 16]
    requires { 16 * i + 16 ≤ length buf.now }
    ensures { result ≡ opened_block (B.decrypted cipher.now) iv.now buf.now i }
{
    let mut block = [0; 16];
    block.copy_from_slice(&buf[16 * i..16 * i + 16]);
    let mut opened = cipher.decrypt(&block);
    if i == 0 {
        xor_into(&mut opened, iv);
    } else {
        xor_into(&mut opened, &buf[16 * (i - 1)..16 * (i - 1) + 16]);
    }
    opened
}

/// Opens all blocks, from the last to the first, each in its place.
fn open_blocks<B: Block>(cipher: &B, iv: &[u8; 16], buf: &mut [u8])
    requires some { 0 < length buf.old }
    requires whole { length buf.old % 16 ≡ 0 }
    ensures { buf.new ≡ opened_blocks (B.decrypted cipher.now) iv.now buf.old }
{
    let mut end = buf.len() / 16;
    while end > 1 {
        let first = end.saturating_sub(16).max(1);
        open_later_blocks(cipher, buf, first, end);
        end = first;
    }
    let block = open_block(cipher, iv, buf, 0);
    buf[..16].copy_from_slice(&block);
}

/// Opens the blocks from `first` on and before `end`, at most sixteen. The first of all blocks is not among them.
fn open_later_blocks<B: Block>(cipher: &B, buf: &mut [u8], first: usize, end: usize)
    requires later { 0 < first }
    requires few { end ≤ first + 16 }
    requires order { first ≤ end }
    requires within { 16 * end ≤ length buf.old }
    ensures opened { (i : ℕ) → first ≤ i → i < end
        → block buf.new i ≡ xor_octets (B.decrypted cipher.now (block buf.old i)) (block buf.old (i - 1)) }
    ensures before { (i : ℕ) → i < first → block buf.new i ≡ block buf.old i }
    ensures behind { (i : ℕ) → end ≤ i → block buf.new i ≡ block buf.old i }
{
    let mut room = [0; 256];
    let opened = &mut room[..16 * (end - first)];
    opened.copy_from_slice(&buf[16 * first..16 * end]);
    cipher.decrypt_blocks(opened);
    xor_into(opened, &buf[16 * (first - 1)..16 * (end - 1)]);
    buf[16 * first..16 * end].copy_from_slice(opened);
}
