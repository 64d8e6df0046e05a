//! AES key wrap (RFC 3394), over any block cipher. The registers R[1] to R[n] are one slice, with eight octets each.
ghost use Rattle.std.specs.Prelude.{◌≡◌, ℕ, ◌+◌, ◌*◌, ◌/◌, ◌%◌, ◌≤◌, List, ◌++◌, ◌↔◌, length, take, drop, IfNone, IsTrue, OnSome};
ghost use Rattle.ciphers.specs.KeyWrap.{initial_value, xor_count, wrapped, IsUnwrapping};
ghost use Rattle.ciphers.specs.Code.Views.{IsRow};
ghost use Rattle.octets.specs.Octets.{IsOctets};

use aes::Block;
use octets::same_octets;

/// The initial value of A, for which `unwrap` looks (section 2.2.3.1).
const INITIAL_VALUE: [u8; 8] = [0xa6; 8];

/// A ^ t, with t as eight octets (section 2.2.1).
fn xor_count(t: u64, a: &[u8; 8]) -> [u8; 8]
    ensures { result ≡ xor_count t a.now }
{
    (u64::from_be_bytes(*a) ^ t).to_be_bytes()
}

/// A | R, the block that a step enciphers or deciphers.
fn join(a: &[u8; 8], r: &[u8]) -> [u8; 16]
    requires { length r.now ≡ 8 }
    ensures { result ≡ a.now ++ r.now }
{
    let mut block = [0; 16];
    block[..8].copy_from_slice(a);
    block[8..].copy_from_slice(r);
    block
}

/// Step t of wrapping, on A and the register whose turn it is (section 2.2.1).
fn step<B: Block>(kek: &B, t: u64, a: &mut [u8; 8], r: &mut [u8])
    requires { length r.old ≡ 8 }
    ensures check { a.new ≡ xor_count t (take 8 (B.encrypted kek.now (a.old ++ r.old))) }
    ensures register { r.new ≡ drop 8 (B.encrypted kek.now (a.old ++ r.old)) }
{
    let b = kek.encrypt(&join(a, r));
    a.copy_from_slice(&b[..8]);
    *a = xor_count(t, a);
    r.copy_from_slice(&b[8..]);
}

/// Step t of unwrapping, on A and the register whose turn it is (section 2.2.2).
fn step_back<B: Block>(kek: &B, t: u64, a: &mut [u8; 8], r: &mut [u8])
    requires { length r.old ≡ 8 }
    ensures check { a.new ≡ take 8 (B.decrypted kek.now (xor_count t a.old ++ r.old)) }
    ensures register { r.new ≡ drop 8 (B.decrypted kek.now (xor_count t a.old ++ r.old)) }
{
    let b = kek.decrypt(&join(&xor_count(t, a), r));
    a.copy_from_slice(&b[..8]);
    r.copy_from_slice(&b[8..]);
}

/// All 6n steps of wrapping, from the first on.
fn wrap_registers<B: Block>(kek: &B, a: &mut [u8; 8], r: &mut [u8])
    requires { (16 ≤ length r.old) × (length r.old ≤ 64) × (length r.old % 8 ≡ 0) }
    ensures { (p : List ℕ) → IsRow (B.encrypted kek.now) p 0 a.old r.old
        → IsRow (B.encrypted kek.now) p (6 * (length r.old / 8)) a.new r.new }
{
    let n = r.len() / 8;
    for t in 0..6 * n {
        let i = t % n;
        step(kek, t as u64 + 1, a, &mut r[8 * i..8 * i + 8]);
    }
}

/// All 6n steps of unwrapping, from the last on.
fn unwrap_registers<B: Block>(kek: &B, a: &mut [u8; 8], r: &mut [u8])
    requires { (16 ≤ length r.old) × (length r.old ≤ 64) × (length r.old % 8 ≡ 0) }
    ensures back { (p : List ℕ) → IsOctets p → IsRow (B.encrypted kek.now) p (6 * (length r.old / 8)) a.old r.old
        → IsRow (B.encrypted kek.now) p 0 a.new r.new }
    ensures forth { (p : List ℕ) → IsRow (B.encrypted kek.now) p 0 a.new r.new
        → IsRow (B.encrypted kek.now) p (6 * (length r.old / 8)) a.old r.old }
{
    let n = r.len() / 8;
    for t in (0..6 * n).rev() {
        let i = t % n;
        step_back(kek, t as u64 + 1, a, &mut r[8 * i..8 * i + 8]);
    }
}

/// Whether A is the initial value. The compiler must not see where A comes from: it then compares A in parts, with a branch for each.
#[inline(never)]
fn is_initial(a: &[u8; 8]) -> bool
    ensures { IsTrue result ↔ (a.now ≡ initial_value) }
{
    same_octets(a, &INITIAL_VALUE)
}

/// Wraps `key_data`, of 16 to 64 octets in parts of 8, into `out`, which is 8 octets longer (RFC 3394 section 2.2.1).
pub fn wrap<B: Block>(kek: &B, key_data: &[u8], out: &mut [u8])
    requires parts { length key_data.now % 8 ≡ 0 }
    requires size { (16 ≤ length key_data.now) × (length key_data.now ≤ 64) }
    requires place { length out.old ≡ length key_data.now + 8 }
    ensures { out.new ≡ wrapped (B.encrypted kek.now) key_data.now }
{
    let mut a = INITIAL_VALUE;
    let (first, r) = out.split_at_mut(8);
    r.copy_from_slice(key_data);
    wrap_registers(kek, &mut a, r);
    first.copy_from_slice(&a);
}

/// Unwraps `wrapped`, of 24 to 72 octets in parts of 8, into `out`, which is 8 octets shorter (RFC 3394 section 2.2.2). Returns `None` and
/// leaves `out` unchanged if no key data wraps to it.
pub fn unwrap<B: Block>(kek: &B, wrapped: &[u8], out: &mut [u8]) -> Option<()>
    requires parts { length wrapped.now % 8 ≡ 0 }
    requires size { (24 ≤ length wrapped.now) × (length wrapped.now ≤ 72) }
    requires place { length out.old + 8 ≡ length wrapped.now }
    ensures unwraps { OnSome result (IsUnwrapping (B.encrypted kek.now) wrapped.now out.new) }
    ensures nothing { IfNone result ((p : List ℕ) → IsUnwrapping (B.encrypted kek.now) wrapped.now p → ⊥) }
    ensures unchanged { IfNone result (out.new ≡ out.old) }
{
    let mut a = [0; 8];
    let mut registers = [0; 64];
    let r = &mut registers[..out.len()];
    a.copy_from_slice(&wrapped[..8]);
    r.copy_from_slice(&wrapped[8..]);
    unwrap_registers(kek, &mut a, r);
    if !is_initial(&a) {
        return None;
    }
    out.copy_from_slice(r);
    Some(())
}
