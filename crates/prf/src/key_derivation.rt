//! PBKDF2 (RFC 8018 section 5.2).
ghost use Rattle.std.specs.Prelude.{◌≡◌, ℕ, ◌*◌, ◌<◌, ◌≤◌, List, [], length, map, take, drop};
ghost use Rattle.std.specs.List.{concat};
ghost use Rattle.prf.specs.Pbkdf2.{block_count, derived_block, iterate, pbkdf2};
ghost use Rattle.prf.specs.Code.Views.{HoldsHmac};

use crate::hash::Hash;
use crate::hmac::Hmac;
use octets::xor_into;

/// PBKDF2 with HMAC. Fills `out`, of at most 64 octets, with the key derived by `count` iterations from the password and the salt, which is
/// both parts joined. Returns the number of HMAC calls.
pub fn pbkdf2<H: Hash>(password: &[u8], salt: [&[u8]; 2], count: u32, out: &mut [u8]) -> u64
    requires iterated { 1 ≤ count }
    requires fits { length out.old ≤ 64 }
    ensures key { out.new ≡ pbkdf2 H.function password.now (concat (map (λ part. part.now) salt.entry)) count (length out.old) }
    ensures calls { result ≡ count * block_count H.function (length out.old) }
{
    let keyed = Hmac::<H>::new(password);
    let len = H::output_len();
    let block_count = out.len().div_ceil(len);
    let mut derived = [0u8; 128];
    for i in 0..block_count {
        let block = &mut derived[i * len..(i + 1) * len];
        derive_block(&keyed, salt, count, i as u32 + 1, block);
    }
    out.copy_from_slice(&derived[..out.len()]);
    u64::from(count) * block_count as u64
}

/// The first iterate of PBKDF2's first block, from which `pbkdf2_after` derives keys without the salt (RFC 8018 section 5.2 step 3). The
/// salt is both parts joined. Writes the iterate to the front of `out` and returns its length, which is that of the hash. The rest of `out`
/// is unchanged.
pub fn first_iterate<H: Hash>(password: &[u8], salt: [&[u8]; 2], out: &mut [u8; 64]) -> usize
    ensures first { take result out.new ≡ iterate H.function password.now (concat (map (λ part. part.now) salt.entry)) 1 1 }
    ensures len { result ≡ H.function.output_len }
    ensures rest { drop result out.new ≡ drop result out.old }
{
    first_of_block(&Hmac::<H>::new(password), salt, 1, out)
}

/// PBKDF2 with HMAC for many keys with one salt, which is hashed only for their first iterate (RFC 8018 section 5.2). Fills `out`, which is
/// at most as long as that iterate, with the key that `pbkdf2` derives. Returns the number of HMAC calls that PBKDF2 needs. That of the
/// first iterate is counted too.
pub fn pbkdf2_after<H: Hash>(password: &[u8], first: &[u8], count: u32, out: &mut [u8]) -> u64
    requires iterated { 1 ≤ count }
    requires whole { length first.now ≡ H.function.output_len }
    requires fits { length out.old ≤ H.function.output_len }
    ensures key { (salt : List ℕ) → first.now ≡ iterate H.function password.now salt 1 1
        → out.new ≡ pbkdf2 H.function password.now salt count (length out.old) }
    ensures calls { result ≡ count * block_count H.function (length out.old) }
{
    let mut block = [0u8; 64];
    let block = &mut block[..first.len()];
    block.copy_from_slice(first);
    add_iterates(&Hmac::<H>::new(password), count, block);
    out.copy_from_slice(&block[..out.len()]);
    let blocks = out.len().div_ceil(first.len());
    u64::from(count) * blocks as u64
}

/// Writes block `i`, which is the sum of its first `count` iterates and as long as a digest.
fn derive_block<H: Hash>(keyed: &Hmac<H>, salt: [&[u8]; 2], count: u32, i: u32, block: &mut [u8])
    requires iterated { 1 ≤ count }
    requires fits { length block.old ≡ H.function.output_len }
    ensures { (password : List ℕ) → HoldsHmac H.function H.holds keyed.now password []
        → block.new ≡ derived_block H.function password (concat (map (λ part. part.now) salt.entry)) count i }
{
    let mut first = [0u8; 64];
    let len = first_of_block(keyed, salt, i, &mut first);
    block.copy_from_slice(&first[..len]);
    add_iterates(keyed, count, block);
}

/// Writes the first iterate of block `i` to the front of `out` and returns its length. The rest of `out` is unchanged.
fn first_of_block<H: Hash>(keyed: &Hmac<H>, salt: [&[u8]; 2], i: u32, out: &mut [u8; 64]) -> usize
    ensures first { (password : List ℕ) → HoldsHmac H.function H.holds keyed.now password []
        → take result out.new ≡ iterate H.function password (concat (map (λ part. part.now) salt.entry)) i 1 }
    ensures len { result ≡ H.function.output_len }
    ensures rest { drop result out.new ≡ drop result out.old }
{
    let [first_part, second_part] = salt;
    let mut mac = keyed.fork();
    mac.update(first_part);
    mac.update(second_part);
    mac.update(&i.to_be_bytes());
    mac.finish(out)
}

/// Adds the later iterates to the first one, so that a block becomes the sum of its first `count` iterates.
fn add_iterates<H: Hash>(keyed: &Hmac<H>, count: u32, block: &mut [u8])
    requires iterated { 1 ≤ count }
    requires fits { length block.old ≡ H.function.output_len }
    ensures { (password salt : List ℕ) (i : ℕ) → HoldsHmac H.function H.holds keyed.now password []
        → block.old ≡ iterate H.function password salt i 1
        → block.new ≡ derived_block H.function password salt count i }
{
    let len = block.len();
    let mut last = [0u8; 64];
    last[..len].copy_from_slice(block);
    'iterates: for j in 1..count {
        let mut mac = keyed.fork();
        mac.update(&last[..len]);
        mac.finish(&mut last);
        xor_into(block, &last[..len]);
    }
}
