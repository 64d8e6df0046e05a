//! The blocks of a list of whole blocks.
ghost use Rattle.std.specs.Prelude.{◌≡◌, ◌≢◌, ℕ, ◌+◌, ◌*◌, ◌≤◌, length};
ghost use Rattle.aes.specs.Code.Blocks.{block};

/// Block i.
#[inline]
pub(crate) fn block_at(blocks: &[u8], i: usize) -> [u8; 16]
    requires { 16 * i + 16 ≤ length blocks.now }
    ensures { result ≡ block blocks.now i }
{
    let mut block = [0; 16];
    block.copy_from_slice(&blocks[16 * i..16 * i + 16]);
    block
}

/// Overwrites block i.
#[inline]
pub(crate) fn put_block(blocks: &mut [u8], i: usize, b: &[u8; 16])
    requires { 16 * i + 16 ≤ length blocks.old }
    ensures there { block blocks.new i ≡ b.now }
    ensures others { (j : ℕ) → j ≢ i → block blocks.new j ≡ block blocks.old j }
{
    blocks[16 * i..16 * i + 16].copy_from_slice(b);
}
