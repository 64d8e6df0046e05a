//! Hash functions whose message comes in pieces.
ghost use Rattle.std.specs.Prelude.{◌≡◌, ◌≤◌, ℕ, List, [], ◌++◌, length, take, drop};
ghost use Rattle.prf.specs.HashFunction.{HashFunction, IsHashFunction};

/// A hash function: its state after the message so far.
pub trait Hash: Drop {
    /// The function on whole messages.
    ghost function: { HashFunction };

    /// The state was fed this message.
    ghost holds: { Self → List ℕ → Type 0 };

    /// The length of a block in octets: B of RFC 2104.
    fn block_len() -> usize
        ensures { result ≡ function.block_len };

    /// The length of a digest in octets: L of RFC 2104.
    fn output_len() -> usize
        ensures { result ≡ function.output_len };

    /// The state of the empty message.
    fn start() -> Self
        ensures { holds result [] };

    /// Feeds the next piece of the message.
    fn update(&mut self, piece: &[u8])
        ensures { (message : List ℕ) → holds self.old message
            → holds self.new (message ++ piece.now) };

    /// A copy of the state.
    fn fork(&self) -> Self
        ensures { (message : List ℕ) → holds self.now message → holds result message };

    /// Writes the digest of the message to the front of `out` and returns its length. The rest of `out` is unchanged.
    fn finish(self, out: &mut [u8; 64]) -> usize
        ensures digest { (message : List ℕ) → holds self message
            → take result out.new ≡ function.digest message }
        ensures len { result ≡ function.output_len }
        ensures rest { drop result out.new ≡ drop result out.old };

    /// Each digest is octets of the output length. It fits a block, and both fit their buffers.
    ghost is_hash_function: { IsHashFunction function };
}

/// Writes the digest to the front of `out` and returns its length. The rest of `out` is unchanged.
pub(crate) fn put_front(digest: &[u8], out: &mut [u8; 64]) -> usize
    requires { length digest.now ≤ 64 }
    ensures digest { take result out.new ≡ digest.now }
    ensures len { result ≡ length digest.now }
    ensures rest { drop result out.new ≡ drop result out.old }
{
    out[..digest.len()].copy_from_slice(digest);
    digest.len()
}
