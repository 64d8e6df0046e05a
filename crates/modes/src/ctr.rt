//! Counter mode of a text that comes in pieces (SP 800-38D section 6.5).
ghost use Rattle.std.specs.Prelude.{◌≡◌, ℕ, ◌+◌, ◌-◌, ◌<◌, ◌≤◌, List, [], ◌++◌, length, take, drop};
ghost use Rattle.modes.specs.Cbc.{block};
ghost use Rattle.modes.specs.Ctr.{counter_block, ctr};

use aes::Block;
use octets::{PIECE, SEALED_PIECE, xor_into};

/// Counter mode from a first counter block, whose last four octets are the counter.
#[derive(Drop)]
pub struct Ctr32<B> {
    cipher: B,
    stream: KeyStream,
}

impl<B: Block> Ctr32<B> {
    ghost use Rattle.modes.specs.Code.Views.{HoldsCtr};

    /// Counter mode that was fed nothing yet.
    pub fn start(cipher: B, first: &[u8; 16]) -> Ctr32<B>
        ensures { HoldsCtr B.encrypted result (B.encrypted cipher) first.now [] }
    {
        Ctr32 {
            cipher,
            stream: KeyStream::start(first),
        }
    }

    /// Feeds the next piece, of at most `PIECE` octets. Writes as many octets of the result to the front of `out` and returns their number.
    pub fn feed(&mut self, piece: &[u8], out: &mut [u8; SEALED_PIECE]) -> usize
        requires { length piece.now ≤ PIECE }
        ensures len { result ≡ length piece.now }
        ensures fed { (e : List ℕ → List ℕ) (f p : List ℕ) → HoldsCtr B.encrypted self.old e f p
            → HoldsCtr B.encrypted self.new e f (p ++ piece.now) }
        ensures text { (e : List ℕ → List ℕ) (f p : List ℕ) → HoldsCtr B.encrypted self.old e f p
            → ctr e f (p ++ piece.now) ≡ ctr e f p ++ take result out.new }
        ensures rest { drop result out.new ≡ drop result out.old }
    {
        let part = &mut out[..piece.len()];
        part.copy_from_slice(piece);
        self.stream.apply(&self.cipher, part);
        piece.len()
    }

    /// Ends the text. Nothing is left to be written.
    pub fn finish(self) {}
}

/// The key stream after a text: the next counter block, the last sixteen blocks of the stream, and how many of their octets are used.
#[derive(Drop)]
pub(crate) struct KeyStream {
    counter: [u8; 16],
    blocks: [u8; 256],
    used: usize,
    ghost used_in: { used ≤ 256 },
}

impl KeyStream {
    ghost use Rattle.modes.specs.Code.Views.{HoldsKeyStream};

    /// The key stream before any text.
    pub(crate) fn start(first: &[u8; 16]) -> KeyStream
        ensures { (e : List ℕ → List ℕ) → HoldsKeyStream result e first.now [] }
    {
        let mut counter = [0; 16];
        counter.copy_from_slice(first);
        KeyStream {
            counter,
            blocks: [0; 256],
            used: 256,
        }
    }

    /// Xors the next octets of the stream into these.
    pub(crate) fn apply<B: Block>(&mut self, cipher: &B, octets: &mut [u8])
        ensures fed { (f p : List ℕ) → HoldsKeyStream self.old (B.encrypted cipher.now) f p
            → HoldsKeyStream self.new (B.encrypted cipher.now) f (p ++ octets.old) }
        ensures text { (f p : List ℕ) → HoldsKeyStream self.old (B.encrypted cipher.now) f p
            → ctr (B.encrypted cipher.now) f (p ++ octets.old) ≡ ctr (B.encrypted cipher.now) f p ++ octets.new }
    {
        let mut at = 0;
        while at < octets.len() {
            at += self.apply_front(cipher, &mut octets[at..]);
        }
    }

    /// Xors the unused octets of the blocks into the front of the octets and returns how many.
    fn apply_front<B: Block>(&mut self, cipher: &B, octets: &mut [u8]) -> usize
        requires { 0 < length octets.old }
        ensures some { (0 < result) × (result ≤ length octets.old) }
        ensures rest { drop result octets.new ≡ drop result octets.old }
        ensures fed { (f p : List ℕ) → HoldsKeyStream self.old (B.encrypted cipher.now) f p
            → HoldsKeyStream self.new (B.encrypted cipher.now) f (p ++ take result octets.old) }
        ensures text { (f p : List ℕ) → HoldsKeyStream self.old (B.encrypted cipher.now) f p
            → ctr (B.encrypted cipher.now) f (p ++ take result octets.old)
            ≡ ctr (B.encrypted cipher.now) f p ++ take result octets.new }
    {
        self.prepare(cipher, octets.len());
        let n = (256 - self.used).min(octets.len());
        xor_into(&mut octets[..n], &self.blocks[self.used..self.used + n]);
        self.used += n;
        n
    }

    /// Makes sure that an unused octet is there: if all are used, makes the blocks for `len` octets, at most sixteen.
    fn prepare<B: Block>(&mut self, cipher: &B, len: usize)
        requires { 0 < len }
        ensures left { self.new.used < 256 }
        ensures ready { (f p : List ℕ) → HoldsKeyStream self.old (B.encrypted cipher.now) f p
            → HoldsKeyStream self.new (B.encrypted cipher.now) f p }
    {
        if self.used == 256 {
            let first = 16 - (len.min(256) + 15) / 16;
            self.make_blocks(cipher, first);
            self.used = 16 * first;
        }
    }

    /// The next blocks of the stream, at the places from `first` to 15.
    fn make_blocks<B: Block>(&mut self, cipher: &B, first: usize)
        requires { first < 16 }
        ensures counter { (f : List ℕ) (n : ℕ) → length f ≡ 16 → self.old.counter ≡ counter_block f n
            → self.new.counter ≡ counter_block f (n + (16 - first)) }
        ensures blocks { (f : List ℕ) (n : ℕ) → length f ≡ 16 → self.old.counter ≡ counter_block f n
            → (i : ℕ) → first ≤ i → i < 16
            → block self.new.blocks i ≡ B.encrypted cipher.now (counter_block f (n + (i - first))) }
        ensures used { self.new.used ≡ self.old.used }
    {
        self.write_counters(first);
        cipher.encrypt_blocks(&mut self.blocks[16 * first..]);
    }

    /// The next counter blocks, at the places from `first` to 15.
    fn write_counters(&mut self, first: usize)
        requires { first < 16 }
        ensures counter { (f : List ℕ) (n : ℕ) → length f ≡ 16 → self.old.counter ≡ counter_block f n
            → self.new.counter ≡ counter_block f (n + (16 - first)) }
        ensures blocks { (f : List ℕ) (n : ℕ) → length f ≡ 16 → self.old.counter ≡ counter_block f n
            → (i : ℕ) → first ≤ i → i < 16 → block self.new.blocks i ≡ counter_block f (n + (i - first)) }
        ensures used { self.new.used ≡ self.old.used }
    {
        for i in first..16 {
            let counter = self.counter;
            self.blocks[16 * i..16 * i + 16].copy_from_slice(&counter);
            self.count_up();
        }
    }

    /// The next counter block (inc32 of section 6.2).
    fn count_up(&mut self)
        ensures counter { self.new.counter ≡ counter_block self.old.counter 1 }
        ensures blocks { self.new.blocks ≡ self.old.blocks }
        ensures used { self.new.used ≡ self.old.used }
    {
        let mut count = [0; 4];
        count.copy_from_slice(&self.counter[12..]);
        let next = u32::from_be_bytes(count).wrapping_add(1);
        self.counter[12..].copy_from_slice(&next.to_be_bytes());
    }
}
