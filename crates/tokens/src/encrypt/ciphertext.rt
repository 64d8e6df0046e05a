//! A content that is sealed as it is read (RFC 7516 section 5.1, steps 15 and 16).
ghost use Rattle.std.specs.Prelude.{◌≡◌, ◌≤◌, ◌++◌, ◌∷◌, ℕ, length, take, List, []};
ghost use Rattle.ciphers.specs.Sealing.{Sealing};
ghost use Rattle.tokens.specs.Code.SealedTexts.{sealed_plan, IsFed, IsSealingText};

use crate::framed::Values;
use ciphers::Sealer;
use octets::{
    B64Writer, Output, PIECE_TEXT, Refusal, SEALED_PIECE, Transform, emit, encode_onto, write_whole,
};
use std::marker::Model;

/// The length of the base64url text of the longest tag, which has 32 octets.
const TAG_TEXT: usize = 43;

/// The authentication tag. Contracts see its octets.
#[derive(Drop)]
pub(crate) struct Tag {
    octets: [u8; 32],
    len: usize,
}

impl Model for Tag {
    ghost use Rattle.std.specs.Prelude.{◌≤◌, List, ℕ, take};

    ghost Value = { List ℕ };

    ghost view = { λ t. take t.len t.octets };

    ghost invariant = { λ t. t.len ≤ 32 };
}

impl Tag {
    pub(crate) fn octets(&self) -> &[u8]
        ensures within { length result.now ≤ 32 }
        ensures all { result.now ≡ self.now }
    {
        &self.octets[..self.len]
    }
}

/// Ends a sealing: writes the rest of the ciphertext to the front of `last` and returns its length and the tag.
fn end<S: Sealer>(sealer: S, last: &mut [u8; 16]) -> (usize, Tag)
    ensures within { result.0 ≤ 16 }
    ensures ciphertext { (s : Sealing) (p : List ℕ) → S.is_sealing sealer s p
        → (s.sealed p).ciphertext ≡ s.fixed p ++ take result.0 last.new }
    ensures tag { (s : Sealing) (p : List ℕ) → S.is_sealing sealer s p → (s.sealed p).tag ≡ result.1 }
{
    let mut octets = [0; 32];
    let (last_len, len) = sealer.finish(last, &mut octets);
    (last_len, Tag { octets, len })
}

/// A ciphertext that is written as its base64url text.
#[derive(Drop)]
pub(crate) struct EncodedCiphertext<S: Sealer> {
    sealer: S,
    writer: B64Writer,
}

impl<S: Sealer> EncodedCiphertext<S> {
    /// A sealing that was fed nothing of the plaintext yet.
    pub(crate) fn start(sealer: S) -> EncodedCiphertext<S>
        ensures { (s : Sealing) → S.is_sealing sealer s [] → IsSealingText S.is_sealing result.sealer result.writer s [] }
    {
        EncodedCiphertext {
            sealer,
            writer: B64Writer::start(),
        }
    }
}

impl<S: Sealer> Transform for EncodedCiphertext<S> {
    type Rest = Tag;

    ghost use Rattle.octets.specs.Encoding.{encoding};
    ghost use Rattle.octets.specs.Code.Streams.{encoding_starts};
    ghost use Rattle.tokens.specs.Code.SealedTexts.{nothing_starts};

    ghost Job = { Sealing };

    ghost plan = { λ s. sealed_plan encoding s };

    ghost is_fed = { λ x s p. IsSealingText S.is_sealing x.sealer x.writer s p };

    ghost is_left = { λ tag s p. (s.sealed p).tag ≡ tag };

    ghost starts_with_nothing = { λ x s fed. nothing_starts encoding s (S.keeps_pace x.sealer s [] fed.0.holds) encoding_starts };

    fn feed<'t>(
        &mut self,
        piece: &'t [u8],
        space: &'t mut [u8; PIECE_TEXT],
    ) -> Result<&'t [u8], Refusal> {
        let mut ciphertext = [0; SEALED_PIECE];
        let len = self.sealer.feed(piece, &mut ciphertext)?;
        let len = self.writer.feed(&ciphertext[..len], space);
        Ok(&space[..len])
    }

    fn finish<'t>(self, space: &'t mut [u8; PIECE_TEXT]) -> Result<(&'t [u8], Tag), Refusal> {
        let EncodedCiphertext { sealer, mut writer } = self;
        let mut last = [0; 16];
        let (len, tag) = end(sealer, &mut last);
        let len = writer.feed(&last[..len], space);
        let mut end = [0; 4];
        let end_len = writer.finish(&mut end);
        space[len..len + end_len].copy_from_slice(&end[..end_len]);
        Ok((&space[..len + end_len], tag))
    }
}

/// A ciphertext that is written as it is.
#[derive(Drop)]
pub(crate) struct Ciphertext<S: Sealer> {
    sealer: S,
}

impl<S: Sealer> Ciphertext<S> {
    /// A sealing that was fed nothing of the plaintext yet.
    pub(crate) fn start(sealer: S) -> Ciphertext<S>
        ensures { (s : Sealing) → S.is_sealing sealer s [] → IsFed S.is_sealing result.sealer s [] }
    {
        Ciphertext { sealer }
    }
}

impl<S: Sealer> Transform for Ciphertext<S> {
    type Rest = Tag;

    ghost use Rattle.octets.specs.Code.Streams.{as_it_is};
    ghost use Rattle.tokens.specs.Code.SealedTexts.{nothing_starts};

    ghost Job = { Sealing };

    ghost plan = { λ s. sealed_plan as_it_is s };

    ghost is_fed = { λ x s p. IsFed S.is_sealing x.sealer s p };

    ghost is_left = { λ tag s p. (s.sealed p).tag ≡ tag };

    ghost starts_with_nothing = { λ x s fed. nothing_starts as_it_is s (S.keeps_pace x.sealer s [] fed.holds) (λ i. []) };

    fn feed<'t>(
        &mut self,
        piece: &'t [u8],
        space: &'t mut [u8; PIECE_TEXT],
    ) -> Result<&'t [u8], Refusal> {
        let Some(ciphertext) = space.first_chunk_mut::<SEALED_PIECE>() else {
            unreachable!()
        };
        let len = self.sealer.feed(piece, ciphertext)?;
        Ok(&ciphertext[..len])
    }

    fn finish<'t>(self, space: &'t mut [u8; PIECE_TEXT]) -> Result<(&'t [u8], Tag), Refusal> {
        let Ciphertext { sealer } = self;
        let Some(last) = space.first_chunk_mut::<16>() else {
            unreachable!()
        };
        let (len, tag) = end(sealer, last);
        Ok((&last[..len], tag))
    }
}

/// The tag, between two texts.
impl Values for Tag {
    ghost use Rattle.octets.specs.Base64url.{base64url};
    ghost use Rattle.tokens.specs.Code.SealedTexts.{one_value};

    ghost gives = { λ tag values. values ≡ base64url tag ∷ [] };

    ghost count = { λ tag. 1 };

    fn write<O: Output>(self, texts: &[String], out: &mut O) -> Result<(), Refusal> {
        let mut text = [0; TAG_TEXT];
        let len = encode_onto(self.octets(), &mut text);
        write_whole(out, texts[0].as_bytes())?;
        write_whole(out, &text[..len])?;
        emit(out, texts[1].as_bytes())
    }

    ghost as_many = { λ tag values is. one_value is };
}
