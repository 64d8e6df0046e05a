//! A payload that is signed as it is read (RFC 7515 section 5.1): each signing input is fed its base64url text, and returns its signature
//! at the end.
ghost use Rattle.std.specs.Prelude.{List, [], length};
ghost use Rattle.octets.specs.Base64url.{base64url};
ghost use Rattle.tokens.specs.Code.SigningInputs.{InputStart, HoldEach, HaveTaken};

use crate::framed::Values;
use crate::mac::MAC_TEXT;
use crate::signing_input::{SigningInput, take_each};
use octets::{B64Writer, Output, PIECE_TEXT, Refusal, Transform, emit, encode_onto, write_whole};

/// A payload that is written as its base64url text.
#[derive(Drop)]
pub(crate) struct EncodedPayload<S: SigningInput> {
    inputs: Vec<S>,
    writer: B64Writer,
}

impl<S: SigningInput> EncodedPayload<S> {
    /// A payload of which nothing was read yet.
    pub(crate) fn start(inputs: Vec<S>) -> EncodedPayload<S>
        ensures { (starts : List InputStart) → HoldEach S.has_taken inputs.items starts []
            → HaveTaken S.has_taken result.inputs.items result.writer starts [] }
    {
        EncodedPayload {
            inputs,
            writer: B64Writer::start(),
        }
    }
}

impl<S: SigningInput> Transform for EncodedPayload<S> {
    type Rest = Vec<S>;

    ghost use Rattle.octets.specs.Encoding.{encoding};
    ghost use Rattle.octets.specs.Code.Streams.{encoding_starts};

    ghost Job = { List InputStart };

    ghost plan = { λ starts. encoding };

    ghost is_fed = { λ x starts p. HaveTaken S.has_taken x.inputs.items x.writer starts p };

    ghost is_left = { λ inputs starts p. HoldEach S.has_taken inputs.items starts (base64url p) };

    ghost starts_with_nothing = { λ x starts fed. encoding_starts };

    fn feed<'t>(
        &mut self,
        piece: &'t [u8],
        space: &'t mut [u8; PIECE_TEXT],
    ) -> Result<&'t [u8], Refusal> {
        let text = Transform::feed(&mut self.writer, piece, space)?;
        take_each(&mut self.inputs, text);
        Ok(text)
    }

    fn finish<'t>(self, space: &'t mut [u8; PIECE_TEXT]) -> Result<(&'t [u8], Vec<S>), Refusal> {
        let EncodedPayload { mut inputs, writer } = self;
        let (text, ()) = Transform::finish(writer, space)?;
        take_each(&mut inputs, text);
        Ok((text, inputs))
    }
}

/// A payload that is written as it is.
#[derive(Drop)]
pub(crate) struct Payload<S: SigningInput> {
    inputs: Vec<S>,
    writer: B64Writer,
}

impl<S: SigningInput> Payload<S> {
    /// A payload of which nothing was read yet.
    pub(crate) fn start(inputs: Vec<S>) -> Payload<S>
        ensures { (starts : List InputStart) → HoldEach S.has_taken inputs.items starts []
            → HaveTaken S.has_taken result.inputs.items result.writer starts [] }
    {
        Payload {
            inputs,
            writer: B64Writer::start(),
        }
    }
}

impl<S: SigningInput> Transform for Payload<S> {
    type Rest = Vec<S>;

    ghost use Rattle.octets.specs.Code.Streams.{as_it_is};

    ghost Job = { List InputStart };

    ghost plan = { λ starts. as_it_is };

    ghost is_fed = { λ x starts p. HaveTaken S.has_taken x.inputs.items x.writer starts p };

    ghost is_left = { λ inputs starts p. HoldEach S.has_taken inputs.items starts (base64url p) };

    ghost starts_with_nothing = { λ x starts fed i. [] };

    fn feed<'t>(
        &mut self,
        piece: &'t [u8],
        space: &'t mut [u8; PIECE_TEXT],
    ) -> Result<&'t [u8], Refusal> {
        let text = Transform::feed(&mut self.writer, piece, space)?;
        take_each(&mut self.inputs, text);
        Ok(piece)
    }

    fn finish<'t>(self, space: &'t mut [u8; PIECE_TEXT]) -> Result<(&'t [u8], Vec<S>), Refusal> {
        let Payload { mut inputs, writer } = self;
        let (text, ()) = Transform::finish(writer, space)?;
        take_each(&mut inputs, text);
        Ok((&[], inputs))
    }
}

/// The signatures of what was fed to signing inputs.
impl<S: SigningInput> Values for Vec<S> {
    ghost use Rattle.tokens.specs.Code.SigningInputs.{GiveSignatures, count_signatures};

    ghost gives = { λ inputs values. GiveSignatures S.has_taken inputs.items values };

    ghost count = { λ inputs. length inputs.items };

    fn write<O: Output>(self, texts: &[String], out: &mut O) -> Result<(), Refusal> {
        let mut octets = [0; MAC_TEXT];
        for (input, text) in self.into_iter().zip(texts) {
            write_whole(out, text.as_bytes())?;
            let signature = input.sign();
            let len = encode_onto(signature.octets(), &mut octets);
            write_whole(out, &octets[..len])?;
        }
        emit(out, texts[texts.len() - 1].as_bytes())
    }

    ghost as_many = { λ inputs values given. count_signatures given };
}
