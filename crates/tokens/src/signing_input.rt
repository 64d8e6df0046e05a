//! The signing input of a payload that comes in pieces, and its signature (RFC 7515 section 5.1).
ghost use Rattle.std.specs.Prelude.{◌≡◌, ◌++◌, ℕ, List, ◌∷◌, [], length, codes, Err, OnOk, OnErr, IsTrue};
ghost use Rattle.std.specs.Iterator.{IsFinite};
ghost use Rattle.octets.specs.Base64url.{base64url};
ghost use Rattle.octets.specs.Devices.{appended};
ghost use Rattle.octets.specs.Faults.{TellsFaults, counts};
ghost use Rattle.objects.specs.Code.Views.{held_view};
ghost use Rattle.prf.specs.HashFunction.{HashFunction};
ghost use Rattle.prf.specs.Hmac.{hmac};
ghost use Rattle.prf.specs.Code.Views.{HoldsHmac};
ghost use Rattle.keys.specs.Algorithms.{signature_hash};
ghost use Rattle.tokens.specs.Signatures.{signing_input};
ghost use Rattle.tokens.specs.Code.SigningInputs.{InputStart, HoldEach};

use crate::mac::Mac;
use keys::SignatureAlg;
use objects::HeldContent;
use octets::{B64Writer, Input, PIECE, PIECE_TEXT, Refusal};
use prf::{Hash, Hmac, Sha256, Sha384, Sha512};

/// A signing input that is fed in pieces.
pub(crate) trait SigningInput: Drop {
    /// It was started for an HMAC by this hash under this key, and was fed this text.
    ghost has_taken: { Self → HashFunction → List ℕ → List ℕ → Type 0 };

    /// Feeds the next piece.
    fn take(&mut self, piece: &[u8])
        ensures { (f : HashFunction) (key text : List ℕ) → has_taken self.old f key text
            → has_taken self.new f key (text ++ piece.now) };

    /// The signature of all that was fed.
    fn sign(self) -> Mac
        ensures { (f : HashFunction) (key text : List ℕ) → has_taken self f key text → result ≡ hmac f key text };
}

/// A signing input for any of the signature algorithms.
#[derive(Drop)]
pub(crate) enum HmacInput {
    BySha256(Hmac<Sha256>),
    BySha384(Hmac<Sha384>),
    BySha512(Hmac<Sha512>),
}

impl HmacInput {
    /// A signing input that was fed the text of the protected header and a dot.
    pub(crate) fn start(alg: SignatureAlg, key: &[u8], protected: &[u8]) -> HmacInput
        ensures { ⟦<HmacInput as SigningInput>⟧.has_taken result (signature_hash alg) key.now (protected.now ++ codes ".") }
    {
        match alg {
            SignatureAlg::Hs256 => HmacInput::BySha256(started(key, protected)),
            SignatureAlg::Hs384 => HmacInput::BySha384(started(key, protected)),
            SignatureAlg::Hs512 => HmacInput::BySha512(started(key, protected)),
        }
    }
}

impl SigningInput for HmacInput {
    ghost use Rattle.tokens.specs.Code.SigningInputs.{on_hmac_input};

    ghost has_taken = { λ x f key text. on_hmac_input x
        (λ mac. (f ≡ ⟦<Sha256 as Hash>⟧.function) × HoldsHmac ⟦<Sha256 as Hash>⟧.function ⟦<Sha256 as Hash>⟧.holds mac key text)
        (λ mac. (f ≡ ⟦<Sha384 as Hash>⟧.function) × HoldsHmac ⟦<Sha384 as Hash>⟧.function ⟦<Sha384 as Hash>⟧.holds mac key text)
        (λ mac. (f ≡ ⟦<Sha512 as Hash>⟧.function) × HoldsHmac ⟦<Sha512 as Hash>⟧.function ⟦<Sha512 as Hash>⟧.holds mac key text) };

    fn take(&mut self, piece: &[u8]) {
        match self {
            HmacInput::BySha256(mac) => mac.update(piece),
            HmacInput::BySha384(mac) => mac.update(piece),
            HmacInput::BySha512(mac) => mac.update(piece),
        }
    }

    fn sign(self) -> Mac {
        match self {
            HmacInput::BySha256(mac) => Mac::finish(mac),
            HmacInput::BySha384(mac) => Mac::finish(mac),
            HmacInput::BySha512(mac) => Mac::finish(mac),
        }
    }
}

/// An HMAC that was fed the text of the protected header and a dot.
fn started<H: Hash>(key: &[u8], protected: &[u8]) -> Hmac<H>
    ensures { HoldsHmac H.function H.holds result key.now (protected.now ++ codes ".") }
{
    let mut mac = Hmac::<H>::new(key);
    mac.update(protected);
    mac.update(b".");
    mac
}

/// The signature of the text of the protected header, a dot, and the base64url text of the payload.
pub(crate) fn signature_of(
    alg: SignatureAlg,
    key: &[u8],
    protected: &[u8],
    payload: HeldContent<'_>,
) -> Mac
    ensures { result ≡ hmac (signature_hash alg) key.now (signing_input protected.now (held_view payload.entry)) }
{
    let mut input = HmacInput::start(alg, key, protected);
    take_payload(&mut input, payload);
    input.sign()
}

/// Feeds the base64url text of the octets, in pieces.
fn take_encoded<S: SigningInput>(input: &mut S, octets: &[u8])
    ensures { (f : HashFunction) (key text : List ℕ) → S.has_taken input.old f key text
        → S.has_taken input.new f key (text ++ base64url octets.now) }
{
    let mut writer = B64Writer::start();
    let mut text = [0; PIECE_TEXT];
    for piece in octets.chunks(PIECE) {
        let len = writer.feed(piece, &mut text);
        input.take(&text[..len]);
    }
    let mut last = [0; 4];
    let len = writer.finish(&mut last);
    input.take(&last[..len]);
}

/// Feeds the base64url text of the payload: as it was received, or of its octets.
pub(crate) fn take_payload<S: SigningInput>(input: &mut S, payload: HeldContent<'_>)
    ensures { (f : HashFunction) (key text : List ℕ) → S.has_taken input.old f key text
        → S.has_taken input.new f key (text ++ base64url (held_view payload.entry)) }
{
    match payload {
        HeldContent::Text(text) => input.take(text.text()),
        HeldContent::Octets(octets) => take_encoded(input, octets),
    }
}

/// Feeds the next piece to each.
pub(crate) fn take_each<S: SigningInput>(inputs: &mut [S], piece: &[u8])
    ensures len { length inputs.new ≡ length inputs.old }
    ensures taken { (starts : List InputStart) (text : List ℕ) → HoldEach S.has_taken inputs.old starts text
        → HoldEach S.has_taken inputs.new starts (text ++ piece.now) }
{
    for input in inputs.iter_mut() {
        input.take(piece);
    }
}

/// Reads the content to its end, and feeds its base64url text to each. Refuses with `Read` if the content fails.
pub(crate) fn take_content<S: SigningInput, I: Input>(
    inputs: &mut [S],
    content: &mut I,
) -> Result<(), Refusal>
    requires { IsFinite (I.remaining content.old) }
    ensures len { length inputs.new ≡ length inputs.old }
    ensures taken { (starts : List InputStart) → HoldEach S.has_taken inputs.old starts []
        → OnOk result (HoldEach S.has_taken inputs.new starts (base64url (appended (I.consumed content.old) (I.consumed content.new)))) }
    ensures ends { OnOk result (IsTrue (I.is_at_end content.new)) }
    ensures same_source { I.source content.new ≡ I.source content.old }
    ensures cause { OnErr result (result ≡ Err Refusal.Read) }
    ensures faults { TellsFaults (counts I.failures content.old content.new ∷ []) [] result }
{
    let mut buf = [0; PIECE];
    let mut text = [0; PIECE_TEXT];
    let mut writer = B64Writer::start();
    'pieces: loop {
        let n = content.read(&mut buf)?;
        if n == 0 {
            break;
        }
        let len = writer.feed(&buf[..n], &mut text);
        take_each(inputs, &text[..len]);
    }
    let mut last = [0; 4];
    let len = writer.finish(&mut last);
    take_each(inputs, &last[..len]);
    Ok(())
}
