//! Encrypting to each key of a set (RFC 7516 section 5.1), in compact or in JSON form.
ghost use Rattle.std.specs.Prelude.{◌≡◌, ◌≤◌, ◌<◌, ◌*◌, ℕ, if◌then◌else◌, IsOk, IsErr, true, false, not, List, [], ◌∷◌, length, map, is_some, Ok, Err, option_map, IfOk, IfErr, OnOk, string_bytes};
ghost use Rattle.std.specs.Iterator.{IsFinite};
ghost use Rattle.std.specs.Option.{unwrap_or};
ghost use Rattle.octets.specs.Base64url.{base64url};
ghost use Rattle.octets.specs.Devices.{input_members, output_members, appended, observed, IsPossibleInput};
ghost use Rattle.octets.specs.Faults.{TellsFaults, counts};
ghost use Rattle.octets.specs.Code.Lent.{lent, counts_of};
ghost use Rattle.octets.specs.Code.Streaming.{Draws, Streams};
ghost use Rattle.octets.specs.Octets.{IsOctets};
ghost use Rattle.octets.specs.Outcomes.{is_external};
ghost use Rattle.octets.specs.Plan.{planned, plan_from, drawn_of};
ghost use Rattle.octets.specs.declared.refusal.Refusal.{Refusal};
ghost use Rattle.ciphers.specs.Sealing.{cek_len};
ghost use Rattle.keys.specs.Keys.{fits};
ghost use Rattle.keys.specs.Limits.{limits};
ghost use Rattle.objects.specs.Code.JweMaking.{IsBuilt};
ghost use Rattle.objects.specs.Code.Views.{jwe_view};
ghost use Rattle.tokens.specs.Encrypting.{enc_plan, sealing_by, random_len, direct_key, cek_drawn, cek_by};
ghost use Rattle.tokens.specs.Code.SealedTexts.{IsUnsealed, unsealed_object, unsealed_by, frame_by};
ghost use Rattle.tokens.specs.Code.Views.{recipient_key_view, encryption_plan_view, delivery_view};

mod ciphertext;
mod deliver;
mod plan;
mod recipient_key;
mod recipients;
mod settle;
mod template;

use crate::aad::additional_authenticated_data;
use crate::encrypt::ciphertext::{Ciphertext, EncodedCiphertext};
use crate::encrypt::deliver::{Delivery, MOST_FOR_RECIPIENT, deliver_to_all, drawn_for_all};
use crate::encrypt::plan::EncryptionPlan;
use crate::encrypt::recipient_key::RecipientKey;
use crate::encrypt::recipients::{protected_header, recipients};
use crate::encrypt::settle::{is_direct, read_encryption};
use crate::framed::{write_beside, write_inside};
use crate::headers::header_text;
use ciphers::laws::{what_delivers_is_octets, what_is_opened_is_octets};
use ciphers::{Cek, ContentSealer, Sealer};
use keys::laws::are_octet_keys;
use keys::{KeySet, MOST_KEYS};
use objects::{Jwe, MadeEncryptedObject, copy_header};
use octets::laws::are_octets;
use octets::{Input, Output, Refusal, b64_encode, draw};
use std::alloc::Global;

/// The octets of the longest content encryption key (RFC 7518 section 5.2.5).
const MOST_CEK: usize = 64;

/// The octets of the longest initialization vector (RFC 7518 section 5.2.2.1).
const MOST_IV: usize = 16;

/// The most octets that are drawn: those for each recipient, the content encryption key, and the initialization vector.
const MOST_DRAWN: usize = MOST_KEYS * MOST_FOR_RECIPIENT + MOST_CEK + MOST_IV;

/// Reads the content to its end, encrypts it to each key in order (RFC 7516 section 5.1), as the template asks, and writes the object's
/// text: with `compact` its compact text (section 7.1), and else its JSON text (section 7.2), flattened if there is one key. If there is an
/// output for it, the ciphertext is detached: it is written there as plain octets, before the text, and the text is without it.
///
/// The template is a JSON object with no members other than `protected` and `unprotected`, which are objects, and `aad`, a base64url text.
/// The algorithm of key management is the `alg` of the headers; else the key's `alg`, where a content encryption means direct use; else
/// A128KW, A192KW or A256KW by the key's length. The algorithm of content encryption is the `enc` of the headers; else, if a key is used
/// directly, its `alg` or the CBC algorithm of its length; else the CBC algorithm that goes with the key management of the first key. For a
/// password `p2c` is that of the headers, or else `USUAL_P2C`, and `p2s`, of 16 octets, is drawn. For AES-GCM key wrap `iv`, of 12 octets,
/// is drawn, and `tag` is made with the encrypted key.
///
/// What the headers do not have is added: `enc` to the protected header; `alg`, `p2c`, `p2s`, `iv` and `tag` to the protected header if
/// there is one key, and else to the header of each recipient.
///
/// Exactly these octets of the random input are read, after every refusal for the template and the keys: the `p2s` or the `iv` of each key
/// that needs one, in order; the content encryption key, unless a key is it; and the initialization vector.
///
/// Refuses, each step for every key before the next (docs/SPECIFICATION.md "Encrypting"), with `Json`, `Number`, `Form`, `Base64`, `Header`
/// or `Unsupported` for the template; `NoAlgorithm`, `KeyDoesNotFit` or `Header` for the keys and the algorithms; `Limit` for a header that
/// is too deep, or for iterations; `NotCompact` if compact form cannot hold the object; `Read` if the random input fails, and `Random` if
/// it ends too early; `Read` if the content fails, and `Limit` if it is too long; and `Write` if an output fails. May fail with `Memory`,
/// before the content is read.
#[tactic(auto, unfolding(crate::specs::Encrypting::enc_plan))]
pub fn jwe_encrypt<I: Input, O: Output>(
    alloc: Global,
    keys: &KeySet,
    template: &[u8],
    compact: bool,
    random: &mut I,
    content: &mut I,
    out: &mut O,
    detached: Option<&mut O>,
) -> Result<(), Refusal>
    requires { IsFinite (I.remaining content.old) }

    // Exactly the octets for the recipients, the key and the vector are drawn.
    ensures draws { Draws (input_members I.consumed I.is_at_end I.failures) (enc_plan limits compact (is_some detached.entry) keys.now template.now)
        random.old random.new result }

    // Whatever follows in the random input, the outputs are those of the plan that the template and the keys give with it.
    ensures streams { (octets : List ℕ) → IsPossibleInput (observed I.consumed I.is_at_end random.old random.new) octets
        → Streams (input_members I.consumed I.is_at_end I.failures) (output_members O.written O.is_finished O.endings O.failures)
        (plan_from (enc_plan limits compact (is_some detached.entry) keys.now template.now) octets)
        content.old content.new out.old out.new (lent detached.entry detached.exit) result }
    ensures same_source { (I.source random.new ≡ I.source random.old) × (I.source content.new ≡ I.source content.old) }
    ensures faults { TellsFaults (counts I.failures random.old random.new ∷ counts I.failures content.old content.new ∷ [])
        (counts O.failures out.old out.new ∷ counts_of O.failures (lent detached.entry detached.exit)) result }
{
    match detached {
        None => {
            let PreparedEncryption { texts, sealer } = prepare(
                alloc, keys, template, compact, false, random,
            )?;
            write_inside(content, EncodedCiphertext::start(sealer), &texts, out)
        }
        Some(detached) => {
            let PreparedEncryption { texts, sealer } = prepare(
                alloc, keys, template, compact, true, random,
            )?;
            write_beside(content, Ciphertext::start(sealer), &texts, out, detached)
        }
    }
}

/// What is settled before there is a plaintext: the texts around the ciphertext and the tag, and the sealing, started.
#[derive(Drop)]
struct PreparedEncryption {
    texts: Vec<String>,
    sealer: ContentSealer,
}

/// All that is settled before the plaintext is read. Apart from `Memory` and failures of the random input, it is refused exactly when the
/// plan is refused for every plaintext.
#[tactic(auto, unfolding(crate::specs::Encrypting::enc_plan))]
fn prepare<I: Input>(
    alloc: Global,
    keys: &KeySet,
    template: &[u8],
    compact: bool,
    detach: bool,
    random: &mut I,
) -> Result<PreparedEncryption, Refusal>
    ensures unsealed { (octets : List ℕ) → IsPossibleInput (observed I.consumed I.is_at_end random.old random.new) octets
        → IfOk result (λ made. IsUnsealed ⟦<ContentSealer as Sealer>⟧.is_sealing compact detach
        (plan_from (enc_plan limits compact detach keys.now template.now) octets) made.sealer (map string_bytes made.texts.items)) }
    ensures refused { (octets plaintext : List ℕ) → IsPossibleInput (observed I.consumed I.is_at_end random.old random.new) octets
        → IfErr result (λ e. is_external e ≡ false → planned (plan_from (enc_plan limits compact detach keys.now template.now) octets) plaintext ≡ Err e) }
    ensures drawn { OnOk result (length (appended (I.consumed random.old) (I.consumed random.new))
        ≡ drawn_of (enc_plan limits compact detach keys.now template.now)) }
    ensures at_most { length (appended (I.consumed random.old) (I.consumed random.new))
        ≤ drawn_of (enc_plan limits compact detach keys.now template.now) }
    ensures template_first { (refusal : Refusal) → enc_plan limits compact detach keys.now template.now ≡ Err refusal
        → IsErr result × (random.new ≡ random.old) }
    ensures same_source { I.source random.new ≡ I.source random.old }
    ensures faults { TellsFaults (counts I.failures random.old random.new ∷ []) [] result }
{
    let encryption = read_encryption(alloc, keys, template, compact)?;
    let mut buf = [0; MOST_DRAWN];
    let drawn = &mut buf[..random_len(&encryption)];
    draw(random, drawn)?;
    are_octets(drawn);
    are_octet_keys(keys);
    what_is_opened_is_octets();
    what_delivers_is_octets();
    begin_sealing(alloc, encryption, drawn, compact, detach)
}

/// The texts and the sealing of an encryption with the octets that were drawn, before there is a plaintext.
fn begin_sealing(
    alloc: Global,
    encryption: EncryptionPlan<'_>,
    random: &[u8],
    compact: bool,
    detach: bool,
) -> Result<PreparedEncryption, Refusal>
    requires long { length random.now ≡ random_len (encryption_plan_view encryption) }
    requires built { IsBuilt limits (unsealed_by (encryption_plan_view encryption) random.now) }
    requires made { IsOk (frame_by limits compact detach (encryption_plan_view encryption) random.now) }
    ensures sealing { IfOk result
        (λ made. ⟦<ContentSealer as Sealer>⟧.is_sealing made.sealer (sealing_by (encryption_plan_view encryption.entry) random.now) []) }
    ensures framed { IfOk result (λ made. frame_by limits compact detach (encryption_plan_view encryption.entry) random.now
        ≡ Ok (map string_bytes made.texts.items)) }
    ensures cek { IfOk result (λ made. IsOctets (cek_by (encryption_plan_view encryption.entry) random.now)
        × (length (cek_by (encryption_plan_view encryption.entry) random.now) ≡ cek_len (encryption_plan_view encryption.entry).encryption)) }
    ensures memory { IfErr result (λ e. e ≡ Refusal.Memory) }
{
    let (for_recipients, random) = random.split_at(drawn_for_all(&encryption.recipient_keys));
    let (for_cek, iv) = random.split_at(cek_drawn(&encryption));
    let cek = content_key(&encryption, for_cek);
    are_octets(cek.octets());
    let deliveries = deliver_to_all(alloc, &encryption, for_recipients, &cek)?;
    let alg = encryption.encryption;
    let jwe = unsealed(alloc, encryption, deliveries, iv)?;
    let sealer = {
        let data = additional_authenticated_data(alloc, jwe.protected(), jwe.aad())?;
        alg.seal(cek.octets(), iv, data.as_bytes())
    };
    let texts = jwe.frame(alloc, compact, detach)?;
    Ok(PreparedEncryption { texts, sealer })
}

/// The object of what is encrypted, without a ciphertext and a tag.
fn unsealed(
    alloc: Global,
    encryption: EncryptionPlan<'_>,
    deliveries: Vec<Delivery>,
    iv: &[u8],
) -> Result<Jwe, Refusal>
    requires { IsBuilt limits (unsealed_object (encryption_plan_view encryption) (map delivery_view deliveries.items) iv.now) }
    ensures object { IfOk result (λ jwe. jwe_view jwe
        ≡ unsealed_object (encryption_plan_view encryption.entry) (map delivery_view deliveries.items) iv.now) }
    ensures memory { IfErr result (λ e. e ≡ Refusal.Memory) }
{
    let EncryptionPlan {
        encryption: enc,
        recipient_keys,
        given,
        protected,
        unprotected,
        aad,
        ..
    } = encryption;
    let alone = recipient_keys.len() <= 1;
    let header = protected_header(alloc, given, alone, &deliveries, protected)?;
    let text = header_text(alloc, copy_header(alloc, Some(&header))?)?;
    Jwe::made(
        alloc,
        MadeEncryptedObject {
            protected: b64_encode(alloc, text.as_bytes())?,
            protected_members: header,
            unprotected,
            iv: iv.to_vec(alloc)?,
            aad,
            ciphertext: Vec::new(alloc),
            tag: Vec::new(alloc),
            enc,
            recipients: recipients(alloc, given, alone, deliveries)?,
        },
    )
}

/// How many octets are drawn.
fn random_len(encryption: &EncryptionPlan<'_>) -> usize
    ensures count { result ≡ random_len (encryption_plan_view encryption.now) }
    ensures bound { result ≤ MOST_DRAWN }
{
    let for_recipients = drawn_for_all(&encryption.recipient_keys);
    for_recipients + cek_drawn(encryption) + encryption.encryption.iv_len()
}

/// How many octets are drawn for the content encryption key.
fn cek_drawn(encryption: &EncryptionPlan<'_>) -> usize
    ensures count { result ≡ cek_drawn (encryption_plan_view encryption.now) }
    ensures bound { result ≤ MOST_CEK }
{
    match direct_key(&encryption.recipient_keys) {
        Some(_) => 0,
        None => encryption.encryption.cek_len(),
    }
}

/// The key that is used directly, if there is one, and then it is the only key.
fn direct_key<'k>(recipient_keys: &[RecipientKey<'k>]) -> Option<&'k [u8]>
    ensures { option_map (λ key. key.now) result ≡ direct_key (map recipient_key_view recipient_keys.now) }
{
    let first = recipient_keys.first()?;
    if is_direct(first.management) {
        Some(first.key.octets())
    } else {
        None
    }
}

/// The content encryption key: what was drawn, or the key that is used directly.
fn content_key(encryption: &EncryptionPlan<'_>, drawn: &[u8]) -> Cek
    requires { length drawn.now ≡ cek_drawn (encryption_plan_view encryption.now) }
    ensures cek { result ≡ unwrap_or (direct_key (encryption_plan_view encryption.now).recipient_keys) drawn.now }
    ensures fits { length result ≡ cek_len (encryption_plan_view encryption.now).encryption }
{
    match direct_key(&encryption.recipient_keys) {
        Some(key) => Cek::new(key),
        None => Cek::new(drawn),
    }
}
