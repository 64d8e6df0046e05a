//! Laws of the definitions, as contracts of functions that do nothing.
ghost use Rattle.std.specs.Prelude.{◌≡◌, ◌++◌, List};
ghost use Rattle.ciphers.specs.declared.key_alg.KeyAlg.{KeyAlg};
ghost use Rattle.keys.specs.Limits.{Limits, limits};
ghost use Rattle.tokens.specs.Decrypting.{FewerIterationsRefuse};
ghost use Rattle.tokens.specs.Encrypting.{AreSound, EncryptedDecrypts, EncryptingGrows, EncryptingMakesTexts};
ghost use Rattle.tokens.specs.Judging.{VerifiersMayVerify, DecryptersMayDecrypt};
ghost use Rattle.tokens.specs.Jws.{LeastIsEachSigner};
ghost use Rattle.tokens.specs.MoreAlgorithms.{earlier_limits, earlier_management_algs, gcm_management_algs, knowing, OpensAlike};
ghost use Rattle.tokens.specs.Signers.{AlikeKeysSignAlike};
ghost use Rattle.tokens.specs.Signing.{SigningGrows, SigningMakesTexts};
ghost use Rattle.tokens.specs.Verifying.{FewerAreAccepted, FirstVerifies, LeastHaveSigned, LeastIsAll, SignedVerifies};

use ciphers::laws::{
    delivers_exactly, opens_exactly, what_delivers_is_octets, what_is_opened_is_octets,
};
use objects::laws::{jwe_texts_spell_objects, jws_texts_spell_objects};

/// The text of a signed object that a beginning of the payload fixes grows as more is read, and is a beginning of the whole text.
pub fn signing_grows()
    ensures { SigningGrows }
{}

/// If keys and a template are accepted, every payload has an object and its text.
pub fn signing_makes_texts()
    ensures { SigningMakesTexts }
{}

/// An object that keys sign verifies with each of these keys alone, if the key may verify, and the result is the payload.
pub fn what_is_signed_verifies()
    ensures { SignedVerifies }
{
    jws_texts_spell_objects();
}

/// Some key verifies an object exactly if `jws_verified_by` names a first one, and the refusals are the same.
pub fn first_verifies()
    ensures { FirstVerifies }
{}

/// To ask for as many signers as there are keys is to ask for each of them, and to ask for one is to ask for some. What is accepted for more
/// signers is accepted for fewer, and has so many signers among the keys, which are at least one.
pub fn signers_are_counted()
    ensures all { LeastIsAll }
    ensures each { LeastIsEachSigner }
    ensures least { LeastHaveSigned }
    ensures fewer { FewerAreAccepted }
{}

/// Keys of which none may verify verify nothing, and those of which none may decrypt decrypt nothing. So `key_uses` tells what to expect.
pub fn keys_do_what_they_may()
    ensures verify { VerifiersMayVerify }
    ensures decrypt { DecryptersMayDecrypt }
{}

/// Keys of which HMAC makes the same block make the same signatures (RFC 2104 section 2). So they stand for one signer.
pub fn alike_keys_sign_alike()
    ensures { AlikeKeysSignAlike }
{}

/// The text of an encrypted object that a beginning of the plaintext fixes grows as more is read, and is a beginning of the whole text.
pub fn encrypting_grows()
    ensures { EncryptingGrows }
{
    what_is_opened_is_octets();
    what_delivers_is_octets();
}

/// If keys and a template are accepted, every plaintext that is not too long for its content encryption has an object and its text.
pub fn encrypting_makes_texts()
    ensures { EncryptingMakesTexts }
{
    what_is_opened_is_octets();
    what_delivers_is_octets();
}

/// An object that is encrypted to keys is decrypted to the plaintext with each of these keys alone, if the key may decrypt and opens
/// nothing else at the recipient of an earlier key. This holds under all limits under which what is written may be read, and so under those
/// of this profile.
pub fn what_is_encrypted_decrypts()
    ensures all { (limits : Limits) → AreSound limits → EncryptedDecrypts limits }
    ensures here { EncryptedDecrypts limits }
{
    opens_exactly();
    delivers_exactly();
    what_is_opened_is_octets();
    what_delivers_is_octets();
    jwe_texts_spell_objects();
}

/// If a caller allows fewer iterations of PBKDF2, the answer is the same, or it is `Limit`.
pub fn fewer_iterations_only_refuse()
    ensures { FewerIterationsRefuse }
{}

/// With further algorithms of key management, objects are read as before, and encrypted ones are decrypted as before, if their names are
/// those of algorithms that were known before, or of none of the further ones. So it is when the three of AES-GCM key wrap are added to the
/// earlier ones, which together are the algorithms of the limits.
pub fn more_algorithms_open_alike()
    ensures all { (limits : Limits) (known further : List KeyAlg) → OpensAlike limits known further }
    ensures gcm { OpensAlike limits earlier_management_algs gcm_management_algs
        × (knowing limits (earlier_management_algs ++ gcm_management_algs) ≡ limits) }
    ensures earlier { OpensAlike earlier_limits earlier_management_algs gcm_management_algs
        × (knowing earlier_limits (earlier_management_algs ++ gcm_management_algs) ≡ earlier_limits) }
{}
