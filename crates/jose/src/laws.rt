//! Laws of the commands' answers: how the commands fit together, and which answers stay the same under wider limits. Each law is the
//! contract of a function that does nothing.
ghost use Rattle.keys.specs.Limits.{Limits, limits};
ghost use Rattle.tokens.specs.MoreAlgorithms.{earlier_limits};
ghost use Rattle.objects.specs.CompactForm.{HasOnlyRecipient, HasOnlySignature};
ghost use Rattle.objects.specs.Jwe.{jwe_of};
ghost use Rattle.objects.specs.Jws.{jws_of};
ghost use Rattle.tokens.specs.Encrypting.{AreSound};
ghost use Rattle.jose.specs.Headline.{AnswerIsDecrypted, AnswerIsVerified, EncryptedIsDecrypted, FormatsGoBack, GoesToCompactForm, SignedIsVerified};
ghost use Rattle.tokens.specs.Jwe.{jwe_fmt_answer};
ghost use Rattle.tokens.specs.Jws.{jws_fmt_answer};
ghost use Rattle.jose.specs.WiderLimits.{AreWider, EncryptsAsBefore, ReadsAsBefore};

use keys::laws::keys_have_octets;
use objects::laws::{
    jwe_compact_form_is_exact, jwe_objects_are_made, jwe_texts_spell_objects,
    jws_compact_form_is_exact, jws_objects_are_made, jws_texts_spell_objects,
};
use tokens::laws::{what_is_encrypted_decrypts, what_is_signed_verifies};

/// The texts that `jwe enc` writes are those of an object. `jwe dec` returns its plaintext with each of the keys alone, if the key may
/// decrypt and opens nothing else at the recipient of an earlier key.
pub fn what_is_encrypted_is_decrypted()
    ensures texts { EncryptedIsDecrypted limits limits }
    ensures answers { AnswerIsDecrypted }
{
    keys_have_octets();
    what_is_encrypted_decrypts();
}

/// The texts that `jws sig` writes are those of an object. `jws ver` verifies it with any of the keys that may verify, with `-a` and
/// without.
pub fn what_is_signed_is_verified()
    ensures texts { SignedIsVerified }
    ensures answers { AnswerIsVerified }
{
    what_is_signed_verifies();
}

/// `jws fmt -c` writes each object that it reads, if the object has one signature and no unprotected header. It refuses every other object
/// with `NotCompact`. Such an object is written in JSON form, then in compact form and then in JSON form again, and has the same text as at
/// first.
pub fn signed_objects_go_to_compact_form_and_back()
    ensures there { GoesToCompactForm (jws_of limits) HasOnlySignature (jws_fmt_answer limits) }
    ensures back { FormatsGoBack (jws_of limits) HasOnlySignature (jws_fmt_answer limits) }
{
    jws_compact_form_is_exact();
    jws_objects_are_made();
    jws_texts_spell_objects();
}

/// `jwe fmt -c` writes each object that it reads, if the object has one recipient, only a protected header and no additional data. It
/// refuses every other object with `NotCompact`. Such an object is written in JSON form, then in compact form and then in JSON form again,
/// and has the same text as at first.
pub fn encrypted_objects_go_to_compact_form_and_back()
    ensures there { GoesToCompactForm (jwe_of limits) HasOnlyRecipient (jwe_fmt_answer limits) }
    ensures back { FormatsGoBack (jwe_of limits) HasOnlyRecipient (jwe_fmt_answer limits) }
{
    jwe_compact_form_is_exact();
    jwe_objects_are_made();
    jwe_texts_spell_objects();
}

/// Under wider limits `jwe dec`, `jws ver`, `jws fmt` and `jwe fmt` answer as under narrower ones, for all keys and objects, unless the
/// answer under the narrower ones is `Limit`.
pub fn wider_limits_keep_what_is_read()
    ensures all { (narrower wider : Limits) → AreWider narrower wider → ReadsAsBefore narrower wider }
    ensures here { ReadsAsBefore earlier_limits limits }
{}

/// Under wider limits `jwe enc` also answers as under narrower ones, unless the answer under the narrower ones is `Limit`. This holds if no
/// recipient is a password, or if the template has the count of iterations.
pub fn wider_limits_keep_what_is_encrypted()
    ensures all { (narrower wider : Limits) → AreWider narrower wider → EncryptsAsBefore narrower wider }
    ensures here { EncryptsAsBefore earlier_limits limits }
{}

/// The texts that `jwe enc` wrote under narrower limits are those of an object under wider limits, if the narrower limits allow reading
/// what is written under them. `jwe dec` returns its plaintext with each of the keys, as under the narrower limits.
pub fn what_was_encrypted_is_decrypted()
    ensures all { (narrower wider : Limits) → AreSound narrower → AreWider narrower wider → EncryptedIsDecrypted narrower wider }
    ensures here { EncryptedIsDecrypted earlier_limits limits }
{
    keys_have_octets();
    what_is_encrypted_decrypts();
}
