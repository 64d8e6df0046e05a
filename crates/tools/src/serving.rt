//! What a key may do, and by which algorithms, in words.
ghost use Rattle.std.specs.Prelude.{◌≡◌, ◌++◌, option_map, OnOk, Some};
ghost use Rattle.std.specs.List.{list_any};
ghost use Rattle.ciphers.specs.Algorithms.{encryption_algs, management_algs};
ghost use Rattle.keys.specs.Algorithms.{signature_algs};
ghost use Rattle.keys.specs.Keys.{fits};
ghost use Rattle.keys.specs.Code.Views.{key_view};
ghost use Rattle.tokens.specs.Code.Uses.{uses_view};
ghost use Rattle.tools.specs.LookedKeys.{fits_any, may_nothing, management_words, names_algorithm, serves_encryption, serves_signatures, serving_text, signature_words, use_words, why_idle, word_if};

use crate::printing::{add, add_both};
use ciphers::{ContentAlg, KeyAlg};
use keys::{Algorithm, Key, Operation, SignatureAlg};
use std::alloc::AllocError;
use tokens::{KeyUses, key_uses};

/// Adds what the key may do, and the names of its algorithms. A space stands before each word.
#[tactic(auto, unfolding(crate::specs::LookedKeys::serving_text), using(std::proofs::Common::append_assoc))]
pub(crate) fn add_serving(line: &mut Vec<u8>, key: &Key) -> Result<(), AllocError>
    ensures { OnOk result (line.new.items ≡ line.old.items ++ serving_text (key_view key.now)) }
{
    let uses = key_uses(key);
    if may_nothing(uses) {
        return add_both(line, " for no algorithm: ", why_idle(key));
    }
    add_uses(line, uses)?;
    add(line, ",")?;
    add_signatures(line, key, SignatureAlg::all())?;
    add_managements(line, key, KeyAlg::all())
}

fn may_nothing(uses: KeyUses) -> bool
    ensures { result ≡ may_nothing (uses_view uses) }
{
    !(uses.sign || uses.verify || uses.encrypt || uses.decrypt)
}

/// Why the key may do nothing: the first cause.
fn why_idle(key: &Key) -> &'static str
    ensures { result.now ≡ why_idle (key_view key.now) }
{
    if !names_algorithm(key.alg()) {
        "alg is not known"
    } else if fits_any(key) {
        "use or key_ops allows none"
    } else {
        "alg asks for a k of another length"
    }
}

/// Whether the `alg` is absent or that of an algorithm.
fn names_algorithm(alg: Option<&str>) -> bool
    ensures { result ≡ names_algorithm (option_map (λ name. name.now) alg.entry) }
{
    match alg {
        None => true,
        Some(name) => is_name(name),
    }
}

fn is_name(name: &str) -> bool
    ensures { result ≡ names_algorithm (Some name.now) }
{
    SignatureAlg::named(name).is_some()
        || KeyAlg::named(name).is_some()
        || ContentAlg::named(name).is_some()
}

/// Whether some algorithm fits the key, whatever it may do.
fn fits_any(key: &Key) -> bool
    ensures { result ≡ fits_any (key_view key.now) }
{
    fits_a_signature(key) || fits_an_encryption(key)
}

fn fits_a_signature(key: &Key) -> bool
    ensures { result ≡ list_any (λ alg. fits (key_view key.now) (Algorithm.Signature alg)) signature_algs }
{
    SignatureAlg::all()
        .iter()
        .any(|alg| key.fits(Algorithm::Signature(*alg)))
}

fn fits_an_encryption(key: &Key) -> bool
    ensures { result ≡ list_any (λ alg. list_any (λ enc. fits (key_view key.now) (Algorithm.Encryption alg enc)) encryption_algs) management_algs }
{
    KeyAlg::all().iter().any(|alg| fits_some(key, *alg))
}

#[tactic(auto, using(std::proofs::Common::append_assoc))]
fn add_uses(line: &mut Vec<u8>, uses: KeyUses) -> Result<(), AllocError>
    ensures { OnOk result (line.new.items ≡ line.old.items ++ use_words (uses_view uses)) }
{
    add_word_if(line, uses.sign, "sign")?;
    add_word_if(line, uses.verify, "verify")?;
    add_word_if(line, uses.encrypt, "encrypt")?;
    add_word_if(line, uses.decrypt, "decrypt")
}

/// Adds the names of the algorithms of signatures that the key serves.
fn add_signatures(line: &mut Vec<u8>, key: &Key, algs: &[SignatureAlg]) -> Result<(), AllocError>
    ensures { OnOk result (line.new.items ≡ line.old.items ++ signature_words (key_view key.now) algs.now) }
{
    for alg in algs {
        add_word_if(line, serves_signatures(key, *alg), alg.name())?;
    }
    Ok(())
}

/// Whether the key fits the algorithm, and may sign or verify.
fn serves_signatures(key: &Key, alg: SignatureAlg) -> bool
    ensures { result ≡ serves_signatures (key_view key.now) alg }
{
    (key.allows(Operation::Sign) || key.allows(Operation::Verify))
        && key.fits(Algorithm::Signature(alg))
}

/// Adds the names of the algorithms of key management that the key serves.
fn add_managements(line: &mut Vec<u8>, key: &Key, algs: &[KeyAlg]) -> Result<(), AllocError>
    ensures { OnOk result (line.new.items ≡ line.old.items ++ management_words (key_view key.now) algs.now) }
{
    for alg in algs {
        add_word_if(line, serves_encryption(key, *alg), alg.name())?;
    }
    Ok(())
}

/// Whether the key may encrypt or decrypt by the algorithm, and fits it with some content encryption.
fn serves_encryption(key: &Key, alg: KeyAlg) -> bool
    ensures { result ≡ serves_encryption (key_view key.now) alg }
{
    let (encrypt, decrypt) = Operation::of_management(alg);
    (key.allows(encrypt) || key.allows(decrypt)) && fits_some(key, alg)
}

fn fits_some(key: &Key, alg: KeyAlg) -> bool
    ensures { result ≡ list_any (λ enc. fits (key_view key.now) (Algorithm.Encryption alg enc)) encryption_algs }
{
    ContentAlg::all().iter().any(|encryption| key.fits(Algorithm::Encryption(alg, *encryption)))
}

/// Adds a space and the word, if the test holds.
#[tactic(auto, using(std::proofs::Common::append_assoc))]
fn add_word_if(line: &mut Vec<u8>, test: bool, word: &str) -> Result<(), AllocError>
    ensures { OnOk result (line.new.items ≡ line.old.items ++ word_if test word.now) }
{
    if !test {
        return Ok(());
    }
    add(line, " ")?;
    add(line, word)
}
