//! Decrypting with any key of a set (RFC 7516 section 5.2).
ghost use Rattle.std.specs.Prelude.{◌≡◌, ◌≢◌, ◌+◌, ◌≤◌, ◌*◌, [], ◌∷◌, true, length, take, map, option_map, None, OnOk, OnErr, IfErr, IfNone};
ghost use Rattle.std.specs.Result.{result_unwrap_or};
ghost use Rattle.octets.specs.Devices.{appended, AppendsPrefixOf, IsFinishedOnce};
ghost use Rattle.octets.specs.Faults.{TellsFaults, counts};
ghost use Rattle.octets.specs.Outcomes.{AgreesUnlessExternal};
ghost use Rattle.octets.specs.Code.Results.{AgreesUnlessMemory};
ghost use Rattle.keys.specs.declared.algorithm.Algorithm.TheVariants.{Encryption};
ghost use Rattle.keys.specs.Keys.{fits};
ghost use Rattle.keys.specs.Code.Views.{key_view};
ghost use Rattle.keys.specs.Limits.{limits};
ghost use Rattle.objects.specs.Code.Views.{jwe_view, recipient_view};
ghost use Rattle.tokens.specs.Decrypting.{with_iterations, decrypted, pairs_to_try, pairs_with, iterations_of, first_opened, opened_by, cek_of};
ghost use Rattle.tokens.specs.Code.Trying.{IsSaltFor, pair_if_candidate, with_ciphertext, within_after};
ghost use Rattle.tokens.specs.Code.Work.{no_work, plus, with_pairs, work_told, IsBounded};
ghost use Rattle.tokens.specs.Code.Views.{algorithms_view, pair_view, sealed_with_view, work_view};

mod pair;
mod pairs;
mod recipients;
mod salted;
mod tried;

use crate::aad::additional_authenticated_data;
use crate::algorithms::{Algorithms, parameters, unwraps};
use crate::decrypt::pair::Pair;
use crate::decrypt::pairs::{is_candidate, judge_pairs};
use crate::decrypt::recipients::open_recipients;
use crate::decrypt::salted::SaltedKeys;
use crate::decrypt::tried::was_tried;
use ciphers::laws::{delivers_exactly, opens_exactly};
use ciphers::{Cek, SaltedKey};
use keys::{Key, KeySet, MOST_ITERATIONS};
use objects::Jwe;
use octets::laws::are_octets;
use octets::{Output, Refusal, emit};
use std::alloc::Global;

/// The work of opening an object, over all pairs of a recipient and a key that were tried.
#[derive(Clone, Copy, Debug, PartialEq, Eq)]
pub struct Work {
    /// Iterations of PBKDF2.
    pub iterations: u64,
    /// Encrypted keys that were unwrapped, or tried.
    pub unwraps: u64,
    /// Contents that were opened, or tried.
    pub openings: u64,
}

/// No work.
const NO_WORK: Work = Work {
    iterations: 0,
    unwraps: 0,
    openings: 0,
};

impl Work {
    /// Adds other work.
    fn add(&mut self, other: Work)
        requires iterations { self.old.iterations + other.iterations ≤ limits.p2c_sum }
        requires unwraps { self.old.unwraps + other.unwraps ≤ limits.keys * limits.recipients }
        requires openings { self.old.openings + other.openings ≤ limits.keys * limits.recipients }
        ensures sums { work_view self.new ≡ plus (work_view self.old) (work_view other) }
        ensures bound { IsBounded (work_view self.new) }
    {
        self.iterations += other.iterations;
        self.unwraps += other.unwraps;
        self.openings += other.openings;
    }
}

/// What a content was sealed with, without its ciphertext.
#[derive(Clone, Copy)]
struct SealedWith<'j, 'a> {
    iv: &'j [u8],
    aad: &'a [u8],
    tag: &'j [u8],
}

/// Decrypts the object with the keys (RFC 7516 section 5.2) and writes its plaintext. The recipients are tried in order, and for each the
/// keys in order that may decrypt by its algorithms and fit. The plaintext is that of the first pair whose encrypted key unwraps to a
/// content encryption key under which the tag is right.
///
/// Refuses, in this order, with `Unsupported` if no recipient's algorithms are supported; `KeyDoesNotFit` if no key may decrypt and fits;
/// `Limit` if a pair needs more than `GREATEST_P2C_READ` iterations of PBKDF2, or all pairs more than `MOST_ITERATIONS`; `NotOpened` if no
/// pair opens; and `Write` if the output fails. May fail with `Memory`. `Work` is 0 after every refusal except `NotOpened` and `Write`.
pub fn jwe_decrypt<O: Output>(
    alloc: Global,
    keys: &KeySet,
    jwe: Jwe,
    out: &mut O,
) -> (Work, Result<(), Refusal>)
    ensures answer { AgreesUnlessExternal (decrypted limits keys.now (jwe_view jwe)) (appended (O.written out.old) (O.written out.new)) result.1 }

    // The output is not touched before a pair opens.
    ensures held_back { IfErr result.1 (λ refusal. refusal ≢ Refusal.Write → out.new ≡ out.old) }
    ensures beginning { OnErr result.1 (AppendsPrefixOf (result_unwrap_or (decrypted limits keys.now (jwe_view jwe)) [])
        (O.written out.old) (O.written out.new)) }
    ensures finished { OnOk result.1 (IsFinishedOnce O.is_finished O.endings out.old out.new) }
    ensures unfinished { OnErr result.1 (O.endings out.new ≡ O.endings out.old) }
    ensures faults { TellsFaults [] (counts O.failures out.old out.new ∷ []) result.1 }

    // The work is that of the pairs up to and including the first that opens.
    ensures work { work_view result.0 ≡ work_told (jwe_view jwe) (pairs_to_try limits keys.now (jwe_view jwe).recipients) result.1 }
    ensures bound { IsBounded (work_view result.0) }
{
    jwe_decrypt_within(alloc, keys, jwe, MOST_ITERATIONS, out)
}

/// `jwe_decrypt` for a caller who cannot wait: it also refuses with `Limit` if all pairs together need more than `most_iterations` of
/// PBKDF2. With 0, no password is tried. A stranger's object of few octets may ask for up to `MOST_ITERATIONS`.
pub fn jwe_decrypt_within<O: Output>(
    alloc: Global,
    keys: &KeySet,
    jwe: Jwe,
    most_iterations: u64,
    out: &mut O,
) -> (Work, Result<(), Refusal>)
    ensures answer { AgreesUnlessExternal (decrypted (with_iterations most_iterations limits) keys.now (jwe_view jwe))
        (appended (O.written out.old) (O.written out.new)) result.1 }
    ensures held_back { IfErr result.1 (λ refusal. refusal ≢ Refusal.Write → out.new ≡ out.old) }
    ensures beginning { OnErr result.1 (AppendsPrefixOf (result_unwrap_or (decrypted (with_iterations most_iterations limits) keys.now (jwe_view jwe)) [])
        (O.written out.old) (O.written out.new)) }
    ensures finished { OnOk result.1 (IsFinishedOnce O.is_finished O.endings out.old out.new) }
    ensures unfinished { OnErr result.1 (O.endings out.new ≡ O.endings out.old) }
    ensures faults { TellsFaults [] (counts O.failures out.old out.new ∷ []) result.1 }
    ensures work { work_view result.0
        ≡ work_told (jwe_view jwe) (pairs_to_try (with_iterations most_iterations limits) keys.now (jwe_view jwe).recipients) result.1 }
    ensures bound { IsBounded (work_view result.0) }
{
    let (work, plaintext) = jwe_plaintext(alloc, keys, jwe, most_iterations);
    let result = match plaintext {
        Err(refusal) => Err(refusal),
        Ok(plaintext) => emit(out, &plaintext),
    };
    (work, result)
}

/// `jwe_decrypt_within` for a caller who wants the plaintext in memory: it is decrypted where the ciphertext of the object stood, and is not
/// copied.
#[tactic(auto, unfolding(crate::specs::Decrypting::decrypted))]
pub fn jwe_plaintext(
    alloc: Global,
    keys: &KeySet,
    jwe: Jwe,
    most_iterations: u64,
) -> (Work, Result<Vec<u8>, Refusal>)
    ensures answer { AgreesUnlessMemory (λ plaintext. plaintext.items) result.1
        (decrypted (with_iterations most_iterations limits) keys.now (jwe_view jwe)) }
    ensures work { work_view result.0
        ≡ work_told (jwe_view jwe) (pairs_to_try (with_iterations most_iterations limits) keys.now (jwe_view jwe).recipients) result.1 }
    ensures bound { IsBounded (work_view result.0) }
{
    let mut jwe = jwe;
    let mut octets = jwe.take_ciphertext(alloc);
    let mut work = NO_WORK;
    let opened = open_in_place(
        alloc,
        keys.keys(),
        &jwe,
        most_iterations,
        &mut octets,
        &mut work,
    );
    match opened {
        Err(refusal) => (work, Err(refusal)),
        Ok(len) => {
            octets.truncate(len);
            (work, Ok(octets))
        }
    }
}

/// Opens the ciphertext of the object where it stands, by the first pair that opens it, and answers the length of the plaintext. Refuses as
/// `jwe_decrypt_within` does.
#[tactic(auto, unfolding(crate::specs::Decrypting::decrypted))]
fn open_in_place<'x>(
    alloc: Global,
    keys: &'x [Key],
    jwe: &'x Jwe,
    most_iterations: u64,
    octets: &mut [u8],
    work: &mut Work,
) -> Result<usize, Refusal>
    requires few { length keys.now ≤ limits.keys }
    requires fresh { work_view work.old ≡ no_work }
    ensures answer { AgreesUnlessMemory (λ n. take n octets.new) result
        (decrypted (with_iterations most_iterations limits) (map key_view keys.entry.now) (with_ciphertext octets.old (jwe_view jwe.entry.now))) }
    ensures work { work_view work.new ≡ work_told (with_ciphertext octets.old (jwe_view jwe.entry.now))
        (pairs_to_try (with_iterations most_iterations limits) (map key_view keys.entry.now) (jwe_view jwe.entry.now).recipients) result }
    ensures bound { IsBounded (work_view work.new) }
{
    judge_pairs(keys, jwe.recipients(), most_iterations)?;
    let mut salted = SaltedKeys::new(alloc, keys)?;
    let aad = additional_authenticated_data(alloc, jwe.protected(), jwe.aad())?;
    let sealed = SealedWith {
        iv: jwe.iv(),
        aad: aad.as_bytes(),
        tag: jwe.tag(),
    };
    let opened = open_recipients(jwe.recipients(), &mut salted, sealed, octets, work);
    opened.ok_or(Refusal::NotOpened)
}

/// Opens the ciphertext by a pair, if its key may decrypt by the recipient's algorithms and fits. The pairs of the recipient and the keys
/// before opened nothing. If one of these keys is the same, the content is not tried again. If the pair does not open it, the octets are
/// unchanged.
#[tactic(auto, unfolding(crate::specs::Decrypting::opened_by))]
fn open_pair(
    pair: &Pair<'_>,
    before: &[Key],
    salted: &mut SaltedKey<'_>,
    sealed: SealedWith<'_, '_>,
    octets: &mut [u8],
    work: &mut Work,
) -> Option<usize>
    requires bound { IsBounded (work_view work.old) }
    requires counted { within_after work.old.iterations (pair_if_candidate (pair_view pair.now)) ≡ true }
    requires key { salted.old.key ≡ (key_view pair.now.key.now).octets }
    requires salt { IsSaltFor salted.old.p2s (recipient_view pair.now.recipient.now).management }
    requires tried { first_opened (sealed_with_view sealed octets.old)
        (pairs_with (recipient_view pair.now.recipient.now) (algorithms_view pair.now.algorithms) (map key_view before.now)) ≡ None }
    ensures opened { option_map (λ n. take n octets.new) result
        ≡ first_opened (sealed_with_view sealed.entry octets.old) (pair_if_candidate (pair_view pair.now)) }
    ensures unchanged { IfNone result (octets.new ≡ octets.old) }
    ensures same { salted.new ≡ salted.old }
    ensures work { work_view work.new ≡ with_pairs (sealed_with_view sealed.entry octets.old) (work_view work.old) (pair_if_candidate (pair_view pair.now)) }
{
    if !is_candidate(pair.algorithms, pair.key) {
        return None;
    }
    work.unwraps += unwraps(pair.algorithms.management);
    let (cek, iterations) = deliver(pair, salted);
    work.iterations += iterations;
    let cek = cek?;
    work.openings += 1;
    if was_tried(before, pair.algorithms, pair.key) {
        return None;
    }
    let cek = cek.octets();
    opens_exactly();
    are_octets(cek);
    are_octets(sealed.iv);
    let enc = pair.algorithms.encryption;
    enc.open(cek, sealed.iv, sealed.aad, octets, sealed.tag)
}

/// The content encryption key that a pair delivers, and the number of iterations of PBKDF2 for it.
#[tactic(auto, unfolding(crate::specs::Decrypting::cek_of), using(crate::proofs::AlgorithmCases::is_key_of, crate::proofs::AlgorithmCases::counts, crate::proofs::AlgorithmCases::salts, crate::proofs::AlgorithmCases::iterations_made))]
fn deliver(pair: &Pair<'_>, salted: &mut SaltedKey<'_>) -> (Option<Cek>, u64)
    requires fits { fits (key_view pair.now.key.now) (Encryption pair.now.algorithms.management pair.now.algorithms.encryption) ≡ true }
    requires counted { iterations_of (pair_view pair.now) ≤ limits.greatest_p2c_read }
    requires key { salted.old.key ≡ (key_view pair.now.key.now).octets }
    requires salt { IsSaltFor salted.old.p2s (recipient_view pair.now.recipient.now).management }
    ensures cek { result.0 ≡ cek_of (pair_view pair.now) }
    ensures iterations { result.1 ≡ iterations_of (pair_view pair.now) }
    ensures same { salted.new ≡ salted.old }
{
    let Algorithms {
        management,
        encryption,
    } = pair.algorithms;
    let parameters = parameters(pair.recipient.management());
    delivers_exactly();
    are_octets(pair.key.octets());
    management.unwrap_cek_salted(
        encryption,
        salted,
        parameters,
        pair.recipient.encrypted_key(),
    )
}
