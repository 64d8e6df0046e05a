//! Sets whose keys each stand for a signer of its own (RFC 2104 section 2), and objects that some of them signed. The digests are by
//! Python's `hashlib`, and the signatures by its `hmac`.
use crate::expected::{expect_octets_at, expect_same};
use keys::KeySet;
use objects::Jws;
use octets::{MemoryInput, MemoryOutput, Refusal};
use std::process::Abort;
use std::test::Fail;
use tokens::{jws_verified_by, jws_verify_detached_least, jws_verify_least, needs_signers};

/// 32 octets `a`.
const A: &str = "YWFhYWFhYWFhYWFhYWFhYWFhYWFhYWFhYWFhYWFhYWE";

/// The same with a zero octet.
const A_AND_ZERO: &str = "YWFhYWFhYWFhYWFhYWFhYWFhYWFhYWFhYWFhYWFhYWEA";

/// The same with zero octets up to the block of SHA-256.
const A_FILLED: &str =
    "YWFhYWFhYWFhYWFhYWFhYWFhYWFhYWFhYWFhYWFhYWEAAAAAAAAAAAAAAAAAAAAAAAAAAAAAAAAAAAAAAAAAAA";

/// 65 octets `c`, more than a block of SHA-256.
const C: &str =
    "Y2NjY2NjY2NjY2NjY2NjY2NjY2NjY2NjY2NjY2NjY2NjY2NjY2NjY2NjY2NjY2NjY2NjY2NjY2NjY2NjY2NjY2M";

/// Its digest by SHA-256.
const C_BY_SHA256: &str = "swhV5RBEasNHBsWsr-7e_VEi_pRGs_gS2xHhrDtNDPI";

/// Its digest by SHA-384, whose block it fits.
const C_BY_SHA384: &str = "HpwQmLt4m2NC-5lqN0LXbUl3-CQgMcR_wr3RiakF-0ogv835naZXV1RBbcwDkjAo";

/// 129 octets `d`, more than a block of SHA-384 and SHA-512.
const D: &str =
    "ZGRkZGRkZGRkZGRkZGRkZGRkZGRkZGRkZGRkZGRkZGRkZGRkZGRkZGRkZGRkZGRkZGRkZGRkZGRkZGRkZGRkZGRkZGRkZGRkZGRkZGRkZGRkZGRkZGRkZGRkZGRkZGRkZGRkZGRkZGRkZGRkZGRkZGRkZGRkZGRkZGRkZGRkZGRk";

/// Its digest by SHA-384.
const D_BY_SHA384: &str = "9EErR80q48kjlLuUD8xafsI6N-gAJ750p_SkoHHsxAHuv6rtlTxUomUdLfDjl5Rm";

/// Its digest by SHA-512.
const D_BY_SHA512: &str =
    "MOVEBdzJhq6Q-DDgH8FEGQ_3Vu_W5-n-S9-dZBa1TGPlzhi_zhctw2BDYFLbg0o3MX0OIIX68R48aaWQIM3Y_A";

/// 64 octets `e`, a block of SHA-256.
const E: &str =
    "ZWVlZWVlZWVlZWVlZWVlZWVlZWVlZWVlZWVlZWVlZWVlZWVlZWVlZWVlZWVlZWVlZWVlZWVlZWVlZWVlZWVlZQ";

/// The same with a zero octet: SHA-256 hashes it, and the others fill both with zeros.
const E_AND_ZERO: &str =
    "ZWVlZWVlZWVlZWVlZWVlZWVlZWVlZWVlZWVlZWVlZWVlZWVlZWVlZWVlZWVlZWVlZWVlZWVlZWVlZWVlZWVlZQA";

/// The `k` of each key of a set, a number of signers, whether each key stands for one of them, and what the set has.
const SIGNERS: &[(&[&str], usize, bool, &str)] = &[
    (&[A], 1, true, "one key"),
    (&[A], 0, false, "no signer"),
    (&[A], 2, false, "too few keys"),
    (&[A, C], 1, false, "too many keys"),
    (&[A, C, D, E], 4, true, "four keys"),
    (&[A, C, A], 3, false, "the first key again"),
    (&[A, C, C], 3, false, "the last key again"),
    (&[A, A_AND_ZERO], 2, false, "a zero octet more"),
    (
        &[A_AND_ZERO, C, A_FILLED],
        3,
        false,
        "zero octets up to a block",
    ),
    (&[C, C_BY_SHA256], 2, false, "a key and its hash by SHA-256"),
    (
        &[C, C_BY_SHA384],
        2,
        true,
        "a hash that no HMAC makes of the key",
    ),
    (&[D_BY_SHA384, D], 2, false, "a key and its hash by SHA-384"),
    (&[D, D_BY_SHA512], 2, false, "a key and its hash by SHA-512"),
    (
        &[E, E_AND_ZERO],
        2,
        false,
        "alike by SHA-384 and SHA-512 alone",
    ),
];

/// The text of a set of these keys.
fn set_of<R: AllocGlobal>(rt: &R, secrets: &[&str]) -> Result<String, Fail> {
    let mut text = String::new(rt.alloc());
    text.push_str("{\"keys\":[")?;
    for (i, secret) in secrets.iter().enumerate() {
        if i > 0 {
            text.push_str(",")?;
        }
        text.push_str("{\"kty\":\"oct\",\"k\":\"")?;
        text.push_str(secret)?;
        text.push_str("\"}")?;
    }
    text.push_str("]}")?;
    Ok(text)
}

/// Whether each key of this set stands for one of so many signers.
fn expect_signers<R: Abort + AllocGlobal>(
    rt: &R,
    secrets: &[&str],
    signers: usize,
    wanted: bool,
    what: &str,
) -> Result<(), Fail> {
    let text = set_of(rt, secrets)?;
    let keys = KeySet::read(rt.alloc(), text.as_bytes(), true)?;
    let answer = if wanted { Ok(()) } else { Err(Refusal::Key) };
    expect_same(rt, needs_signers(rt.alloc(), &keys, signers), answer, what);
    Ok(())
}

#[test]
fn keys_that_sign_alike_are_one_signer(rt: HostRuntime) -> Result<(), Fail> {
    for &(secrets, signers, wanted, what) in SIGNERS {
        expect_signers(&rt, secrets, signers, wanted, what)?;
    }
    Ok(())
}

/// `abc`, signed twice with `A` and once with `C`.
const TWICE_AND_ONCE: &str =
    "{\"payload\":\"YWJj\",\"signatures\":[{\"protected\":\"eyJhbGciOiJIUzI1NiJ9\",\"signature\":\"PKCg7mPdQaZd10mTWYSdBXzd_whS3yALgHeSMO4xZac\"},{\"protected\":\"eyJhbGciOiJIUzI1NiIsImtpZCI6ImEifQ\",\"signature\":\"vpE7KFOrjVP5qxEUwSJmiZc52M0d5Rs2i6UVJt5EvLs\"},{\"protected\":\"eyJhbGciOiJIUzI1NiJ9\",\"signature\":\"o3unU8wtMlkDzitEnjf6RvT75Yk1x12oSCL9fXuu6mw\"}]}";

/// The same without its payload.
const TWICE_AND_ONCE_DETACHED: &str =
    "{\"signatures\":[{\"protected\":\"eyJhbGciOiJIUzI1NiJ9\",\"signature\":\"PKCg7mPdQaZd10mTWYSdBXzd_whS3yALgHeSMO4xZac\"},{\"protected\":\"eyJhbGciOiJIUzI1NiIsImtpZCI6ImEifQ\",\"signature\":\"vpE7KFOrjVP5qxEUwSJmiZc52M0d5Rs2i6UVJt5EvLs\"},{\"protected\":\"eyJhbGciOiJIUzI1NiJ9\",\"signature\":\"o3unU8wtMlkDzitEnjf6RvT75Yk1x12oSCL9fXuu6mw\"}]}";

/// The `k` of each key of a set, how many of them made one of these signatures, and what the set has.
const SIGNED: &[(&[&str], usize, &str)] = &[
    (&[A, C, E], 2, "two of three"),
    (&[E, A], 1, "the second of two"),
    (&[C], 1, "the only one"),
    (&[D, E], 0, "none of two"),
    (&[A, A], 2, "one that is there twice"),
];

/// Verifying by at least so many of the keys succeeds exactly if so many made a signature, and at least one.
fn expect_least<R: Abort + AllocGlobal>(
    rt: &R,
    secrets: &[&str],
    signed: usize,
    least: usize,
    what: &str,
) -> Result<(), Fail> {
    let text = set_of(rt, secrets)?;
    let keys = KeySet::read(rt.alloc(), text.as_bytes(), true)?;
    let enough = least <= signed && signed > 0;
    let answer = if enough {
        Ok(())
    } else {
        Err(Refusal::NotOpened)
    };
    let jws = Jws::read(rt.alloc(), TWICE_AND_ONCE.as_bytes(), None)?;
    let mut content = MemoryOutput::new(rt.alloc(), 16)?;
    let verified = jws_verify_least(&keys, &jws, least, Some(&mut content));
    expect_same(rt, verified, answer, what);
    let payload: &[u8] = if enough { b"abc" } else { b"" };
    expect_octets_at(rt, content.octets(), payload, what);
    let text = TWICE_AND_ONCE_DETACHED.as_bytes();
    let jws = Jws::read(rt.alloc(), text, Some(Vec::new(rt.alloc())))?;
    let mut content = MemoryInput::new(b"abc", 2);
    let verified = jws_verify_detached_least(rt.alloc(), &keys, &jws, &mut content, least);
    expect_same(rt, verified, answer, what);
    Ok(())
}

#[test]
fn signers_are_counted_by_their_keys(rt: HostRuntime) -> Result<(), Fail> {
    for &(secrets, signed, what) in SIGNED {
        for least in 0..5 {
            expect_least(&rt, secrets, signed, least, what)?;
        }
    }
    Ok(())
}

/// The `k` of each key of a set, and the place of the first of them that signed `TWICE_AND_ONCE`.
const FIRST_SIGNERS: &[(&[&str], Result<usize, Refusal>)] = &[
    (&[A, C], Ok(0)),
    (&[C, A], Ok(0)),
    (&[E, C, A, C], Ok(1)),
    (&[E, D, A, E], Ok(2)),
    (&[E, D], Err(Refusal::NotOpened)),
];

#[test]
fn the_signer_is_the_first_key_that_signed(rt: HostRuntime) -> Result<(), Fail> {
    let jws = Jws::read(rt.alloc(), TWICE_AND_ONCE.as_bytes(), None)?;
    for &(secrets, wanted) in FIRST_SIGNERS {
        let text = set_of(&rt, secrets)?;
        let keys = KeySet::read(rt.alloc(), text.as_bytes(), true)?;
        expect_same(&rt, jws_verified_by(&keys, &jws), wanted, secrets.len());
    }
    Ok(())
}
