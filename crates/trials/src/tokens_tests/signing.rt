//! `jws_verify` and `jws_verify_detached` verify what `jws_sign` signs, with its key alone. The signature is by Python's `hmac`.
use crate::expected::{expect_octets_at, expect_same};
use crate::tokens_tests::KEY_TO_15;
use keys::KeySet;
use objects::Jws;
use octets::{Failing, FailingInput, MemoryInput, MemoryOutput, Refusal};
use std::process::Abort;
use std::test::Fail;
use tokens::{jws_sign, jws_verify, jws_verify_detached};

/// The key of the octets 0 to 31.
const KEY_TO_31: &str = "{\"kty\":\"oct\",\"k\":\"AAECAwQFBgcICQoLDA0ODxAREhMUFRYXGBkaGxwdHh8\"}";

/// The key of RFC 7515 appendix A.1, of 64 octets.
const RFC7515_KEY: &str =
    "{\"kty\":\"oct\",\"k\":\"AyM1SysPpbyDfgZld3umj1qzKObwVMkoqQ-EstJQLr_T-1qS0gZH75aKtMN3Yj0iPS4hcgUuTwjAzZr1Z9CAow\"}";

/// `abc`, signed with `KEY_TO_31`.
const ABC: &[u8] = b"eyJhbGciOiJIUzI1NiJ9.YWJj.8-sUlaJJTTOyeAYgv-kHNN9tT55A-tUCHOYatGHTJa0";

#[test]
fn a_payload_is_signed_with_its_key(rt: HostRuntime) -> Result<(), Fail> {
    let key = KeySet::read(rt.alloc(), KEY_TO_31.as_bytes(), true)?;
    let mut payload = MemoryInput::new(b"abc", 1);
    let mut text = MemoryOutput::new(rt.alloc(), 256)?;
    let signed = jws_sign(rt.alloc(), &key, b"{}", true, &mut payload, &mut text, None);
    expect_same(&rt, signed, Ok(()), "signing");
    expect_octets_at(&rt, text.octets(), ABC, "the token");
    Ok(())
}

/// The same without its payload.
const ABC_DETACHED: &[u8] = b"eyJhbGciOiJIUzI1NiJ9..8-sUlaJJTTOyeAYgv-kHNN9tT55A-tUCHOYatGHTJa0";

/// Verifying `ABC` with the keys has this result and writes this.
fn expect_verified<R: Abort + AllocGlobal>(
    rt: &R,
    keys: &str,
    wanted: bool,
    answer: Result<(), Refusal>,
    written: &[u8],
) -> Result<(), Fail> {
    let keys = KeySet::read(rt.alloc(), keys.as_bytes(), false)?;
    let jws = Jws::read(rt.alloc(), ABC, None)?;
    let mut content = MemoryOutput::new(rt.alloc(), 16)?;
    let out = if wanted { Some(&mut content) } else { None };
    let verified = jws_verify(&keys, &jws, false, out);
    expect_same(rt, verified, answer, "verifying");
    expect_octets_at(rt, content.octets(), written, "the payload");
    let finished = wanted && answer.is_ok();
    expect_same(rt, content.is_finished(), finished, "the end");
    Ok(())
}

#[test]
fn a_signed_payload_verifies_with_its_key_alone(rt: HostRuntime) -> Result<(), Fail> {
    let refused = Err(Refusal::NotOpened);
    expect_verified(&rt, KEY_TO_31, true, Ok(()), b"abc")?;
    expect_verified(&rt, KEY_TO_31, false, Ok(()), b"")?;
    expect_verified(&rt, RFC7515_KEY, true, refused, b"")?;
    expect_verified(&rt, RFC7515_KEY, false, refused, b"")
}

/// Verifying `ABC_DETACHED` with the keys and this payload, which fails as `failing` says, has this result.
fn expect_verified_detached<R: Abort + AllocGlobal>(
    rt: &R,
    keys: &str,
    payload: &[u8],
    failing: Failing,
    answer: Result<(), Refusal>,
) -> Result<(), Fail> {
    let keys = KeySet::read(rt.alloc(), keys.as_bytes(), false)?;
    let jws = Jws::read(rt.alloc(), ABC_DETACHED, Some(Vec::new(rt.alloc())))?;
    let mut content = FailingInput::new(MemoryInput::new(payload, 2), failing);
    let verified = jws_verify_detached(rt.alloc(), &keys, &jws, &mut content, true);
    expect_same(rt, verified, answer, "verifying");
    Ok(())
}

#[test]
fn a_detached_payload_verifies_with_its_key_alone(rt: HostRuntime) -> Result<(), Fail> {
    let never = Failing::Once(u64::MAX);
    let refused = Err(Refusal::NotOpened);
    expect_verified_detached(&rt, KEY_TO_31, b"abc", never, Ok(()))?;
    expect_verified_detached(&rt, KEY_TO_31, b"abd", never, refused)?;
    expect_verified_detached(&rt, RFC7515_KEY, b"abc", never, refused)?;
    let unfit = Err(Refusal::KeyDoesNotFit);
    expect_verified_detached(&rt, KEY_TO_15, b"abc", never, unfit)
}

#[test]
fn a_payload_that_fails_is_reported_first(rt: HostRuntime) -> Result<(), Fail> {
    let reported = Err(Refusal::Read);
    for key in [KEY_TO_31, RFC7515_KEY, KEY_TO_15] {
        for call in 0..3 {
            expect_verified_detached(&rt, key, b"abc", Failing::Once(call), reported)?;
        }
    }
    Ok(())
}
