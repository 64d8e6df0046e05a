//! Each function once with its answer, and with a refusal. The expected values are those of RFC 7515 and RFC 7516, and of Python's `hmac` and
//! `hashlib`. What the answers are, other tests try below this crate, and `make bindings` tries the functions from C.
use super::*;
use std::process::Abort;

const KEY: &[u8] =
    b"{\"kty\":\"oct\",\"k\":\"AyM1SysPpbyDfgZld3umj1qzKObwVMkoqQ-EstJQLr_T-1qS0gZH75aKtMN3Yj0iPS4hcgUuTwjAzZr1Z9CAow\"}";

const TWO_KEYS: &[u8] =
    b"{\"keys\":[{\"kty\":\"oct\",\"k\":\"AAECAwQFBgcICQoLDA0ODxAREhMUFRYXGBkaGxwdHh8\"},{\"kty\":\"oct\",\"k\":\"AyM1SysPpbyDfgZld3umj1qzKObwVMkoqQ-EstJQLr_T-1qS0gZH75aKtMN3Yj0iPS4hcgUuTwjAzZr1Z9CAow\"}]}";

/// `abc`, signed by HS256 with `KEY`.
const ABC: &[u8] = b"eyJhbGciOiJIUzI1NiJ9.YWJj.sxvqVTS8XjHJPVB24OsGa2pZqgR8ZX_Ab4pTTtgI47Y";

const ABC_DETACHED: &[u8] = b"eyJhbGciOiJIUzI1NiJ9..sxvqVTS8XjHJPVB24OsGa2pZqgR8ZX_Ab4pTTtgI47Y";

const ABC_FLATTENED: &[u8] =
    b"{\"payload\":\"YWJj\",\"protected\":\"eyJhbGciOiJIUzI1NiJ9\",\"signature\":\"sxvqVTS8XjHJPVB24OsGa2pZqgR8ZX_Ab4pTTtgI47Y\"}";

/// `abc`, signed by both keys.
const ABC_BY_TWO: &[u8] =
    b"{\"payload\":\"YWJj\",\"signatures\":[{\"protected\":\"eyJhbGciOiJIUzUxMiJ9\",\"signature\":\"ScK1f_2owqwH0tMhgpVtvopDQ1GhlP2zxdgv400w_wSEXHxwOM2XkeStAhVFb6moKzeC1Z0H00YC8-EWsv84Wg\"},{\"protected\":\"eyJhbGciOiJIUzI1NiJ9\",\"signature\":\"8-sUlaJJTTOyeAYgv-kHNN9tT55A-tUCHOYatGHTJa0\"}]}";

const RFC7516_KEY: &[u8] = b"{\"kty\":\"oct\",\"k\":\"GawgguFyGrWKav7AX4VKUg\"}";

/// Its content encryption key and initialization vector.
const RFC7516_RANDOM: &[u8] =
    b"\x04\xd3\x1f\xc5\x54\x9d\xfc\xfe\x0b\x64\x9d\xfa\x3f\xaa\x6a\xce\x6b\x7c\xd4\x2d\x6f\x6b\x09\xdb\xc8\xb1\x00\xf0\x8f\x9c\x2c\xcf\x03\x16\x3c\x0c\x2b\x43\x68\x69\x6c\x6c\x69\x63\x6f\x74\x68\x65";

const RFC7516_A3: &[u8] =
    b"eyJhbGciOiJBMTI4S1ciLCJlbmMiOiJBMTI4Q0JDLUhTMjU2In0.6KB707dM9YTIgHtLvtgWQ8mKwboJW3of9locizkDTHzBC2IlrT1oOQ.AxY8DCtDaGlsbGljb3RoZQ.KDlTtXchhZTGufMYmOYGS4HffxPSUrfmqCHXaI9wOGY.U0m_YmjN04DJvceFICbCVQ";

const RFC7516_A3_FLATTENED: &[u8] =
    b"{\"ciphertext\":\"KDlTtXchhZTGufMYmOYGS4HffxPSUrfmqCHXaI9wOGY\",\"encrypted_key\":\"6KB707dM9YTIgHtLvtgWQ8mKwboJW3of9locizkDTHzBC2IlrT1oOQ\",\"iv\":\"AxY8DCtDaGlsbGljb3RoZQ\",\"protected\":\"eyJhbGciOiJBMTI4S1ciLCJlbmMiOiJBMTI4Q0JDLUhTMjU2In0\",\"tag\":\"U0m_YmjN04DJvceFICbCVQ\"}";

/// A place for an answer, and the length that a call gives.
#[derive(Drop)]
struct Place {
    octets: [u8; 600],
    count: usize,
}

impl Place {
    fn new() -> Place {
        Place {
            octets: [7; 600],
            count: 1000,
        }
    }

    /// The call gave this status and these octets, and left the rest of the place as it was.
    fn expect(&self, rt: &impl Abort, status: u32, wanted: u32, octets: &[u8]) {
        assert_eq!(rt; status, wanted);
        assert_eq!(rt; self.count, octets.len());
        assert!(rt; octets.len() <= 600);
        assert_eq!(rt; self.octets[..octets.len()], *octets);
        for octet in &self.octets[octets.len()..] {
            assert_eq!(rt; *octet, 7);
        }
    }
}

#[test]
fn keys_are_made_named_and_judged(rt: HostRuntime) {
    let mut made = Place::new();
    let template = b"{\"alg\":\"A128KW\"}";
    let random = b"\x00\x01\x02\x03\x04\x05\x06\x07\x08\x09\x0a\x0b\x0c\x0d\x0e\x0f";
    let status = lakhdzeva_core_generate(
        rt.alloc(),
        template,
        random,
        &mut made.octets,
        &mut made.count,
    );
    made.expect(
        &rt,
        status,
        0,
        b"{\"alg\":\"A128KW\",\"k\":\"AAECAwQFBgcICQoLDA0ODw\",\"key_ops\":[\"wrapKey\",\"unwrapKey\"],\"kty\":\"oct\"}",
    );
    let mut lines = Place::new();
    let key = b"{\"kty\":\"oct\",\"k\":\"AAAA\"}";
    let status = lakhdzeva_core_thumbprints(
        rt.alloc(),
        key,
        256,
        &mut lines.octets,
        &mut lines.count,
    );
    lines.expect(
        &rt,
        status,
        0,
        b"juGfhwtvxgs-pCUrY2O4me_EUqZncxWSUm6eCOkHG9A",
    );
    let mut none = Place::new();
    let status = lakhdzeva_core_thumbprints(
        rt.alloc(),
        key,
        255,
        &mut none.octets,
        &mut none.count,
    );
    none.expect(&rt, status, 1, b"");
    // A key of 64 octets for all, a key of another type, and one of 3 octets that may only sign, for which it is too short.
    let keys =
        b"{\"keys\":[{\"kty\":\"oct\",\"k\":\"AyM1SysPpbyDfgZld3umj1qzKObwVMkoqQ-EstJQLr_T-1qS0gZH75aKtMN3Yj0iPS4hcgUuTwjAzZr1Z9CAow\"},{\"kty\":\"EC\"},{\"kty\":\"oct\",\"k\":\"AAAA\",\"use\":\"sig\"}]}";
    let mut uses = Place::new();
    let status = lakhdzeva_core_judge_keys(rt.alloc(), keys, &mut uses.octets, &mut uses.count);
    uses.expect(&rt, status, 0, &[31, 0, 16]);
}

#[test]
fn a_payload_is_signed_and_verified(rt: HostRuntime) {
    let mut object = Place::new();
    let template = b"{\"protected\":{\"alg\":\"HS256\"}}";
    let status = lakhdzeva_core_sign(
        rt.alloc(),
        KEY,
        template,
        true,
        false,
        b"abc",
        &mut object.octets,
        &mut object.count,
    );
    object.expect(&rt, status, 0, ABC);
    let mut payload = Place::new();
    let status = lakhdzeva_core_verify(
        rt.alloc(),
        TWO_KEYS,
        ABC,
        false,
        &mut payload.octets,
        &mut payload.count,
    );
    payload.expect(&rt, status, 0, b"abc");
    let mut payload = Place::new();
    let status = lakhdzeva_core_verify(
        rt.alloc(),
        TWO_KEYS,
        ABC,
        true,
        &mut payload.octets,
        &mut payload.count,
    );
    payload.expect(&rt, status, 17, b"");
    let mut payload = Place::new();
    let mut signer = 5;
    let status = lakhdzeva_core_verify_signer(
        rt.alloc(),
        TWO_KEYS,
        ABC,
        &mut payload.octets,
        &mut payload.count,
        &mut signer,
    );
    payload.expect(&rt, status, 0, b"abc");
    assert_eq!(rt; signer, 1);
    let status = lakhdzeva_core_verify_detached(rt.alloc(), KEY, ABC_DETACHED, false, b"abc");
    assert_eq!(rt; status, 0);
    let status = lakhdzeva_core_verify_detached(rt.alloc(), KEY, ABC_DETACHED, false, b"abd");
    assert_eq!(rt; status, 17);
}

/// By this many signers, each of whose keys is in the text.
fn expect_signed(
    rt: &impl Abort,
    alloc: Global,
    keys: &[u8],
    signers: usize,
    object: &[u8],
    wanted: u32,
) {
    let mut payload = Place::new();
    let status = lakhdzeva_core_verify_all(
        alloc,
        keys,
        signers,
        object,
        &mut payload.octets,
        &mut payload.count,
    );
    payload.expect(rt, status, wanted, if wanted == 0 { b"abc" } else { b"" });
}

#[test]
fn signers_are_counted(rt: HostRuntime) {
    expect_signed(&rt, rt.alloc(), KEY, 1, ABC, 0);
    expect_signed(&rt, rt.alloc(), TWO_KEYS, 2, ABC_BY_TWO, 0);
    expect_signed(&rt, rt.alloc(), TWO_KEYS, 2, ABC, 17);
    expect_signed(&rt, rt.alloc(), TWO_KEYS, 1, ABC, 9);
    let status = lakhdzeva_core_verify_all_detached(rt.alloc(), KEY, 1, ABC_DETACHED, b"abc");
    assert_eq!(rt; status, 0);
    let status = lakhdzeva_core_verify_all_detached(rt.alloc(), TWO_KEYS, 2, ABC_DETACHED, b"abc");
    assert_eq!(rt; status, 17);
}

#[test]
fn a_signed_object_changes_its_form(rt: HostRuntime) {
    let mut text = Place::new();
    let mut content = Place::new();
    let status = lakhdzeva_core_format_signed(
        rt.alloc(),
        ABC,
        false,
        b"",
        false,
        false,
        &mut text.octets,
        &mut text.count,
        &mut content.octets,
        &mut content.count,
    );
    text.expect(&rt, status, 0, ABC_FLATTENED);
    content.expect(&rt, status, 0, b"");
    let mut text = Place::new();
    let mut content = Place::new();
    let status = lakhdzeva_core_format_signed(
        rt.alloc(),
        ABC_FLATTENED,
        false,
        b"",
        true,
        true,
        &mut text.octets,
        &mut text.count,
        &mut content.octets,
        &mut content.count,
    );
    text.expect(&rt, status, 0, ABC_DETACHED);
    content.expect(&rt, status, 0, b"abc");
}

#[test]
fn rfc7516_appendix_a3(rt: HostRuntime) {
    let mut object = Place::new();
    let mut ciphertext = Place::new();
    let template = b"{\"protected\":{\"alg\":\"A128KW\",\"enc\":\"A128CBC-HS256\"}}";
    let status = lakhdzeva_core_encrypt(
        rt.alloc(),
        RFC7516_KEY,
        template,
        true,
        false,
        RFC7516_RANDOM,
        b"Live long and prosper.",
        &mut object.octets,
        &mut object.count,
        &mut ciphertext.octets,
        &mut ciphertext.count,
    );
    object.expect(&rt, status, 0, RFC7516_A3);
    ciphertext.expect(&rt, status, 0, b"");
    let mut text = Place::new();
    let mut content = Place::new();
    let status = lakhdzeva_core_format_encrypted(
        rt.alloc(),
        RFC7516_A3,
        false,
        b"",
        false,
        false,
        &mut text.octets,
        &mut text.count,
        &mut content.octets,
        &mut content.count,
    );
    text.expect(&rt, status, 0, RFC7516_A3_FLATTENED);
    content.expect(&rt, status, 0, b"");
    let mut plaintext = Place::new();
    let status = lakhdzeva_core_decrypt(
        rt.alloc(),
        RFC7516_KEY,
        RFC7516_A3,
        false,
        b"",
        0,
        &mut plaintext.octets,
        &mut plaintext.count,
    );
    plaintext.expect(&rt, status, 0, b"Live long and prosper.");
}

/// A place that is too small stays as it was, and the call says how many octets it needs.
#[test]
fn a_small_place_is_refused(rt: HostRuntime) {
    let mut payload = [7; 2];
    let mut count = 1000;
    let status = lakhdzeva_core_verify(rt.alloc(), KEY, ABC, false, &mut payload, &mut count);
    assert_eq!(rt; status, 3);
    assert_eq!(rt; count, 3);
    assert_eq!(rt; payload, [7; 2]);
}
