//! RFC 7516, JSON Web Encryption: appendices A.3 and A.5, read by `Jwe::read`.
use crate::expected::{expect_octets_at, expect_same};
use crate::objects_tests::jwe::expect_management;
use objects::{Jwe, Recipient};
use std::process::Abort;

/// The object of appendix A.3 (A.3.7).
pub(crate) const RFC7516_A3: &str =
    "eyJhbGciOiJBMTI4S1ciLCJlbmMiOiJBMTI4Q0JDLUhTMjU2In0.6KB707dM9YTIgHtLvtgWQ8mKwboJW3of9locizkDTHzBC2IlrT1oOQ.AxY8DCtDaGlsbGljb3RoZQ.KDlTtXchhZTGufMYmOYGS4HffxPSUrfmqCHXaI9wOGY.U0m_YmjN04DJvceFICbCVQ";

/// The same in flattened JSON form.
pub(crate) const RFC7516_A3_FLATTENED: &str =
    "{\"ciphertext\":\"KDlTtXchhZTGufMYmOYGS4HffxPSUrfmqCHXaI9wOGY\",\"encrypted_key\":\"6KB707dM9YTIgHtLvtgWQ8mKwboJW3of9locizkDTHzBC2IlrT1oOQ\",\"iv\":\"AxY8DCtDaGlsbGljb3RoZQ\",\"protected\":\"eyJhbGciOiJBMTI4S1ciLCJlbmMiOiJBMTI4Q0JDLUhTMjU2In0\",\"tag\":\"U0m_YmjN04DJvceFICbCVQ\"}";

/// The object of appendix A.5, whose headers are not all protected, with its members in another order and with an unknown one.
pub(crate) const RFC7516_A5_REORDERED: &str =
    "{\"protected\":\"eyJlbmMiOiJBMTI4Q0JDLUhTMjU2In0\",\"unprotected\":{\"jku\":\"https://server.example.com/keys.jwks\"},\"header\":{\"alg\":\"A128KW\",\"kid\":\"7\"},\"x\":1,\"encrypted_key\":\"6KB707dM9YTIgHtLvtgWQ8mKwboJW3of9locizkDTHzBC2IlrT1oOQ\",\"iv\":\"AxY8DCtDaGlsbGljb3RoZQ\",\"ciphertext\":\"KDlTtXchhZTGufMYmOYGS4HffxPSUrfmqCHXaI9wOGY\",\"tag\":\"Mz-VPPyU4RlcuYv1IwIvzw\"}";

fn expect_recipient(rt: &impl Abort, recipient: &Recipient) {
    expect_octets_at(rt, recipient.alg().as_bytes(), b"A128KW", "alg");
    expect_octets_at(rt, recipient.enc().as_bytes(), b"A128CBC-HS256", "enc");
    expect_same(rt, recipient.encrypted_key().len(), 40, "encrypted_key");
    expect_management(rt, recipient, "key wrap", b"", 0);
}

fn expect_parts(rt: &impl Abort, jwe: &Jwe, tag: &[u8]) {
    expect_octets_at(
        rt,
        jwe.iv(),
        b"\x03\x16\x3c\x0c\x2b\x43\x68\x69\x6c\x6c\x69\x63\x6f\x74\x68\x65",
        "the initialization vector",
    );
    expect_octets_at(rt, jwe.tag(), tag, "the authentication tag");
    expect_same(rt, jwe.ciphertext().len(), 32, "ciphertext");
    match jwe.recipients() {
        [recipient] => expect_recipient(rt, recipient),
        _ => assert!(rt; false),
    }
}

#[test]
fn rfc7516_appendix_a3_is_read(rt: HostRuntime) {
    let jwe = Jwe::read(rt.alloc(), RFC7516_A3.as_bytes(), None).expect(&rt, "an object");
    expect_parts(
        &rt,
        &jwe,
        b"\x53\x49\xbf\x62\x68\xcd\xd3\x80\xc9\xbd\xc7\x85\x20\x26\xc2\x55",
    );
}

#[test]
fn rfc7516_appendix_a5_is_read(rt: HostRuntime) {
    let jwe = Jwe::read(rt.alloc(), RFC7516_A5_REORDERED.as_bytes(), None).expect(&rt, "an object");
    expect_parts(
        &rt,
        &jwe,
        b"\x33\x3f\x95\x3c\xfc\x94\xe1\x19\x5c\xb9\x8b\xf5\x23\x02\x2f\xcf",
    );
}
