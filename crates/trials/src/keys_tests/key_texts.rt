//! JSON texts, keys and sets of keys that are read or refused, by docs/SPECIFICATION.md, and thumbprints, by Python's `hashlib`.
use crate::expected::{expect_octets_at, expect_same};
use crate::keys_tests::{long_note, nested};
use keys::{Key, KeySet, nests_at_most, read_json, thumbprint};
use octets::Refusal;
use prf::HashAlg;
use serde_json::Value;
use std::alloc::{AllocError, Global};
use std::process::Abort;

fn expect_json<R: Abort + AllocGlobal>(rt: &R, text: &[u8], refusal: Option<Refusal>, at: &str) {
    expect_same(rt, read_json(rt.alloc(), text).err(), refusal, at);
}

const NUMBERS: &[(&str, Option<Refusal>)] = &[
    ("18446744073709551615", None),
    ("18446744073709551616", Some(Refusal::Number)),
    ("-9223372036854775808", None),
    ("-9223372036854775809", Some(Refusal::Number)),
    ("-0", Some(Refusal::Number)),
    ("1.0", Some(Refusal::Number)),
    ("1e2", Some(Refusal::Number)),
    ("1e400", Some(Refusal::Json)),
    ("{\"a\":[1,{\"b\":1.5}]}", Some(Refusal::Number)),
    ("{\"a\":1.5,\"a\":1}", None),
    ("{\"a\":1,\"a\":1.5}", Some(Refusal::Number)),
    ("{\"a\":1e400,\"a\":1}", Some(Refusal::Json)),
    ("01", Some(Refusal::Json)),
    ("", Some(Refusal::Json)),
    (" 1 ", None),
    ("\"\\ud800\"", Some(Refusal::Json)),
];

#[test]
fn numbers_are_whole_and_of_64_bits(rt: HostRuntime) {
    for &(text, refusal) in NUMBERS {
        expect_json(&rt, text.as_bytes(), refusal, text);
    }
}

#[test]
fn json_is_utf8(rt: HostRuntime) {
    expect_json(&rt, b"\"\xff\"", Some(Refusal::Json), "the octet ff");
    expect_json(
        &rt,
        b"\xef\xbb\xbf1",
        Some(Refusal::Json),
        "a byte order mark",
    );
    expect_json(&rt, b"\"\xc3\xa9\"", None, "an e with an acute accent");
}

fn expect_nested<R: Abort + AllocGlobal>(rt: &R, depth: usize, refusal: Option<Refusal>) {
    let text = nested(rt.alloc(), "", depth, "").expect(rt, "memory");
    expect_json(rt, text.as_bytes(), refusal, text.as_str());
}

#[test]
fn json_nests_at_most_127_deep(rt: HostRuntime) {
    expect_nested(&rt, 127, None);
    expect_nested(&rt, 128, Some(Refusal::Json));
}

const DEPTHS: &[(&str, usize)] = &[
    ("1", 0),
    ("\"[[]]\"", 0),
    ("{}", 1),
    ("[1,true,null]", 1),
    ("[[],{\"a\":[1]},2]", 3),
    ("{\"a\":1,\"b\":{\"c\":{}}}", 3),
];

fn expect_depth<R: Abort + AllocGlobal>(rt: &R, text: &str, depth: usize) {
    let value = read_json(rt.alloc(), text.as_bytes()).expect(rt, text);
    expect_same(rt, nests_at_most(&value, depth), true, text);
    let is_less_deep = depth > 0 && nests_at_most(&value, depth - 1);
    expect_same(rt, is_less_deep, false, text);
}

#[test]
fn an_object_without_objects_is_one_deep(rt: HostRuntime) {
    for &(text, depth) in DEPTHS {
        expect_depth(&rt, text, depth);
    }
}

const KEY_TEXTS: &[(&str, Option<Refusal>)] = &[
    ("{\"kty\":\"oct\",\"k\":\"AQ\"}", None),
    (
        "{\"kty\":\"oct\",\"k\":\"AQ\",\"alg\":\"x\",\"use\":\"y\",\"kid\":\"z\",\"key_ops\":[\"a\",\"b\"],\"other\":1}",
        None,
    ),
    ("{\"kty\":\"oct\",\"k\":\"AQ\",\"key_ops\":[]}", None),
    ("{\"kty\":\"oct\",\"k\":\"AQ\"", Some(Refusal::Json)),
    (
        "{\"kty\":\"oct\",\"k\":\"AQ\",\"x\":1.5}",
        Some(Refusal::Number),
    ),
    // The text is no object.
    ("[]", Some(Refusal::Key)),
    ("\"oct\"", Some(Refusal::Key)),
    // Another type of key, or none.
    ("{\"k\":\"AQ\"}", Some(Refusal::Key)),
    ("{\"kty\":\"RSA\",\"k\":\"AQ\"}", Some(Refusal::Key)),
    ("{\"kty\":\"OCT\",\"k\":\"AQ\"}", Some(Refusal::Key)),
    ("{\"kty\":1,\"k\":\"AQ\"}", Some(Refusal::Key)),
    // No octets, or no text of octets.
    ("{\"kty\":\"oct\"}", Some(Refusal::Key)),
    ("{\"kty\":\"oct\",\"k\":1}", Some(Refusal::Key)),
    ("{\"kty\":\"oct\",\"k\":\"\"}", Some(Refusal::Key)),
    ("{\"kty\":\"oct\",\"k\":\"AQ==\"}", Some(Refusal::Key)),
    ("{\"kty\":\"oct\",\"k\":\"AB\"}", Some(Refusal::Key)),
    // Members of the wrong type.
    (
        "{\"kty\":\"oct\",\"k\":\"AQ\",\"alg\":1}",
        Some(Refusal::Key),
    ),
    (
        "{\"kty\":\"oct\",\"k\":\"AQ\",\"use\":null}",
        Some(Refusal::Key),
    ),
    (
        "{\"kty\":\"oct\",\"k\":\"AQ\",\"kid\":[]}",
        Some(Refusal::Key),
    ),
    (
        "{\"kty\":\"oct\",\"k\":\"AQ\",\"key_ops\":\"sign\"}",
        Some(Refusal::Key),
    ),
    (
        "{\"kty\":\"oct\",\"k\":\"AQ\",\"key_ops\":[\"sign\",1]}",
        Some(Refusal::Key),
    ),
];

fn expect_key<R: Abort + AllocGlobal>(rt: &R, text: &str, refusal: Option<Refusal>) {
    let found = KeySet::read(rt.alloc(), text.as_bytes(), false).err();
    expect_same(rt, found, refusal, text);
}

#[test]
fn a_key_is_read_or_refused(rt: HostRuntime) {
    for &(text, refusal) in KEY_TEXTS {
        expect_key(&rt, text, refusal);
    }
}

const KEY_SETS: &[(&str, bool, Result<usize, Refusal>)] = &[
    ("{\"keys\":[]}", false, Err(Refusal::Key)),
    ("{\"keys\":{}}", false, Err(Refusal::Key)),
    ("{\"keys\":[1]}", false, Err(Refusal::Key)),
    ("{\"keys\":[{}]}", false, Err(Refusal::Key)),
    (
        "{\"keys\":[],\"kty\":\"oct\",\"k\":\"AQ\"}",
        false,
        Err(Refusal::Key),
    ),
    ("{\"keys\":[{\"kty\":\"oct\",\"k\":\"AQ\"}]}", true, Ok(1)),
    (
        "{\"keys\":[{\"kty\":\"EC\"},{\"kty\":\"oct\",\"k\":\"AQ\"},{}]}",
        false,
        Ok(1),
    ),
    (
        "{\"keys\":[{\"kty\":\"oct\",\"k\":\"AQ\"},{\"kty\":\"EC\"}]}",
        true,
        Err(Refusal::Key),
    ),
    // An item that is no object makes the whole set bad.
    (
        "{\"keys\":[{\"kty\":\"oct\",\"k\":\"AQ\"},[]]}",
        false,
        Err(Refusal::Key),
    ),
];

fn count_of_keys(alloc: Global, text: &str, strict: bool) -> Result<usize, Refusal> {
    let set = KeySet::read(alloc, text.as_bytes(), strict)?;
    Ok(set.keys().len())
}

#[test]
fn a_set_of_keys_is_read_or_refused(rt: HostRuntime) {
    for &(text, strict, answer) in KEY_SETS {
        expect_same(&rt, count_of_keys(rt.alloc(), text, strict), answer, text);
    }
}

/// A set of `others` objects that are no keys, and then one key.
fn long_set(alloc: Global, others: usize) -> Result<String, AllocError> {
    let objects = "{},".repeat(alloc, others)?;
    format!(in alloc; "{{\"keys\":[{objects}{{\"kty\":\"oct\",\"k\":\"AQ\"}}]}}")
}

fn expect_long_set<R: Abort + AllocGlobal>(rt: &R, others: usize, refusal: Option<Refusal>) {
    let text = long_set(rt.alloc(), others).expect(rt, "memory");
    expect_key(rt, text.as_str(), refusal);
}

#[test]
fn a_set_has_at_most_64_objects(rt: HostRuntime) {
    expect_long_set(&rt, 63, None);
    expect_long_set(&rt, 64, Some(Refusal::Limit));
}

/// A key whose `k` is 1,365 times `AAAA`, the text of three zero octets, and then `end`.
fn expect_long_key<R: Abort + AllocGlobal>(rt: &R, end: &str, refusal: Option<Refusal>) {
    let zeros = "AAAA".repeat(rt.alloc(), 1365).expect(rt, "memory");
    let start = "{\"kty\":\"oct\",\"k\":\"";
    let text = format!(in rt.alloc(); "{start}{zeros}{end}").expect(rt, "memory");
    let found = KeySet::read(rt.alloc(), text.as_bytes(), true).err();
    expect_same(rt, found, refusal, end);
}

#[test]
fn a_key_has_at_most_4096_octets(rt: HostRuntime) {
    expect_long_key(&rt, "AA\"}", None);
    expect_long_key(&rt, "AAA\"}", Some(Refusal::Key));
}

/// A set of an object that is no key and of a key. The note is in each of them and next to the list.
fn long_text(alloc: Global, note: &str) -> Result<String, AllocError> {
    format!(in alloc;
        "{{\"keys\":[{{\"note\":\"{note}\"}},{{\"kty\":\"oct\",\"k\":\"AQ\",\"note\":\"{note}\"}}],\"note\":\"{note}\"}}"
    )
}

fn expect_note<R: Abort + AllocGlobal>(rt: &R, text: &str, note: &str) {
    let value = read_json(rt.alloc(), text.as_bytes()).expect(rt, "a JSON text");
    let found = match value.get("note") {
        Some(Value::String(found)) => Some(found.as_str()),
        _ => None,
    };
    expect_same(rt, found, Some(note), "the note");
}

fn expect_one_key<R: Abort + AllocGlobal>(rt: &R, text: &str) {
    let set = KeySet::read(rt.alloc(), text.as_bytes(), false).expect(rt, "a set of keys");
    expect_same(rt, set.keys().len(), 1, "the count of keys");
    for key in set.keys() {
        expect_octets_at(rt, key.octets(), b"\x01", "the key");
    }
}

#[test]
fn a_text_may_be_long(rt: HostRuntime) {
    let note = long_note(rt.alloc()).expect(&rt, "memory");
    let text = long_text(rt.alloc(), note.as_str()).expect(&rt, "memory");
    expect_same(&rt, text.len() > 196608, true, "the length of the text");
    expect_note(&rt, text.as_str(), note.as_str());
    expect_one_key(&rt, text.as_str());
}

const THUMBPRINTS: &[(HashAlg, &str)] = &[
    (HashAlg::S224, "jezoqWsOithMshPTiyBe9MlumxPIs1cl5GnkAw"),
    (HashAlg::S256, "yWuy_m-e-utSri5M9exguV5vr5Y7Z5npmyOdjcd5j4g"),
    (
        HashAlg::S384,
        "kbKkXo7qjopQnFRo4i3qqhXTj1fwL8yrtjAwdZ6zb2MVtwahNdRb5YXHCUKbqMvR",
    ),
    (
        HashAlg::S512,
        "GB83fpTxMAN5mPR5LRzvknutylsjaSbA2vaQAn_BePgPJsNnovXvh5B1HwK_na5epHqKl3hZPkuSOBSFh9GBuA",
    ),
];

fn expect_thumbprint<R: Abort + AllocGlobal>(rt: &R, key: &Key, hash: HashAlg, print: &str) {
    let found = thumbprint(rt.alloc(), key, hash).expect(rt, "memory");
    expect_same(rt, found.as_str(), print, hash);
}

fn expect_thumbprints<R: Abort + AllocGlobal>(rt: &R, key: &Key) {
    for &(hash, print) in THUMBPRINTS {
        expect_thumbprint(rt, key, hash, print);
    }
}

#[test]
fn a_key_has_a_thumbprint_by_each_hash(rt: HostRuntime) {
    let text = b"{\"alg\":\"A128KW\",\"k\":\"AAECAwQFBgcICQoLDA0ODw\",\"kty\":\"oct\"}";
    let set = KeySet::read(rt.alloc(), text, true).expect(&rt, "a key");
    for key in set.keys() {
        expect_thumbprints(&rt, key);
    }
}
