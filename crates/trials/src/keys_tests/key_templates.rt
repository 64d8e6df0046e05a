//! Keys that are made from templates, and templates that are refused, by docs/SPECIFICATION.md and the lengths of RFC 7518.
use crate::expected::expect_same;
use crate::keys_tests::{long_note, nested};
use keys::generate;
use octets::{MemoryInput, Refusal};
use std::alloc::{AllocError, Global};
use std::process::Abort;

/// The key that is made from the random octets 0, 1, 2 and on to 255, and again from 0. This many of them are available.
fn made(alloc: Global, template: &str, available: usize) -> Result<String, Refusal> {
    let mut octets = [0u8; 4096];
    for i in 0..4096 {
        octets[i] = (i % 256) as u8;
    }
    generate(
        alloc,
        template.as_bytes(),
        &mut MemoryInput::new(&octets[..available.min(4096)], 7),
    )
}

fn expect_made<R: Abort + AllocGlobal>(rt: &R, template: &str, available: usize, key: &str) {
    let found = made(rt.alloc(), template, available).expect(rt, template);
    expect_same(rt, found.as_str(), key, template);
}

fn expect_refusal<R: Abort + AllocGlobal>(
    rt: &R,
    template: &str,
    available: usize,
    refusal: Option<Refusal>,
) {
    expect_same(
        rt,
        made(rt.alloc(), template, available).err(),
        refusal,
        template,
    );
}

const TEMPLATES: &[(&str, &str)] = &[
    (
        "{\"alg\":\"A128KW\"}",
        "{\"alg\":\"A128KW\",\"k\":\"AAECAwQFBgcICQoLDA0ODw\",\"key_ops\":[\"wrapKey\",\"unwrapKey\"],\"kty\":\"oct\"}",
    ),
    (
        "{\"bytes\":16}",
        "{\"k\":\"AAECAwQFBgcICQoLDA0ODw\",\"kty\":\"oct\"}",
    ),
    (
        "{\"alg\":\"A128KW\",\"use\":\"enc\"}",
        "{\"alg\":\"A128KW\",\"k\":\"AAECAwQFBgcICQoLDA0ODw\",\"kty\":\"oct\",\"use\":\"enc\"}",
    ),
    (
        "{\"kty\":\"oct\",\"bytes\":1,\"alg\":\"dir\",\"key_ops\":[],\"kid\":\"a\"}",
        "{\"alg\":\"dir\",\"k\":\"AA\",\"key_ops\":[],\"kid\":\"a\",\"kty\":\"oct\"}",
    ),
];

#[test]
fn a_key_is_made_of_its_template(rt: HostRuntime) {
    for &(template, key) in TEMPLATES {
        expect_made(&rt, template, 16, key);
    }
}

const REFUSED_TEMPLATES: &[(&str, Refusal)] = &[
    ("{\"bytes\":16", Refusal::Json),
    ("{\"bytes\":1.5}", Refusal::Number),
    ("[]", Refusal::Key),
    ("{\"k\":\"AA\"}", Refusal::Key),
    ("{\"keys\":[]}", Refusal::Key),
    ("{\"kty\":\"EC\"}", Refusal::Key),
    ("{\"use\":1}", Refusal::Key),
    ("{\"alg\":1}", Refusal::Key),
    ("{\"kid\":1,\"bytes\":16}", Refusal::Key),
    ("{\"key_ops\":\"x\",\"bytes\":16}", Refusal::Key),
    ("{\"key_ops\":[1],\"bytes\":16}", Refusal::Key),
    ("{\"bytes\":0}", Refusal::Key),
    ("{\"bytes\":\"16\"}", Refusal::Key),
    ("{\"bytes\":-1}", Refusal::Key),
    ("{\"bytes\":4097}", Refusal::Limit),
    ("{\"alg\":\"RS256\"}", Refusal::Unsupported),
    ("{}", Refusal::NoAlgorithm),
    ("{\"alg\":\"dir\"}", Refusal::NoAlgorithm),
    ("{\"alg\":\"HS256\",\"bytes\":16}", Refusal::KeyDoesNotFit),
    ("{\"bytes\":17}", Refusal::Random),
    // The first cause is reported, in this order: numbers, the template, the limit, the algorithm.
    ("{\"bytes\":1.0,\"k\":\"\"}", Refusal::Number),
    ("{\"k\":\"AA\",\"bytes\":5000,\"alg\":\"x\"}", Refusal::Key),
    ("{\"bytes\":4097,\"alg\":\"x\"}", Refusal::Limit),
];

#[test]
fn a_template_is_refused_with_its_first_cause(rt: HostRuntime) {
    for &(template, refusal) in REFUSED_TEMPLATES {
        expect_refusal(&rt, template, 16, Some(refusal));
    }
}

/// A key of one octet whose member `x` is a list that is `depth` deep has this refusal.
fn expect_nested<R: Abort + AllocGlobal>(rt: &R, depth: usize, refusal: Option<Refusal>) {
    let text = nested(rt.alloc(), "{\"bytes\":1,\"x\":", depth, "}").expect(rt, "memory");
    expect_refusal(rt, text.as_str(), 1, refusal);
}

#[test]
fn a_key_nests_at_most_64_deep(rt: HostRuntime) {
    expect_nested(&rt, 63, None);
    expect_nested(&rt, 64, Some(Refusal::Limit));
}

/// Templates whose member `x` is a list that is too deep. Other causes come before the depth, and the depth comes before the draw.
const DEEP_TEMPLATES: &[(&str, Refusal)] = &[
    ("{\"alg\":\"x\",\"x\":", Refusal::Unsupported),
    ("{\"alg\":\"dir\",\"x\":", Refusal::NoAlgorithm),
    (
        "{\"alg\":\"HS256\",\"bytes\":31,\"x\":",
        Refusal::KeyDoesNotFit,
    ),
    ("{\"alg\":\"HS256\",\"x\":", Refusal::Limit),
];

fn expect_deep<R: Abort + AllocGlobal>(rt: &R, start: &str, refusal: Refusal) {
    let text = nested(rt.alloc(), start, 70, "}").expect(rt, "memory");
    expect_refusal(rt, text.as_str(), 0, Some(refusal));
}

#[test]
fn the_depth_is_asked_last_and_before_the_draw(rt: HostRuntime) {
    for &(start, refusal) in DEEP_TEMPLATES {
        expect_deep(&rt, start, refusal);
    }
}

/// The base64url texts of the octets 0, 1, 2 and on: 16, 24, 32, 48 and 64 of them.
const K16: &str = "AAECAwQFBgcICQoLDA0ODw";

const K24: &str = "AAECAwQFBgcICQoLDA0ODxAREhMUFRYX";

const K32: &str = "AAECAwQFBgcICQoLDA0ODxAREhMUFRYXGBkaGxwdHh8";

const K48: &str = "AAECAwQFBgcICQoLDA0ODxAREhMUFRYXGBkaGxwdHh8gISIjJCUmJygpKissLS4v";

const K64: &str =
    "AAECAwQFBgcICQoLDA0ODxAREhMUFRYXGBkaGxwdHh8gISIjJCUmJygpKissLS4vMDEyMzQ1Njc4OTo7PD0-Pw";

/// The template with this `alg` alone.
fn template_of(alloc: Global, alg: &str) -> Result<String, AllocError> {
    format!(in alloc; "{{\"alg\":\"{alg}\"}}")
}

/// The template with this `alg` and this length.
fn template_with_length(alloc: Global, alg: &str, bytes: usize) -> Result<String, AllocError> {
    format!(in alloc; "{{\"alg\":\"{alg}\",\"bytes\":{bytes}}}")
}

/// The key that is made from a template with this `alg`.
fn key_of(alloc: Global, alg: &str, k: &str, key_ops: &str) -> Result<String, AllocError> {
    format!(in alloc; "{{\"alg\":\"{alg}\",\"k\":\"{k}\",\"key_ops\":[{key_ops}],\"kty\":\"oct\"}}")
}

/// The key with these members is made from the template.
fn expect_key<R: Abort + AllocGlobal>(rt: &R, template: &str, alg: &str, k: &str, key_ops: &str) {
    let key = key_of(rt.alloc(), alg, k, key_ops).expect(rt, "memory");
    expect_made(rt, template, 64, key.as_str());
}

/// Without a length, this key is made.
fn expect_implied<R: Abort + AllocGlobal>(rt: &R, alg: &str, k: &str, key_ops: &str) {
    let template = template_of(rt.alloc(), alg).expect(rt, "memory");
    expect_key(rt, template.as_str(), alg, k, key_ops);
}

/// Without a length, no key is made. With one, this key is made.
fn expect_said<R: Abort + AllocGlobal>(rt: &R, alg: &str, bytes: usize, k: &str, key_ops: &str) {
    let without = template_of(rt.alloc(), alg).expect(rt, "memory");
    expect_refusal(rt, without.as_str(), 64, Some(Refusal::NoAlgorithm));
    let template = template_with_length(rt.alloc(), alg, bytes).expect(rt, "memory");
    expect_key(rt, template.as_str(), alg, k, key_ops);
}

const IMPLIED: &[(&str, &str, &str)] = &[
    ("HS256", K32, "\"sign\",\"verify\""),
    ("HS384", K48, "\"sign\",\"verify\""),
    ("HS512", K64, "\"sign\",\"verify\""),
    ("A128KW", K16, "\"wrapKey\",\"unwrapKey\""),
    ("A192KW", K24, "\"wrapKey\",\"unwrapKey\""),
    ("A256KW", K32, "\"wrapKey\",\"unwrapKey\""),
    ("A128GCMKW", K16, "\"wrapKey\",\"unwrapKey\""),
    ("A192GCMKW", K24, "\"wrapKey\",\"unwrapKey\""),
    ("A256GCMKW", K32, "\"wrapKey\",\"unwrapKey\""),
    ("A128CBC-HS256", K32, "\"encrypt\",\"decrypt\""),
    ("A192CBC-HS384", K48, "\"encrypt\",\"decrypt\""),
    ("A256CBC-HS512", K64, "\"encrypt\",\"decrypt\""),
    ("A128GCM", K16, "\"encrypt\",\"decrypt\""),
    ("A192GCM", K24, "\"encrypt\",\"decrypt\""),
    ("A256GCM", K32, "\"encrypt\",\"decrypt\""),
];

/// The algorithms and the keys that are made if the template has no length.
#[test]
fn an_algorithm_implies_a_length(rt: HostRuntime) {
    for &(alg, k, key_ops) in IMPLIED {
        expect_implied(&rt, alg, k, key_ops);
    }
}

/// The algorithms that imply no length.
const LENGTHLESS: &[(&str, &str)] = &[
    ("dir", "\"encrypt\",\"decrypt\""),
    ("PBES2-HS256+A128KW", "\"wrapKey\",\"unwrapKey\""),
    ("PBES2-HS384+A192KW", "\"wrapKey\",\"unwrapKey\""),
    ("PBES2-HS512+A256KW", "\"wrapKey\",\"unwrapKey\""),
];

/// The keys that are made by algorithms that imply no length, if the template has one.
#[test]
fn a_template_says_a_length(rt: HostRuntime) {
    for &(alg, key_ops) in LENGTHLESS {
        expect_said(&rt, alg, 24, K24, key_ops);
    }
}

fn expect_length<R: Abort + AllocGlobal>(
    rt: &R,
    alg: &str,
    bytes: usize,
    available: usize,
    refusal: Option<Refusal>,
) {
    let template = template_with_length(rt.alloc(), alg, bytes).expect(rt, "memory");
    expect_refusal(rt, template.as_str(), available, refusal);
}

const OTHER: Option<Refusal> = Some(Refusal::KeyDoesNotFit);

/// One octet less than the length that fits, this length, one octet more, and the cause that refuses the latter.
const LENGTHS: &[(&str, usize, usize, usize, Option<Refusal>)] = &[
    ("HS256", 31, 32, 33, None),
    ("HS384", 47, 48, 49, None),
    ("HS512", 63, 64, 65, None),
    ("A128KW", 15, 16, 17, OTHER),
    ("A192KW", 23, 24, 25, OTHER),
    ("A256KW", 31, 32, 33, OTHER),
    ("A128GCMKW", 15, 16, 17, OTHER),
    ("A192GCMKW", 23, 24, 25, OTHER),
    ("A256GCMKW", 31, 32, 33, OTHER),
    ("A128CBC-HS256", 31, 32, 33, OTHER),
    ("A192CBC-HS384", 47, 48, 49, OTHER),
    ("A256CBC-HS512", 63, 64, 65, OTHER),
    ("A128GCM", 15, 16, 17, OTHER),
    ("A192GCM", 23, 24, 25, OTHER),
    ("A256GCM", 31, 32, 33, OTHER),
];

#[test]
fn a_length_fits_its_algorithm(rt: HostRuntime) {
    for &(alg, shorter, len, longer, of_longer) in LENGTHS {
        expect_length(&rt, alg, shorter, 65, OTHER);
        expect_length(&rt, alg, len, 65, None);
        expect_length(&rt, alg, longer, 65, of_longer);
    }
}

#[test]
fn any_length_fits_the_other_algorithms(rt: HostRuntime) {
    for &(alg, _) in LENGTHLESS {
        expect_length(&rt, alg, 1, 4096, None);
        expect_length(&rt, alg, 4096, 4096, None);
        expect_length(&rt, alg, 4097, 4096, Some(Refusal::Limit));
    }
}

fn long_template(alloc: Global, note: &str) -> Result<String, AllocError> {
    format!(in alloc; "{{\"alg\":\"A128KW\",\"kty\":\"oct\",\"note\":\"{note}\"}}")
}

fn long_key(alloc: Global, note: &str) -> Result<String, AllocError> {
    format!(in alloc;
        "{{\"alg\":\"A128KW\",\"k\":\"{K16}\",\"key_ops\":[\"wrapKey\",\"unwrapKey\"],\"kty\":\"oct\",\"note\":\"{note}\"}}"
    )
}

#[test]
fn a_template_may_be_long(rt: HostRuntime) {
    let note = long_note(rt.alloc()).expect(&rt, "memory");
    let template = long_template(rt.alloc(), note.as_str()).expect(&rt, "memory");
    let key = long_key(rt.alloc(), note.as_str()).expect(&rt, "memory");
    expect_same(
        &rt,
        template.len() > 65536,
        true,
        "the length of the template",
    );
    expect_made(&rt, template.as_str(), 16, key.as_str());
}
