//! What `jose-look` shows of texts. The wanted lines were written by hand from docs/SPECIFICATION.md, and the thumbprints were made by Python.
use crate::files::Files;
use std::alloc::{AllocError, Global};
use std::process::Abort;
use tools::{look as run, parse_look};

const LAST: &str = "Nothing of this is verified.\n";

/// A text, and the lines of a file `f` with it, without its name.
const ROWS: [(&str, &str); 27] = [
    (
        "{\"kty\":\"oct\",\"k\":\"AAAA\"}",
        "a key\nkey: good juGfhwtvxgs-pCUrY2O4me_EUqZncxWSUm6eCOkHG9A 3 bytes, encrypt decrypt, PBES2-HS256+A128KW PBES2-HS384+A192KW PBES2-HS512+A256KW {\"k\":\"..\",\"kty\":\"oct\"}\n",
    ),
    (
        "{\"keys\":[{\"kty\":\"oct\",\"k\":\"YWFhYWFhYWFhYWFhYWFhYWFhYWFhYWFhYWFhYWFhYWE\",\"key_ops\":[\"verify\"]},{\"kty\":\"oct\",\"k\":\"A+\",\"d\":{\"a\":1}}]}",
        "a set of keys\nkey: good KlawgYZUGK-Fcifbr5MJOR_BEmAyvVzQDiuFKRq51oM 32 bytes, verify, HS256 {\"k\":\"..\",\"key_ops\":[\"verify\"],\"kty\":\"oct\"}\nkey: bad, k is not base64url: it has characters of standard base64, and not of base64url {\"d\":\"..\",\"k\":\"..\",\"kty\":\"oct\"}\n",
    ),
    (
        "{\"keys\":[{\"kty\":\"EC\"},{}]}",
        "a set of keys, which jose refuses: 9 Key\nkey: bad, kty is not oct {\"kty\":\"EC\"}\nkey: bad, there is no kty {}\n",
    ),
    (
        "{\"keys\":{}}",
        "a set of keys, which jose refuses: 9 Key\n",
    ),
    (
        "{\"kty\":\"oct\",\"k\":\"AA\",\"alg\":\"HS256\"}",
        "a key\nkey: good xoNKolCCOwo3X8anKSSJQKMilUpNMW2KQv6Md8OcdL0 1 bytes, for no algorithm: alg asks for a k of another length {\"alg\":\"HS256\",\"k\":\"..\",\"kty\":\"oct\"}\n",
    ),
    (
        "eyJhbGciOiJIUzI1NiIsImp3ayI6eyJrIjoiQUEifX0.AA.AA\n",
        "a signed object\nprotected: {\"alg\":\"HS256\",\"jwk\":{\"k\":\"..\"}}\nsignatures: 1\n",
    ),
    (
        "bearer eyJhbGciOiJkaXIi.AA.AA",
        "a signed object, which jose refuses: 6 Base64: it begins with Bearer\nprotected: jose: 6 Base64\nsignatures: 1\nwhere: protected\n",
    ),
    (
        "eyJhbGciOiJkaXIi.AA.AA.AA.AA",
        "an encrypted object, which jose refuses: 7 Json\nprotected: jose: 7 Json\nrecipients: 1\nwhere: protected\n",
    ),
    (
        " {\"payload\":\"AA\",\"signatures\":[{\"protected\":\"e30\",\"header\":{\"alg\":\"HS256\",\"k\":[]}},{\"signature\":\"\"}]}",
        "a signed object, which jose refuses: 10 Form\nobject: {\"payload\":\"..\",\"signatures\":[{\"header\":{\"alg\":\"HS256\",\"k\":\"..\"},\"protected\":\"..\"},{\"signature\":\"\"}]}\nprotected: {}\nsignatures: 2\nwhere: signature of signature 1\n",
    ),
    (
        "{\"tag\":\"\",\"recipients\":[1,2,3],\"protected\":\"\"}",
        "an encrypted object, and its ciphertext is another file, which jose refuses: 10 Form\nobject: {\"protected\":\"..\",\"recipients\":[1,2,3],\"tag\":\"\"}\nrecipients: 3\nwhere: recipients\n",
    ),
    (
        "{\"ciphertext\":\"\",\"recipients\":[{\"header\":{\"alg\":\"dir\",\"enc\":\"a\"}},{\"header\":{\"alg\":\"dir\",\"enc\":\"b\"}}]}",
        "an encrypted object, which jose refuses: 11 Header\nobject: {\"ciphertext\":\"..\",\"recipients\":[{\"header\":{\"alg\":\"dir\",\"enc\":\"a\"}},{\"header\":{\"alg\":\"dir\",\"enc\":\"b\"}}]}\nrecipients: 2\n",
    ),
    (
        "{\"\\u00e4\":[-1,true,null,\"\\u007f\\n\"]}",
        "a JSON object, but no key and no object of jose\nobject: {\"\\xc3\\xa4\":[-1,true,null,\"\\x7f\\n\"]}\n",
    ),
    (
        "{\"k\":1.5}",
        "a text in braces, which jose refuses: 8 Number\n",
    ),
    (
        "-----BEGIN",
        "no key and no object: it looks like a PEM file\n",
    ),
    (
        "{\"kty\":\"oct\",\"k\":\"AA\",\"alg\":\"RS256\",\"use\":\"other\"}",
        "a key\nkey: good xoNKolCCOwo3X8anKSSJQKMilUpNMW2KQv6Md8OcdL0 1 bytes, for no algorithm: alg is not known {\"alg\":\"RS256\",\"k\":\"..\",\"kty\":\"oct\",\"use\":\"other\"}\n",
    ),
    (
        "{\"kty\":\"oct\",\"k\":\"AA\",\"alg\":\"A128GCM\"}",
        "a key\nkey: good xoNKolCCOwo3X8anKSSJQKMilUpNMW2KQv6Md8OcdL0 1 bytes, for no algorithm: alg asks for a k of another length {\"alg\":\"A128GCM\",\"k\":\"..\",\"kty\":\"oct\"}\n",
    ),
    (
        "{\"kty\":\"oct\",\"k\":\"AA\",\"key_ops\":[\"wrap\"]}",
        "a key\nkey: good xoNKolCCOwo3X8anKSSJQKMilUpNMW2KQv6Md8OcdL0 1 bytes, for no algorithm: use or key_ops allows none {\"k\":\"..\",\"key_ops\":[\"wrap\"],\"kty\":\"oct\"}\n",
    ),
    (
        "\u{feff}{\"kty\":\"oct\",\"k\":\"AA\"}",
        "no key and no object: it begins with a byte order mark\n",
    ),
    (
        "\"a b\"",
        "no key and no object: it begins with a quotation mark\n",
    ),
    (
        "\"e30.AA.AA\"",
        "a signed object, which jose refuses: 6 Base64: it begins with a quotation mark\nprotected: jose: 6 Base64\nsignatures: 1\nwhere: protected\n",
    ),
    (
        "<a href=\"/\">",
        "no key and no object: it looks like HTML or XML\n",
    ),
    (
        "a b",
        "no key and no object: it has a space or a line end in it\n",
    ),
    (
        "'a b'",
        "no key and no object: it begins with a quotation mark\n",
    ),
    ("", "no key and no object: it is empty\n"),
    (
        "e30.AA",
        "no key and no object: an object in compact form has two or four dots\n",
    ),
    (
        "e30.AA.AA.AA\n",
        "no key and no object: an object in compact form has two or four dots\n",
    ),
    ("e30", "no key and no object\n"),
];

/// A refused text, its first line without its name, and the place that the last line names. Each kind of place is here once.
const PLACES: [(&str, &str, &str); 39] = [
    (
        "{\"payload\":\"A\",\"header\":{\"alg\":\"a\"},\"signature\":\"\"}",
        "a signed object, which jose refuses: 6 Base64",
        "payload",
    ),
    (
        "{\"payload\":\"\",\"signatures\":[]}",
        "a signed object, which jose refuses: 10 Form",
        "signatures",
    ),
    (
        "{\"payload\":\"\",\"signatures\":[{\"header\":{\"alg\":\"a\"},\"signature\":\"\"}],\"protected\":\"e30\"}",
        "a signed object, which jose refuses: 10 Form",
        "a member of a signature next to signatures",
    ),
    (
        "{\"payload\":\"\",\"signatures\":[{\"header\":{\"alg\":\"a\"},\"signature\":\"\"},{\"header\":{\"alg\":\"a\"},\"signature\":\"\",\"protected\":\"bnVsbA\"}]}",
        "a signed object, which jose refuses: 11 Header",
        "protected of signature 2",
    ),
    (
        "{\"payload\":\"\",\"signature\":\"\",\"header\":1}",
        "a signed object, which jose refuses: 10 Form",
        "header",
    ),
    (
        "{\"payload\":\"\",\"signatures\":[{\"header\":{\"alg\":\"a\"},\"signature\":\"\"},{\"header\":{\"alg\":\"a\"},\"signature\":\"=\"}]}",
        "a signed object, which jose refuses: 6 Base64",
        "signature of signature 2",
    ),
    (
        "{\"payload\":\"\",\"protected\":\"eyJhbGciOiJIUzI1NiJ9\",\"header\":{\"alg\":\"a\"},\"signature\":\"\"}",
        "a signed object, which jose refuses: 11 Header",
        "a name in two headers",
    ),
    (
        "{\"payload\":\"\",\"signatures\":[{\"signature\":\"\"}]}",
        "a signed object, which jose refuses: 11 Header",
        "the header parameter alg of signature 1",
    ),
    (
        "{\"payload\":\"\",\"signature\":\"\",\"header\":{\"alg\":\"a\",\"crit\":1}}",
        "a signed object, which jose refuses: 12 Unsupported",
        "the header parameter crit",
    ),
    (
        "{\"payload\":\"\",\"signature\":\"\",\"protected\":\"eyJhbGciOiJQQkVTMi1IUzI1NitBMTI4S1cifQ\"}",
        "a signed object, which jose refuses: 11 Header",
        "the header parameter p2s",
    ),
    (
        "{\"ciphertext\":\"\",\"protected\":\"eyJhbGciOjEuNX0\"}",
        "an encrypted object, which jose refuses: 8 Number",
        "protected",
    ),
    (
        "{\"ciphertext\":\"\",\"unprotected\":[]}",
        "an encrypted object, which jose refuses: 10 Form",
        "unprotected",
    ),
    (
        "{\"ciphertext\":\"\",\"unprotected\":{\"alg\":\"dir\",\"enc\":\"a\"},\"aad\":1}",
        "an encrypted object, which jose refuses: 10 Form",
        "aad",
    ),
    (
        "{\"ciphertext\":\"\",\"unprotected\":{\"alg\":\"dir\",\"enc\":\"a\"},\"iv\":\"A\"}",
        "an encrypted object, which jose refuses: 6 Base64",
        "iv",
    ),
    (
        "{\"ciphertext\":\"\",\"unprotected\":{\"alg\":\"dir\",\"enc\":\"a\"},\"tag\":\"=\"}",
        "an encrypted object, which jose refuses: 6 Base64",
        "tag",
    ),
    (
        "{\"ciphertext\":1,\"unprotected\":{\"alg\":\"dir\",\"enc\":\"a\"}}",
        "an encrypted object, which jose refuses: 10 Form",
        "ciphertext",
    ),
    (
        "{\"ciphertext\":\"\",\"protected\":\"eyJhbGciOiJIUzI1NiJ9\",\"unprotected\":{\"alg\":\"dir\",\"enc\":\"a\"}}",
        "an encrypted object, which jose refuses: 11 Header",
        "a name in two headers",
    ),
    (
        "{\"ciphertext\":\"\",\"unprotected\":{\"alg\":\"dir\",\"enc\":\"a\"},\"recipients\":[1]}",
        "an encrypted object, which jose refuses: 10 Form",
        "recipients",
    ),
    (
        "{\"ciphertext\":\"\",\"recipients\":[{}],\"header\":{\"alg\":\"dir\",\"enc\":\"a\"}}",
        "an encrypted object, which jose refuses: 10 Form",
        "a member of a recipient next to recipients",
    ),
    (
        "{\"ciphertext\":\"\",\"unprotected\":{\"alg\":\"dir\",\"enc\":\"a\"},\"recipients\":[{},{\"encrypted_key\":\"A\"}]}",
        "an encrypted object, which jose refuses: 6 Base64",
        "encrypted_key of recipient 2",
    ),
    (
        "{\"ciphertext\":\"\",\"unprotected\":{\"alg\":\"dir\",\"enc\":\"a\"},\"recipients\":[{\"header\":1}]}",
        "an encrypted object, which jose refuses: 10 Form",
        "header of recipient 1",
    ),
    (
        "{\"ciphertext\":\"\",\"unprotected\":{\"alg\":\"dir\",\"enc\":\"a\"},\"recipients\":[{},{\"header\":{\"enc\":\"a\"}}]}",
        "an encrypted object, which jose refuses: 11 Header",
        "a name in two headers of recipient 2",
    ),
    (
        "{\"ciphertext\":\"\",\"protected\":\"eyJhbGciOiJIUzI1NiJ9\",\"recipients\":[{\"header\":{\"alg\":\"a\"}}]}",
        "an encrypted object, which jose refuses: 11 Header",
        "a name in two headers of recipient 1",
    ),
    (
        "{\"ciphertext\":\"\",\"unprotected\":{\"alg\":\"dir\"}}",
        "an encrypted object, which jose refuses: 11 Header",
        "the header parameter enc",
    ),
    (
        "{\"ciphertext\":\"\",\"unprotected\":{\"enc\":\"a\",\"p2s\":\"AAAA\",\"p2c\":1},\"recipients\":[{\"header\":{\"alg\":\"a\"}},{\"header\":{\"alg\":\"PBES2-HS256+A128KW\"}}]}",
        "an encrypted object, which jose refuses: 11 Header",
        "the header parameter p2s of recipient 2",
    ),
    (
        "{\"ciphertext\":\"\",\"header\":{\"alg\":\"PBES2-HS256+A128KW\",\"enc\":\"a\",\"p2s\":\"AAAAAAAAAAA\",\"p2c\":0}}",
        "an encrypted object, which jose refuses: 11 Header",
        "the header parameter p2c",
    ),
    (
        "{\"ciphertext\":\"\",\"protected\":\"eyJhbGciOiJBMTI4R0NNS1ciLCJlbmMiOiJhIiwidGFnIjoiIn0\",\"recipients\":[{\"header\":{\"iv\":\"\"}},{\"header\":{\"iv\":\"A\"}}]}",
        "an encrypted object, which jose refuses: 11 Header",
        "the header parameter iv of recipient 2",
    ),
    (
        "{\"ciphertext\":\"\",\"header\":{\"alg\":\"A128GCMKW\",\"enc\":\"a\",\"iv\":\"\"}}",
        "an encrypted object, which jose refuses: 11 Header",
        "the header parameter tag",
    ),
    (
        "{\"ciphertext\":\"\",\"header\":{\"alg\":\"dir\",\"enc\":\"a\",\"zip\":\"DEF\"}}",
        "an encrypted object, which jose refuses: 12 Unsupported",
        "the header parameter zip",
    ),
    (
        "{\"ciphertext\":\"\",\"protected\":\"eyJhbGciOiJkaXIiLCJjcml0IjpbXSwiZW5jIjoiYSJ9\",\"recipients\":[{}]}",
        "an encrypted object, which jose refuses: 12 Unsupported",
        "the header parameter crit of recipient 1",
    ),
    (
        "eyJhbGciOiJIUzI1NiJ9.A.",
        "a signed object, which jose refuses: 6 Base64",
        "payload",
    ),
    (
        "eyJhbGciOiJIUzI1NiJ9..A",
        "a signed object, which jose refuses: 6 Base64",
        "signature",
    ),
    (
        "..",
        "a signed object, which jose refuses: 11 Header",
        "the header parameter alg",
    ),
    (
        "eyJhbGciOiJkaXIiLCJlbmMiOiJhIn0.A...",
        "an encrypted object, which jose refuses: 6 Base64",
        "encrypted_key",
    ),
    (
        "eyJhbGciOiJkaXIiLCJlbmMiOiJhIn0..A..",
        "an encrypted object, which jose refuses: 6 Base64",
        "iv",
    ),
    (
        "eyJhbGciOiJkaXIiLCJlbmMiOiJhIn0...A.",
        "an encrypted object, which jose refuses: 6 Base64",
        "ciphertext",
    ),
    (
        "eyJhbGciOiJkaXIiLCJlbmMiOiJhIn0....A",
        "an encrypted object, which jose refuses: 6 Base64",
        "tag",
    ),
    (
        "eyJhbGciOiJIUzI1NiJ9....",
        "an encrypted object, which jose refuses: 11 Header",
        "the header parameter enc",
    ),
    (
        "eyJhbGciOiJkaXIiLCJlbmMiOiJhIiwiemlwIjoxfQ....\n",
        "an encrypted object, which jose refuses: 12 Unsupported",
        "the header parameter zip",
    ),
];

/// Shows the files of these names. Returns what is there then, and whether it succeeded.
fn look(alloc: Global, mut files: Files, names: &[&str]) -> Result<(Files, bool), AllocError> {
    let mut words = Vec::new(alloc);
    for name in names {
        words.push(String::from_str(alloc, name)?)?;
    }
    let done = match parse_look(&words) {
        Ok(request) => run(alloc, &mut files, request).is_ok(),
        Err(_) => false,
    };
    Ok((files, done))
}

#[test]
fn each_kind_of_text_is_shown(rt: HostRuntime) -> Result<(), AllocError> {
    for (text, lines) in ROWS {
        let mut files = Files::new(rt.alloc(), 9)?;
        let _ = files.keep("f", text.as_bytes());
        let (files, done) = look(rt.alloc(), files, &["f"])?;
        assert!(&rt; done, "{text}");
        let wanted = format!(in rt.alloc(); "f: {lines}{LAST}")?;
        assert!(&rt; files.text_of("-") == Some(wanted.as_bytes()), "{text}");
    }
    Ok(())
}

#[test]
fn each_place_is_named(rt: HostRuntime) -> Result<(), AllocError> {
    for (text, title, place) in PLACES {
        let mut files = Files::new(rt.alloc(), 9)?;
        let _ = files.keep("f", text.as_bytes());
        let (files, done) = look(rt.alloc(), files, &["f"])?;
        assert!(&rt; done, "{text}");
        let first = format!(in rt.alloc(); "f: {title}\n")?;
        let last = format!(in rt.alloc(); "\nwhere: {place}\n{LAST}")?;
        let written = files.text_of("-").unwrap_or(b"");
        assert!(&rt; written.starts_with(first.as_bytes()), "{text}");
        assert!(&rt; written.ends_with(last.as_bytes()), "{text}");
    }
    Ok(())
}

/// Two files make five calls. A file that cannot be read is passed over, and nothing is called after a write that failed.
#[test]
fn each_call_may_fail(rt: HostRuntime) -> Result<(), AllocError> {
    for fails_at in 0..6 {
        let files = Files::new(rt.alloc(), fails_at)?;
        let (files, done) = look(rt.alloc(), files, &["a", "set"])?;
        assert_eq!(&rt; done, fails_at == 5, "call {fails_at}");
        let calls = match fails_at {
            1 => 2,
            3 => 4,
            _ => 5,
        };
        assert_eq!(&rt; files.calls, calls, "call {fails_at}");
    }
    let (files, done) = look(rt.alloc(), Files::new(rt.alloc(), 9)?, &["b\u{9b}"])?;
    assert!(&rt; !done);
    let wanted = "b\\xc2\\x9b: it cannot be read\nNothing of this is verified.\n";
    assert!(&rt; files.text_of("-") == Some(wanted.as_bytes()));
    for names in [&[][..], &["-a"], &["-", "-"]] {
        let (files, done) = look(rt.alloc(), Files::new(rt.alloc(), 9)?, names)?;
        assert!(&rt; !done && files.calls == 0);
    }
    Ok(())
}

/// After the word `command` the words are those of `jose`. Their lines are written in one call.
#[test]
fn words_are_explained(rt: HostRuntime) -> Result<(), AllocError> {
    let files = Files::new(rt.alloc(), 9)?;
    let (files, done) = look(
        rt.alloc(),
        files,
        &["command", "jws", "ver", "-k", "set", "-i", "b"],
    )?;
    assert!(&rt; done && files.calls == 1);
    let wanted = "jose would read these words\n-i reads b, which is missing\n-k reads set\n";
    assert!(&rt; files.text_of("-") == Some(wanted.as_bytes()));
    let (files, done) = look(rt.alloc(), Files::new(rt.alloc(), 0)?, &["command", "jws"])?;
    assert!(&rt; !done && files.calls == 1);
    Ok(())
}
