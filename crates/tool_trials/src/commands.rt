//! What `jose-look command` says of words, and that it finds a cause wherever `jose` refuses.
use jose::parse;
use std::alloc::{AllocError, Global};
use std::process::Abort;
use std::test::Fail;
use tools::{FindFiles, Found, explain};

/// Files that are what their names say.
struct Named;

impl FindFiles for Named {
    ghost use Rattle.std.specs.Prelude.{⊤};

    ghost finds = { λ _ _ _. ⊤ };

    fn find(&self, path: &str) -> Found {
        match path {
            "missing" => Found::Missing,
            "closed" => Found::Closed,
            "folder" => Found::Folder,
            "pipe" => Found::Other,
            _ => Found::File,
        }
    }
}

/// Words with spaces between them, and what is written of them after the first line.
const REFUSED: &[(&str, &str)] = &[
    (
        "jws",
        "a command has two words: jwk gen or thp, jws sig, ver or fmt, jwe enc, dec or fmt, b64 enc or dec\n",
    ),
    (
        "jws look",
        "there is no command jws look, but jwk gen or thp, jws sig, ver or fmt, jwe enc, dec or fmt, b64 enc or dec\n",
    ),
    (
        "{\"k\":\"AA\"} ver",
        "there is no command {..} ver, but jwk gen or thp, jws sig, ver or fmt, jwe enc, dec or fmt, b64 enc or dec\n",
    ),
    ("jws ver --keys=k", "there are no long options: --keys=k\n"),
    (
        "jws ver --keys={\"k\":\"AA\"}",
        "there are no long options: --keys={..}\n",
    ),
    ("jws ver -z", "-z is no option of jws ver\n"),
    ("jws ver -h", "-h is no option of jws ver\n"),
    ("jws ver -\u{e9}", "-\\xc3 is no option of jws ver\n"),
    ("jws ver -ka -kb", "-k stands twice\n"),
    ("jws ver -aa -kb", "-a stands twice\n"),
    ("jws ver -ka -i", "-i has no value\n"),
    ("jws ver -k -ia", "-k has no value\n"),
    ("jws ver -i a", "-k is missing\n"),
    (
        "jws ver a -k b",
        "a is no option: a value stands after its letter\n",
    ),
    (
        "jws ver {\"k\":\"AA\"} -k b",
        "{..} is no option: a value stands after its letter\n",
    ),
    (
        "jws ver -k a -- b",
        "b is no option: a value stands after its letter\n",
    ),
    ("jws ver -k -", "two inputs are standard input\n"),
    ("jws fmt -O -", "two outputs are standard output\n"),
    (
        "jwk thp -a MD5",
        "-a is none of S224, S256, S384 and S512\n",
    ),
];

const TAKEN: &[(&str, &str)] = &[
    (
        "jws ver -k keys -I missing -O out",
        "-i reads standard input\n-I reads missing, which is missing\n-k reads keys\n-O writes out\n",
    ),
    (
        "jws ver -kfolder -ipipe",
        "-i reads pipe\n-k reads folder, which is a folder\n",
    ),
    (
        "jwe dec -k=closed -i {\"a\":1} -O closed --",
        "-i is the text itself\n-k reads closed, which may not be read\n-O writes closed, which is the file of -k\n",
    ),
    (
        "jwk gen -i {\"kty\":\"oct\"} -R missing",
        "-i is the text itself\n-o writes standard output\n-R reads missing, which is missing\n",
    ),
    (
        "jws sig -I {\"k\":\"AA\"} -k keys -o {\"k\":\"AA\"}",
        "-s is the text itself\n-I reads {..}\n-k reads keys\n-o writes {..}, which is the file of -I\n",
    ),
    (
        "jws fmt -i a -o b -O b -c",
        "-i reads a\n-o writes b, which is the file of -O\n-O writes b, which is the file of -o\n",
    ),
    (
        "b64 dec -i - -O -",
        "-i reads standard input\n-O writes standard output\n",
    ),
];

/// The words between the spaces.
fn words_of(alloc: Global, text: &str) -> Result<Vec<String>, AllocError> {
    let mut words = Vec::new(alloc);
    for word in text.split(' ') {
        words.push(String::from_str(alloc, word)?)?;
    }
    Ok(words)
}

fn expect_explained<R: Abort + AllocGlobal>(
    rt: &R,
    words: &str,
    first: &str,
    rest: &str,
) -> Result<(), Fail> {
    let found = explain(rt.alloc(), &Named, &words_of(rt.alloc(), words)?)?;
    let mut wanted = String::from_str(rt.alloc(), first)?;
    wanted.push_str(rest)?;
    assert_eq!(rt; *found, *wanted.as_bytes(), "{words}");
    Ok(())
}

#[test]
fn words_are_explained(rt: HostRuntime) -> Result<(), Fail> {
    for &(words, rest) in REFUSED {
        expect_explained(&rt, words, REFUSED_LINE, rest)?;
    }
    for &(words, rest) in TAKEN {
        expect_explained(&rt, words, "jose would read these words\n", rest)?;
    }
    Ok(())
}

const COMMANDS: &[(&str, &str)] = &[
    ("jwk", "gen"),
    ("jwk", "thp"),
    ("b64", "enc"),
    ("b64", "dec"),
    ("jws", "sig"),
    ("jws", "ver"),
    ("jws", "fmt"),
    ("jwe", "enc"),
    ("jwe", "dec"),
    ("jwe", "fmt"),
];

const REFUSED_LINE: &str = "jose refuses these words: 1 Usage\n";

/// A cause is found if `jose` refuses, and else none.
fn expect_agreement<R: Abort + AllocGlobal>(
    rt: &R,
    noun: &str,
    verb: &str,
    rest: &[&str],
) -> Result<(), Fail> {
    let alloc = rt.alloc();
    let mut words = Vec::new(alloc);
    words.push(String::from_str(alloc, noun)?)?;
    words.push(String::from_str(alloc, verb)?)?;
    for word in rest {
        words.push(String::from_str(alloc, word)?)?;
    }
    let is_refused = parse(alloc, &words).is_err();
    let found = explain(alloc, &Named, &words)?;
    let cause = found.strip_prefix(REFUSED_LINE.as_bytes());
    let has_cause = cause.is_some_and(|cause| !cause.is_empty());
    assert_eq!(rt; has_cause, is_refused, "{words:?}");
    Ok(())
}

/// The characters of the words that are tried, up to three after a hyphen.
const LETTERS: &[&str] = &[
    "", "i", "s", "I", "k", "R", "o", "O", "a", "c", "z", "=", "-",
];

#[test]
fn short_words_have_a_cause_if_they_are_refused(rt: HostRuntime) -> Result<(), Fail> {
    for &(noun, verb) in COMMANDS {
        for first in LETTERS {
            for second in LETTERS {
                for third in LETTERS {
                    let mut word = String::from_str(rt.alloc(), "-")?;
                    word.push_str(first)?;
                    word.push_str(second)?;
                    word.push_str(third)?;
                    expect_agreement(&rt, noun, verb, &[word.as_str()])?;
                }
            }
        }
    }
    Ok(())
}

const WORDS: &[&str] = &[
    "", "-", "--", "-k", "-kx", "-i", "-i-", "-I=", "-o", "-aS256", "-ac", "x", "--k",
];

#[test]
fn hostile_words_have_a_cause_if_they_are_refused(rt: HostRuntime) -> Result<(), Fail> {
    for &(noun, verb) in COMMANDS {
        for first in WORDS {
            for second in WORDS {
                for third in WORDS {
                    expect_agreement(&rt, noun, verb, &[*first, *second, *third])?;
                }
            }
        }
    }
    Ok(())
}
