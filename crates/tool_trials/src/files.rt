//! `jose-set` over files in memory. Each call fails in turn. Then a set is as it was, and no new file is left.
use octets::{Fault, Refusal};
use std::alloc::{AllocError, Global};
use std::process::Abort;
use tools::{FindFiles, Found, NotCreated, NotOpened, PutFiles, change_set, parse_set};

const A: &str = "{\"kty\":\"oct\",\"k\":\"AAAA\"}";

const SET: &str = "{\"keys\":[{\"k\":\"BBBB\",\"kty\":\"oct\"},{\"k\":\"CCCC\",\"kty\":\"oct\"}]}";

const ADDED: &str =
    "{\"keys\":[{\"k\":\"BBBB\",\"kty\":\"oct\"},{\"k\":\"CCCC\",\"kty\":\"oct\"},{\"k\":\"AAAA\",\"kty\":\"oct\"}]}";

const JOINED: &str = "{\"keys\":[{\"k\":\"AAAA\",\"kty\":\"oct\"}]}";

/// A file in memory.
#[derive(Drop)]
struct Kept {
    name: String,
    text: Vec<u8>,
}

fn file_of(alloc: Global, name: &str, text: &[u8]) -> Result<Kept, AllocError> {
    let name = String::from_str(alloc, name)?;
    let mut octets = Vec::new(alloc);
    octets.extend_from_slice(text)?;
    Ok(Kept { name, text: octets })
}

/// Files in memory. The call of this number fails, counted from 0.
#[derive(Drop)]
pub(crate) struct Files {
    alloc: Global,
    kept: Vec<Kept>,
    pub(crate) calls: u64,
    fails_at: u64,
}

impl Files {
    /// The file `a` with a key, and the file `set` with two.
    pub(crate) fn new(alloc: Global, fails_at: u64) -> Result<Files, AllocError> {
        let mut files = Vec::new(alloc);
        files.push(file_of(alloc, "a", A.as_bytes())?)?;
        files.push(file_of(alloc, "set", SET.as_bytes())?)?;
        Ok(Files {
            alloc,
            kept: files,
            calls: 0,
            fails_at,
        })
    }

    /// Counts a call, which fails if it is to fail.
    fn call(&mut self) -> Result<(), Fault> {
        let is_due = self.calls == self.fails_at;
        self.calls = self.calls.saturating_add(1);
        if is_due { Err(Fault::Writing) } else { Ok(()) }
    }

    pub(crate) fn text_of(&self, name: &str) -> Option<&[u8]> {
        for file in &self.kept {
            if file.name.as_str() == name {
                return Some(&file.text);
            }
        }
        None
    }

    fn forget(&mut self, name: &str) {
        self.kept.retain(|file| file.name.as_str() != name);
    }

    /// Keeps the text under this name, in place of what it had.
    pub(crate) fn keep(&mut self, name: &str, text: &[u8]) -> Result<(), Fault> {
        self.forget(name);
        let Ok(file) = file_of(self.alloc, name, text) else {
            return Err(Fault::Writing);
        };
        match self.kept.push(file) {
            Ok(()) => Ok(()),
            Err(_) => Err(Fault::Writing),
        }
    }
}

/// A copy of the octets, or none if memory ran out.
fn copied(alloc: Global, octets: &[u8]) -> Result<Vec<u8>, AllocError> {
    let mut copy = Vec::new(alloc);
    copy.extend_from_slice(octets)?;
    Ok(copy)
}

/// An open file: its octets when it was opened.
#[derive(Drop)]
pub(crate) struct Old {
    text: Vec<u8>,
}

/// A new file, which is in its folder under its name.
#[derive(Drop)]
pub(crate) struct New;

impl FindFiles for Files {
    ghost use Rattle.std.specs.Prelude.{⊤};

    ghost finds = { λ _ _ _. ⊤ };

    fn find(&self, path: &str) -> Found {
        if self.text_of(path).is_some() {
            Found::File
        } else {
            Found::Missing
        }
    }
}

impl PutFiles for Files {
    ghost use Rattle.std.specs.Prelude.{⊤};

    type Old = Old;

    type New = New;

    type Synced = New;

    ghost made = { λ _ _. ⊤ };

    ghost is_old = { λ _ _. ⊤ };

    ghost is_new = { λ _ _. ⊤ };

    ghost is_synced = { λ _ _. ⊤ };

    fn open_old(&mut self, path: &str) -> Result<Old, NotOpened> {
        if self.call().is_err() {
            return Err(NotOpened::NotWritable);
        }
        let alloc = self.alloc;
        match self.text_of(path) {
            Some(text) => match copied(alloc, text) {
                Ok(text) => Ok(Old { text }),
                Err(_) => Err(NotOpened::NotWritable),
            },
            None => Err(NotOpened::NoFile),
        }
    }

    fn read_old(&mut self, alloc: Global, old: &mut Old, _path: &str) -> Result<Vec<u8>, Refusal> {
        if self.call().is_err() {
            return Err(Refusal::Read);
        }
        Ok(copied(alloc, &old.text)?)
    }

    fn read(&mut self, alloc: Global, path: &str) -> Result<Vec<u8>, Refusal> {
        if self.call().is_err() {
            return Err(Refusal::Read);
        }
        match self.text_of(path) {
            Some(text) => Ok(copied(alloc, text)?),
            None => Err(Refusal::Read),
        }
    }

    fn write_out(&mut self, octets: &[u8]) -> Result<(), Fault> {
        self.call()?;
        let Ok(mut text) = copied(self.alloc, self.text_of("-").unwrap_or(b"")) else {
            return Err(Fault::Writing);
        };
        match text.extend_from_slice(octets) {
            Ok(()) => self.keep("-", &text),
            Err(_) => Err(Fault::Writing),
        }
    }

    fn create_new(&mut self, path: &str) -> Result<New, NotCreated> {
        if self.call().is_err() {
            return Err(NotCreated::Failed);
        }
        if self.text_of(path).is_some() {
            return Err(NotCreated::Exists);
        }
        match self.keep(path, b"") {
            Ok(()) => Ok(New),
            Err(_) => Err(NotCreated::Failed),
        }
    }

    fn write(&mut self, _new: &mut New, path: &str, octets: &[u8]) -> Result<(), Fault> {
        self.call()?;
        self.keep(path, octets)
    }

    fn own_as(&mut self, _new: &New, _path: &str, _old: &Old, _set: &str) -> Result<(), Fault> {
        self.call()
    }

    fn sync(&mut self, new: New, _path: &str) -> Result<New, Fault> {
        self.call()?;
        Ok(new)
    }

    fn put(&mut self, _file: New, from: &str, to: &str) -> Result<(), Fault> {
        self.call()?;
        let text = match self.text_of(from) {
            Some(text) => copied(self.alloc, text),
            None => Err(AllocError),
        };
        let Ok(text) = text else {
            return Err(Fault::Writing);
        };
        self.forget(from);
        self.keep(to, &text)
    }

    fn remove(&mut self, path: &str) -> Result<(), Fault> {
        self.call()?;
        self.forget(path);
        Ok(())
    }

    fn sync_folder(&mut self, _path: &str) -> Result<(), Fault> {
        self.call()
    }
}

/// Runs the words over files of which this call fails. Returns the files, and whether it succeeded.
fn run(alloc: Global, words: &[&str], fails_at: u64) -> Result<(Files, bool), AllocError> {
    let mut files = Files::new(alloc, fails_at)?;
    let mut texts = Vec::new(alloc);
    for word in words {
        texts.push(String::from_str(alloc, word)?)?;
    }
    let done = match parse_set(&texts) {
        Ok(request) => change_set(alloc, &mut files, request).is_ok(),
        Err(_) => false,
    };
    Ok((files, done))
}

/// The file has this text, or is not there.
fn expect_file(rt: &impl Abort, files: &Files, name: &str, text: Option<&str>) {
    let found = files.text_of(name);
    assert!(rt; found == text.map(|text| text.as_bytes()), "{name}");
}

/// `add` makes nine calls. If the last one fails, the set was changed.
#[test]
fn add_leaves_the_set_or_changes_it(rt: HostRuntime) -> Result<(), AllocError> {
    for fails_at in 0..10 {
        let (files, done) = run(rt.alloc(), &["add", "set", "a"], fails_at)?;
        assert_eq!(&rt; done, fails_at == 9, "call {fails_at}");
        let text = if fails_at < 8 { SET } else { ADDED };
        expect_file(&rt, &files, "set", Some(text));
        expect_file(&rt, &files, "set.new", None);
    }
    Ok(())
}

/// `join -o` makes seven calls. If the last one fails, the set was made.
#[test]
fn join_leaves_nothing_or_a_set(rt: HostRuntime) -> Result<(), AllocError> {
    for fails_at in 0..8 {
        let (files, done) = run(rt.alloc(), &["join", "-o", "new", "a"], fails_at)?;
        assert_eq!(&rt; done, fails_at == 7, "call {fails_at}");
        expect_file(
            &rt,
            &files,
            "new",
            if fails_at < 6 { None } else { Some(JOINED) },
        );
        expect_file(&rt, &files, "new.new", None);
        expect_file(&rt, &files, "set", Some(SET));
    }
    Ok(())
}
