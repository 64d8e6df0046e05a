//! The commands of the program in one table: the words of each command, and for each option what it takes and names.
ghost use Rattle.std.specs.Prelude.{◌≡◌, ◌==◌, find, map, option_map, true, IfSome};
ghost use Rattle.clap.specs.Words.{is_simple_and_free};
ghost use Rattle.jose.specs.Commands.{row_of, option_with, is_json};
ghost use Rattle.jose.specs.Words.{command_named, commands, has_words, is_input, is_output};
ghost use Rattle.jose.specs.Code.Rows.{command_entry, entry_of, option_entry};
ghost use Rattle.jose.specs.Reading.{app_for};

/// A command of the program.
#[derive(Clone, Copy, Debug, PartialEq, Eq)]
pub enum Command {
    /// `jwk gen`: makes a key.
    JwkGen,
    /// `jwk thp`: writes the thumbprints of keys.
    JwkThp,
    /// `b64 enc`: writes the base64url text of octets.
    B64Enc,
    /// `b64 dec`: writes the octets of a base64url text.
    B64Dec,
    /// `jws sig`: signs a payload.
    JwsSig,
    /// `jws ver`: verifies an object.
    JwsVer,
    /// `jws fmt`: writes an object in another form.
    JwsFmt,
    /// `jwe enc`: encrypts a plaintext.
    JweEnc,
    /// `jwe dec`: decrypts an object.
    JweDec,
    /// `jwe fmt`: writes an object in another form.
    JweFmt,
}

/// Whether an option has a value, and which one if none is given.
#[derive(Clone, Copy)]
pub enum Kind {
    /// No value. The option is there or not.
    Flag,
    /// A value, which must be given.
    Required,
    /// A value, which may be absent.
    Optional,
    /// A value, which is this one if none is given.
    Default(&'static str),
}

/// What the value of an option names. An input or an output is a file, or `-` for a standard stream.
#[derive(Clone, Copy, PartialEq, Eq)]
pub enum Role {
    /// An input of JSON. The value may also be the JSON itself.
    Json,
    /// The same for keys. No output may be their file.
    Keys,
    /// An input of octets that is read while an output is written. No output may be its file.
    Streamed,
    /// An input of octets that is read before any output is written.
    Octets,
    /// An output that others may read.
    Output,
    /// An output for its owner alone.
    Secret,
    /// The same for a made key, which is on the disk at the end.
    MadeKey,
    /// One of the four hashes.
    Hash,
    /// Nothing: the option is a flag.
    Nothing,
}

/// An option: its letter, a name that says what it is for, the value that it takes, and what the value names.
#[derive(Clone, Copy)]
pub struct OptionRow(pub char, pub &'static str, pub Kind, pub Role);

/// A command: the two words that select it, and its options.
#[derive(Clone, Copy)]
pub struct CommandRow {
    pub command: Command,
    pub noun: &'static str,
    pub verb: &'static str,
    pub options: &'static [OptionRow],
}

/// All commands.
static COMMANDS: [CommandRow; 10] = [
    CommandRow {
        command: Command::JwkGen,
        noun: "jwk",
        verb: "gen",
        options: &[
            OptionRow('i', "template", Kind::Required, Role::Json),
            OptionRow('o', "key", Kind::Default("-"), Role::MadeKey),
            OptionRow('R', "random", Kind::Optional, Role::Octets),
        ],
    },
    CommandRow {
        command: Command::JwkThp,
        noun: "jwk",
        verb: "thp",
        options: &[
            OptionRow('i', "keys", Kind::Default("-"), Role::Keys),
            OptionRow('a', "hash", Kind::Default("S256"), Role::Hash),
            OptionRow('o', "thumbprints", Kind::Default("-"), Role::Output),
        ],
    },
    CommandRow {
        command: Command::B64Enc,
        noun: "b64",
        verb: "enc",
        options: &[
            OptionRow('I', "octets", Kind::Default("-"), Role::Streamed),
            OptionRow('o', "text", Kind::Default("-"), Role::Output),
        ],
    },
    CommandRow {
        command: Command::B64Dec,
        noun: "b64",
        verb: "dec",
        options: &[
            OptionRow('i', "text", Kind::Default("-"), Role::Streamed),
            OptionRow('O', "octets", Kind::Default("-"), Role::Output),
        ],
    },
    CommandRow {
        command: Command::JwsSig,
        noun: "jws",
        verb: "sig",
        options: &[
            OptionRow('s', "template", Kind::Default("{}"), Role::Json),
            OptionRow('I', "payload", Kind::Default("-"), Role::Streamed),
            OptionRow('k', "keys", Kind::Required, Role::Keys),
            OptionRow('o', "object", Kind::Default("-"), Role::Output),
            OptionRow('O', "detached", Kind::Optional, Role::Output),
            OptionRow('c', "compact", Kind::Flag, Role::Nothing),
        ],
    },
    CommandRow {
        command: Command::JwsVer,
        noun: "jws",
        verb: "ver",
        options: &[
            OptionRow('i', "object", Kind::Default("-"), Role::Json),
            OptionRow('I', "detached", Kind::Optional, Role::Octets),
            OptionRow('k', "keys", Kind::Required, Role::Keys),
            OptionRow('a', "all", Kind::Flag, Role::Nothing),
            OptionRow('O', "payload", Kind::Optional, Role::Output),
        ],
    },
    CommandRow {
        command: Command::JwsFmt,
        noun: "jws",
        verb: "fmt",
        options: &[
            OptionRow('i', "object", Kind::Default("-"), Role::Json),
            OptionRow('I', "detached", Kind::Optional, Role::Octets),
            OptionRow('o', "text", Kind::Default("-"), Role::Output),
            OptionRow('O', "payload", Kind::Optional, Role::Output),
            OptionRow('c', "compact", Kind::Flag, Role::Nothing),
        ],
    },
    CommandRow {
        command: Command::JweEnc,
        noun: "jwe",
        verb: "enc",
        options: &[
            OptionRow('i', "template", Kind::Default("{}"), Role::Json),
            OptionRow('I', "plaintext", Kind::Default("-"), Role::Streamed),
            OptionRow('k', "keys", Kind::Required, Role::Keys),
            OptionRow('o', "object", Kind::Default("-"), Role::Output),
            OptionRow('O', "detached", Kind::Optional, Role::Output),
            OptionRow('c', "compact", Kind::Flag, Role::Nothing),
            OptionRow('R', "random", Kind::Optional, Role::Octets),
        ],
    },
    CommandRow {
        command: Command::JweDec,
        noun: "jwe",
        verb: "dec",
        options: &[
            OptionRow('i', "object", Kind::Default("-"), Role::Json),
            OptionRow('I', "detached", Kind::Optional, Role::Octets),
            OptionRow('k', "keys", Kind::Required, Role::Keys),
            OptionRow('O', "plaintext", Kind::Default("-"), Role::Secret),
        ],
    },
    CommandRow {
        command: Command::JweFmt,
        noun: "jwe",
        verb: "fmt",
        options: &[
            OptionRow('i', "object", Kind::Default("-"), Role::Json),
            OptionRow('I', "detached", Kind::Optional, Role::Octets),
            OptionRow('o', "text", Kind::Default("-"), Role::Output),
            OptionRow('O', "ciphertext", Kind::Optional, Role::Output),
            OptionRow('c', "compact", Kind::Flag, Role::Nothing),
        ],
    },
];

impl CommandRow {
    fn has_words(&self, noun: &str, verb: &str) -> bool
        ensures { result ≡ has_words noun.now verb.now (command_entry self.now) }
    {
        self.noun == noun && self.verb == verb
    }
}

impl Role {
    /// Whether it is an input.
    pub fn is_input(self) -> bool
        ensures { result ≡ is_input self }
    {
        matches!(
            self,
            Role::Json | Role::Keys | Role::Streamed | Role::Octets
        )
    }

    /// Whether it is an output.
    pub fn is_output(self) -> bool
        ensures { result ≡ is_output self }
    {
        matches!(self, Role::Output | Role::Secret | Role::MadeKey)
    }

    /// Whether it is JSON, which the value may be itself.
    pub fn is_json(self) -> bool
        ensures { result ≡ is_json self }
    {
        matches!(self, Role::Json | Role::Keys)
    }
}

impl Command {
    /// The command's option with this letter.
    pub(crate) fn option_at(self, letter: char) -> Option<&'static OptionRow>
        ensures { entry_of result ≡ find (λ entry. entry.letter == letter) (row_of self).options }
    {
        self.options().iter().find(|option| option.0 == letter)
    }

    /// The command's first option with this role.
    pub(crate) fn option_with(self, role: Role) -> Option<&'static OptionRow>
        ensures { entry_of result ≡ option_with role self }
    {
        self.options().iter().find(|option| option.3 == role)
    }

    /// The command's options, in the order of the table.
    pub fn options(self) -> &'static [OptionRow]
        ensures { map option_entry result.now ≡ (row_of self).options }
    {
        match table().iter().find(|row| row.command == self) {
            Some(row) => row.options,
            None => unreachable!(),
        }
    }
}

/// The command that has these two words.
pub fn command_row(noun: &str, verb: &str) -> Option<&'static CommandRow>
    ensures row { option_map (λ row. command_entry row.now) result
        ≡ command_named noun.now verb.now }
    ensures simple { IfSome result (λ row.
        is_simple_and_free (app_for (map option_entry row.now.options.now)) ≡ true) }
{
    row_among(table(), noun, verb)
}

#[tactic(auto, unfolding(crate::specs::Words::commands))]
pub(crate) fn table() -> &'static [CommandRow]
    ensures { map command_entry result.now ≡ commands }
{
    &COMMANDS
}

fn row_among<'a>(rows: &'a [CommandRow], noun: &str, verb: &str) -> Option<&'a CommandRow>
    ensures { option_map (λ row. row.now) result
        ≡ find (λ row. has_words noun.now verb.now (command_entry row)) rows.now }
{
    rows.iter().find(|row| row.has_words(noun, verb))
}
