//! The request to the program: a command, and the options that were given or have a default.
ghost use Rattle.std.specs.Prelude.{◌≡◌, ◌==◌, find, is_some, option_map};
ghost use Rattle.jose.specs.Invocations.{invocation_view, value_at, hash_asked, hash_named};

use crate::Command;
use prf::HashAlg;

/// An option's letter and its value. A flag that was given has the value `true`.
#[derive(Drop)]
pub struct Setting {
    pub letter: char,
    pub value: String,
}

/// A command with its options, in the order of the table.
#[derive(Drop)]
pub struct Invocation {
    pub command: Command,
    pub options: Vec<Setting>,
}

impl Invocation {
    /// The value of the option, if it was given or has a default.
    #[tactic(auto, using(crate::proofs::Settings::value_found))]
    pub fn value(&self, letter: char) -> Option<&str>
        ensures { option_map (λ s. s.now) result ≡ value_at letter (invocation_view self.now).options }
    {
        Some(self.setting(letter)?.value.as_str())
    }

    /// Whether the option was given or has a default.
    pub fn has(&self, letter: char) -> bool
        ensures { result ≡ is_some (value_at letter (invocation_view self.now).options) }
    {
        self.value(letter).is_some()
    }

    /// The hash that `-a` names, if it names one.
    pub fn hash(&self) -> Option<HashAlg>
        ensures { result ≡ hash_asked (invocation_view self.now).options }
    {
        hash_named(self.value('a')?)
    }

    fn setting(&self, letter: char) -> Option<&Setting>
        ensures { option_map (λ s. s.now) result
            ≡ find (λ setting. setting.letter == letter) self.now.options.items }
    {
        self.options.iter().find(|setting| setting.letter == letter)
    }
}

/// The hash of this name: S224, S256, S384 or S512.
#[tactic(auto, unfolding(crate::specs::Invocations::hash_named))]
pub(crate) fn hash_named(name: &str) -> Option<HashAlg>
    ensures { result ≡ hash_named name.now }
{
    match name {
        "S224" => Some(HashAlg::S224),
        "S256" => Some(HashAlg::S256),
        "S384" => Some(HashAlg::S384),
        "S512" => Some(HashAlg::S512),
        _ => None,
    }
}
