//! Why a call refuses, and why a device fails.
ghost use Rattle.std.specs.Prelude.{◌≡◌, Some};
ghost use Rattle.octets.specs.Outcomes.{needs as needed};

use std::alloc::{AllocError, AllocFailed};
use std::error::Error;
use std::fmt;

/// Why a command or a call of the library refuses. Its `Display` is its number, a space and its name.
#[derive(Clone, Copy, Debug, PartialEq, Eq)]
pub enum Refusal {
    /// The words are no command.
    Usage,
    /// An input failed in the call.
    Read,
    /// An output failed in the call.
    Write,
    /// A growth was refused in the call.
    Memory,
    /// The random input ended too early.
    Random,
    /// A text that must be base64url is not.
    Base64,
    /// A text that must be JSON is not.
    Json,
    /// A JSON text holds a number with a fraction, an exponent or more than 64 bits, or `-0`.
    Number,
    /// Not a good octet key, no such key in the set, or a bad template for a key.
    Key,
    /// Members are missing, of the wrong type or not allowed together, or the number of parts is wrong.
    Form,
    /// There is no joint header, or a header member is missing or wrong.
    Header,
    /// An algorithm, `crit` or `zip` that is not supported.
    Unsupported,
    /// Nothing names or implies the algorithm or the size.
    NoAlgorithm,
    /// The key's length, `alg`, `use` or `key_ops` does not fit.
    KeyDoesNotFit,
    /// A stated limit is passed.
    Limit,
    /// Compact form cannot hold the object.
    NotCompact,
    /// No candidate pair opens or verifies.
    NotOpened,
}

impl Refusal {
    ghost use Rattle.octets.specs.Refusals.{refusal_text};

    /// The number, a space and the name.
    pub fn text(self) -> &'static str
        ensures { result.now ≡ refusal_text self }
    {
        match self {
            Refusal::Usage => "1 Usage",
            Refusal::Read => "2 Read",
            Refusal::Write => "3 Write",
            Refusal::Memory => "4 Memory",
            Refusal::Random => "5 Random",
            Refusal::Base64 => "6 Base64",
            Refusal::Json => "7 Json",
            Refusal::Number => "8 Number",
            Refusal::Key => "9 Key",
            Refusal::Form => "10 Form",
            Refusal::Header => "11 Header",
            Refusal::Unsupported => "12 Unsupported",
            Refusal::NoAlgorithm => "13 NoAlgorithm",
            Refusal::KeyDoesNotFit => "14 KeyDoesNotFit",
            Refusal::Limit => "15 Limit",
            Refusal::NotCompact => "16 NotCompact",
            Refusal::NotOpened => "17 NotOpened",
        }
    }
}

impl fmt::Display for Refusal {
    ghost use Rattle.octets.specs.Refusals.{refusal_text};

    ghost output = { λ r. Some (refusal_text r) };

    fn fmt<W: fmt::Write>(&self, f: &mut fmt::Formatter<W>) -> fmt::Result {
        f.write_str(self.text())
    }
}

impl Error for Refusal {}

impl From<AllocError> for Refusal {
    ghost use Rattle.octets.specs.declared.refusal.Refusal.TheVariants.{Memory};

    ghost from_gives = { λ _ refusal. refusal ≡ Memory };

    fn from(_: AllocError) -> Refusal {
        Refusal::Memory
    }
}

impl<T: Drop> From<AllocFailed<T>> for Refusal {
    ghost use Rattle.octets.specs.declared.refusal.Refusal.TheVariants.{Memory};

    ghost from_gives = { λ _ refusal. refusal ≡ Memory };

    fn from(_: AllocFailed<T>) -> Refusal {
        Refusal::Memory
    }
}

/// Refuses unless the test holds, as in `needs(octets.len() <= most, Refusal::Key)?`.
pub fn needs(test: bool, refusal: Refusal) -> Result<(), Refusal>
    ensures { result ≡ needed test refusal }
{
    if test { Ok(()) } else { Err(refusal) }
}

/// A device failed. Its text is not fixed.
#[derive(Clone, Copy, Debug, PartialEq, Eq, thiserror::Error)]
pub enum Fault {
    /// An input failed.
    #[error("an input failed")]
    Reading,
    /// An output failed.
    #[error("an output failed")]
    Writing,
}

impl From<Fault> for Refusal {
    ghost use Rattle.octets.specs.Refusals.{refusal_of};

    ghost from_gives = { λ fault refusal. refusal ≡ refusal_of fault };

    fn from(fault: Fault) -> Refusal {
        match fault {
            Fault::Reading => Refusal::Read,
            Fault::Writing => Refusal::Write,
        }
    }
}
