//! Why a tool refuses.
use octets::Refusal;

/// Why a tool refuses. Its own line names the cause, if the keys are the cause.
#[derive(Clone, Copy, Debug, PartialEq, Eq)]
pub enum Cause {
    /// Not the keys: a refusal that `jose` has too. `Usage` says that the words ask for nothing.
    Refused(Refusal),
    /// The text of the keys is refused if each of them must be good.
    BadKeys(Refusal),
    /// There are not so many keys as signers.
    OtherNumber,
    /// Two of the keys make the same signatures.
    SignAlike,
}

impl From<Refusal> for Cause {
    ghost use Rattle.std.specs.Prelude.{◌≡◌};
    ghost use Rattle.tools.specs.declared.cause.Cause.TheVariants.{Refused};

    ghost from_gives = { λ refusal cause. cause ≡ Refused refusal };

    fn from(refusal: Refusal) -> Cause {
        Cause::Refused(refusal)
    }
}
