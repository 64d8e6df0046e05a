//! A list of signatures that is not too long.
ghost use Rattle.std.specs.Prelude.{◌≤◌, length};
ghost use Rattle.keys.specs.Limits.{limits};

use crate::jws::signature::Signature;

/// The signatures of an object: at most `MOST_RECIPIENTS`.
#[derive(Drop)]
pub(crate) struct SignatureList {
    pub(crate) list: Vec<Signature>,
    ghost few: { length list.items ≤ limits.recipients },
}
