//! A list of recipients that is not too long.
ghost use Rattle.std.specs.Prelude.{◌≤◌, length};
ghost use Rattle.keys.specs.Limits.{limits};

use crate::jwe::recipient::Recipient;

/// The recipients of an object: at most `MOST_RECIPIENTS`.
#[derive(Drop)]
pub(crate) struct RecipientList {
    pub(crate) list: Vec<Recipient>,
    ghost few: { length list.items ≤ limits.recipients },
}
