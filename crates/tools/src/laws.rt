//! Laws of the answers of the tools. Each law is the contract of a function that does nothing.
ghost use Rattle.tools.specs.Headline.{EachKeyVerifies, FewerAreEnough, SoManyKeysVerify, OtherNumberIsRefused, AlikeKeysAreRefused, KeyTwiceIsRefused};
ghost use Rattle.tools.specs.ChangeLaws.{AddsAreWhole, RefusalsDeleteWhatIsNew, RefusalsReplaceNothing, RemovalsAreWhole};
ghost use Rattle.tools.specs.LookLaws.{DamagedTextsAreHidden, LooksArePrinted, SecretsAreHidden, ShownPlacesAreRefused, TextsHideSecrets};
ghost use Rattle.tools.specs.SetHeadline.{AddedKeysReadBack, JoinedAloneIsTheSame, JoinedKeysReadBack, LeftKeysReadBack};

use keys::laws::{
    compact_text_reads_back, members_keep_json, url_texts_are_json, what_is_read_is_json,
};
use tokens::laws::signers_are_counted;

/// An object that `jose-verify-all` accepts is accepted by `jws ver` with each of the keys alone, or for K of N signers with each of at least
/// K keys, and there are as many keys as was asked for. If there is one less or one more, or if two of them sign alike, the refusal is `Key`,
/// and so nothing is written. What is accepted for more signers is accepted for fewer of the same keys.
pub fn each_signer_signed()
    ensures each { EachKeyVerifies }
    ensures least { SoManyKeysVerify }
    ensures fewer { FewerAreEnough }
    ensures number { OtherNumberIsRefused }
    ensures alike { AlikeKeysAreRefused }
    ensures twice { KeyTwiceIsRefused }
{
    signers_are_counted();
}

/// What `join` and `add` write reads as exactly the keys of the texts, in order, none of which is there twice.
pub fn joined_keys_read_back()
    ensures joined { JoinedKeysReadBack }
    ensures added { AddedKeysReadBack }
{
    what_is_read_is_json();
    members_keep_json();
    compact_text_reads_back();
    url_texts_are_json();
}

/// What is joined alone is the same text.
pub fn joined_alone_is_the_same()
    ensures { JoinedAloneIsTheSame }
{
    what_is_read_is_json();
    members_keep_json();
    compact_text_reads_back();
    url_texts_are_json();
}

/// What `remove` writes reads as exactly the keys of the set whose thumbprint is not named, in order.
pub fn left_keys_read_back()
    ensures { LeftKeysReadBack }
{
    what_is_read_is_json();
    members_keep_json();
    compact_text_reads_back();
    url_texts_are_json();
}

/// After success exactly the calls of the protocol were made, in their order, and what was put in the place of the set is the text of the
/// answer to what was read.
pub fn edits_are_whole()
    ensures adds { AddsAreWhole }
    ensures removals { RemovalsAreWhole }
{}

/// After a refusal no file was put in the place of another, and each file that was created was deleted, or the system refused to; except if
/// the folder alone was not brought to the disk.
pub fn refusals_change_nothing()
    ensures replaced { RefusalsReplaceNothing }
    ensures deleted { RefusalsDeleteWhatIsNew }
{}

/// What is written for a file has printable ASCII and line feeds alone.
pub fn looks_are_printed()
    ensures { LooksArePrinted }
{}

/// Values and texts that differ only in the secret members of keys, at any depth, are shown alike. Nothing is shown of a text in braces that
/// is no JSON.
pub fn secrets_are_hidden()
    ensures values { SecretsAreHidden }
    ensures texts { TextsHideSecrets }
    ensures damaged { DamagedTextsAreHidden }
{}

/// Where `jose` refuses an object: the place that is shown is one of the object's places, and it alone is refused as the first line says.
pub fn shown_places_are_refused()
    ensures { ShownPlacesAreRefused }
{}
