//! Laws of the definitions, as contracts of functions that do nothing.
ghost use Rattle.std.specs.Prelude.{◌≤◌, length};
ghost use Rattle.keys.specs.Json.{KeepFloatsOut};
ghost use Rattle.keys.specs.JsonTexts.{CompactTextReadsBack, DeepTextsAreRefused, KeepJson, ReadsJson, UrlTextsAreJson};
ghost use Rattle.keys.specs.Keys.{AreOctetKeys};
ghost use Rattle.keys.specs.KeySets.{KeysHaveOctets};
ghost use Rattle.keys.specs.SetMembers.{KeysAreGoodMembers};
ghost use Rattle.keys.specs.Limits.{limits};

use crate::set::KeySet;

/// A set has at least one key and at most `MOST_KEYS`, and its keys have octets.
pub fn are_octet_keys(keys: &KeySet)
    ensures octets { AreOctetKeys keys.now }
    ensures some { 1 ≤ length keys.now }
    ensures few { length keys.now ≤ limits.keys }
{
    keys.keys();
}

/// Members whose numbers are whole have no float, and values without floats may be taken out and put in. So a value of `read_json`, and
/// what is made of it, has a compact text.
pub fn members_keep_floats_out()
    ensures { KeepFloatsOut }
{}

/// The compact text of a JSON value that is at most 127 deep reads as that value.
pub fn compact_text_reads_back()
    ensures { CompactTextReadsBack }
{}

/// The compact text of a JSON value that nests deeper is refused with `Json`.
pub fn deep_texts_are_refused()
    ensures { DeepTextsAreRefused }
{}

/// A text reads as a JSON value that is at most 127 deep.
pub fn what_is_read_is_json()
    ensures { ReadsJson }
{}

/// The parts of a JSON value are JSON values, and members stay JSON values when one is put in or left out. So the compact text of a value
/// that is made of values that were read reads back.
pub fn members_keep_json()
    ensures { KeepJson }
{}

/// A base64url text is UTF-8 and needs no escapes in JSON.
pub fn url_texts_are_json()
    ensures { UrlTextsAreJson }
{}

/// The keys of a key text have octets.
pub fn keys_have_octets()
    ensures { KeysHaveOctets }
{}

/// The keys of a text, without its bad ones, are the good members of the text in order.
pub fn keys_are_good_members()
    ensures { KeysAreGoodMembers }
{}
