//! Laws of the definitions, as contracts of functions that do nothing.
ghost use Rattle.std.specs.Prelude.{◌≡◌, ℕ, List, Ok};
ghost use Rattle.octets.specs.Base64url.{decoded, TextsAreDistinct, DecodesExactly, SpellsSixBits, HasUrlCharacters};
ghost use Rattle.octets.specs.Encoding.{encoding, decoding, FixesLongest};
ghost use Rattle.octets.specs.Octets.{IsOctets};
ghost use Rattle.octets.specs.Plan.{Grows};
ghost use Rattle.octets.specs.Search.{FindsOctets};

/// A slice of octets holds octets. Callers need this of a buffer that a call has filled, since contracts do not say so.
pub fn are_octets(octets: &[u8])
    ensures { IsOctets octets.now }
{}

/// Two octet strings with the same base64url text are equal.
pub fn base64url_texts_are_distinct()
    ensures { TextsAreDistinct }
{}

/// A text decodes to octets exactly if it is their base64url text. Every other text is refused with `Base64`.
pub fn base64url_decodes_exactly()
    ensures { DecodesExactly }
{}

/// The result of decoding a text is octets.
pub fn base64url_decodes_to_octets()
    ensures { (text octets : List ℕ) → IsOctets text → decoded text ≡ Ok octets → IsOctets octets }
{}

/// A base64url text is the characters of the octets' groups of six bits, in order, in the URL and filename safe alphabet (RFC 4648 section
/// 5).
pub fn base64url_spells_six_bits()
    ensures { SpellsSixBits }
{}

/// A base64url text has only letters, digits, `-` and `_`, and so no dot, quote, backslash or line end.
pub fn base64url_has_url_characters()
    ensures { HasUrlCharacters }
{}

/// The base64url text that a beginning of a content fixes grows as more is read, and is a beginning of the whole text.
pub fn encoding_grows()
    ensures { Grows encoding }
{}

/// The octets that a beginning of a base64url text fixes grow as more is read, and are a beginning of all its octets.
pub fn decoding_grows()
    ensures { Grows decoding }
{}

/// A beginning of a text fixes the longest string of whole groups of three octets whose text it begins with.
pub fn decoding_fixes_the_longest()
    ensures { FixesLongest }
{}

/// The search for an octet string finds one that passes, and finds none only if there is none.
pub fn search_finds_octets()
    ensures { FindsOctets }
{}
