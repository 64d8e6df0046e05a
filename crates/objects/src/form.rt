//! The form of the text of an object (RFC 7515 section 7, RFC 7516 section 7).
ghost use Rattle.std.specs.Prelude.{◌≡◌, false, not};
ghost use Rattle.std.specs.List.{find};
ghost use Rattle.objects.specs.Texts.{is_json_form as is_json_form_text, is_json_space as is_json_space_octet};

/// Whether the text is in JSON form: it begins with a brace, after any white space.
#[tactic(auto, unfolding(crate::specs::Texts::is_json_form))]
pub(crate) fn is_json_form(text: &[u8]) -> bool
    ensures { result ≡ is_json_form_text text.now }
{
    match first_octet(text) {
        None => false,
        Some(c) => c == b'{',
    }
}

/// The first octet that is not white space.
fn first_octet(text: &[u8]) -> Option<u8>
    ensures { result ≡ find (λ c. not (is_json_space_octet c)) text.now }
{
    text.iter().copied().find(|c| !is_json_space(*c))
}

/// White space of JSON (RFC 8259 section 2).
fn is_json_space(c: u8) -> bool
    ensures { result ≡ is_json_space_octet c }
{
    c == b' ' || c == b'\t' || c == b'\n' || c == b'\r'
}
