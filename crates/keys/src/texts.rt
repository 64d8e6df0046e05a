//! Lists of texts, whatever they are for.
ghost use Rattle.std.specs.Prelude.{◌≡◌, map};
ghost use Rattle.std.specs.List.{list_any};
ghost use Rattle.std.specs.Str.{bytes_eq};
ghost use Rattle.keys.specs.Texts.{is_among};

/// Whether the text is one of these names.
#[tactic(auto, using(crate::proofs::Strings::any_name))]
pub(crate) fn is_among(names: &[&str], text: &str) -> bool
    ensures { result ≡ is_among (map (λ n. n.now) names.now) text.now }
{
    any_name(names, text)
}

fn any_name(names: &[&str], text: &str) -> bool
    ensures { result ≡ list_any (λ n. bytes_eq n.now text.now) names.now }
{
    names.iter().any(|name| *name == text)
}
