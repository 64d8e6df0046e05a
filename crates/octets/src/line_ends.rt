//! Line ends.
ghost use Rattle.std.specs.Prelude.{◌≡◌};
ghost use Rattle.octets.specs.LineEnds.{without_line_end};

/// The text without the LF or CR LF that may end it, as it ends text files.
#[tactic(auto, unfolding(crate::specs::LineEnds::without_line_end))]
pub fn without_line_end(text: &[u8]) -> &[u8]
    ensures { result.now ≡ without_line_end text.now }
{
    let n = text.len();
    if n == 0 || text[n - 1] != b'\n' {
        return text;
    }
    if n > 1 && text[n - 2] == b'\r' {
        &text[..n - 2]
    } else {
        &text[..n - 1]
    }
}
