//! The greatest depth of the headers of an object.
ghost use Rattle.std.specs.Prelude.{◌≡◌};
ghost use Rattle.objects.specs.Texts.{depth_of_each};

/// The greatest depth of a header of an object. The object's text is one deeper, and may be 127 deep.
pub(crate) const HEADER_DEPTH: usize = 126;

/// The greatest depth of a header in a list of objects.
const LISTED_HEADER_DEPTH: usize = 124;

/// The greatest depth of the header of each of `n` signatures or recipients.
pub(crate) fn depth_of_each(n: usize) -> usize
    ensures { result ≡ depth_of_each n }
{
    if n <= 1 {
        HEADER_DEPTH
    } else {
        LISTED_HEADER_DEPTH
    }
}
