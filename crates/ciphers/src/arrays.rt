//! Arrays of octets, for calls that take an initialization vector or a key as an array.
ghost use Rattle.std.specs.Prelude.{◌≡◌, length};

/// Copies the octets into an array.
pub(crate) fn array<const N: usize>(octets: &[u8]) -> [u8; N]
    requires { length octets.now ≡ N }
    ensures { result ≡ octets.now }
{
    let mut out = [0; N];
    out.copy_from_slice(octets);
    out
}
