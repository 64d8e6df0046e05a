//! The name of a signature algorithm, with the algorithm.
ghost use Rattle.std.specs.Prelude.{◌≡◌, string_bytes};
ghost use Rattle.keys.specs.Algorithms.{signature_alg_of};

use keys::SignatureAlg;

/// The `alg` of a joint header, and its algorithm, if it is supported.
#[derive(Drop)]
pub(crate) struct NamedSignatureAlg {
    pub(crate) name: String,
    pub(crate) alg: Option<SignatureAlg>,
    ghost of_name: { alg ≡ signature_alg_of (string_bytes name) },
}
