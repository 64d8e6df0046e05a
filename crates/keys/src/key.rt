//! A good octet key.
ghost use Rattle.octets.specs.Octets.{IsOctets};

/// A good octet key, of 1 to `MOST_KEY_OCTETS` octets (RFC 7518 section 6.4).
#[derive(Drop)]
pub struct Key {
    pub(crate) octets: Vec<u8>,
    pub(crate) alg: Option<String>,
    pub(crate) key_use: Option<String>,
    pub(crate) key_ops: Option<Vec<String>>,
    ghost known: { IsOctets octets.items },
}
