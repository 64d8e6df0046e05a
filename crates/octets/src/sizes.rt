//! The sizes of the pieces in which contents are read and written.

/// The most octets of a content that are read at a time.
pub const PIECE: usize = 4096;

/// The most octets of a ciphertext that one piece fixes: those of the piece, and a block that waited.
pub const SEALED_PIECE: usize = PIECE + 16;

/// The most characters of base64url text that these fix.
pub const PIECE_TEXT: usize = 5488;

/// The most octets of a piece of ciphertext with those that waited for a whole group of three.
pub(crate) const JOINED_PIECE: usize = SEALED_PIECE + 2;
