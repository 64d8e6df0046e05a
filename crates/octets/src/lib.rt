//! Octet devices, base64url, line ends and the refusals of all commands.
//!
//! Octets are read from an `Input` and written to an `Output`, over memory or over std's readers and writers. A call that fails returns a
//! `Refusal`.
//!
//! ```rust
//! let mut input = MemoryInput::new(b"hello", 2);
//! let octets = read_to_end(alloc, &mut input)?;
//! let text = b64_encode(alloc, &octets)?;
//! let mut out = MemoryOutput::new(alloc, 16)?;
//! emit(&mut out, text.as_bytes())?;
//! assert_eq!(rt; out.octets(), b"aGVsbG8".as_slice());
//! // Its last bits are not zero, so it is no base64url text.
//! assert_eq!(rt; b64_decode(alloc, b"aGVsbG9").err(), Some(Refusal::Base64));
//! ```
#![tactic(auto)]

mod base64url;
mod devices;
mod failing;
mod lanes;
pub mod laws;
mod line_ends;
mod memory;
mod reader;
mod refusal;
mod sizes;
mod streams;
mod transcript;
mod transform;
mod whole;
mod writer;

pub use base64url::{b64_append, b64_decode, b64_decode_onto, b64_encode};
pub use devices::{Input, Output};
pub use failing::{Failing, FailingInput, FailingOutput};
pub use lanes::{same_octets, xor_into};
pub use line_ends::without_line_end;
pub use memory::{MemoryInput, MemoryOutput};
pub use reader::B64Reader;
pub use refusal::{Fault, Refusal, needs};
pub use sizes::{PIECE, PIECE_TEXT, SEALED_PIECE};
pub use streams::{ReaderInput, WriterOutput};
pub use transform::{Transform, pump};
pub use whole::{Partial, draw, emit, read_to_end, write_whole};
pub use writer::{B64Writer, encode_onto};
