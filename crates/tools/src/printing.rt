//! Texts that are put together, and their printable form. No octet in it can change what a terminal shows.
ghost use Rattle.std.specs.Prelude.{◌≡◌, ◌<◌, ◌++◌, ◌∷◌, [], OnOk};
ghost use Rattle.tools.specs.Printing.{hex_digit, printable, printable_octet, printed};

use std::alloc::AllocError;

/// Adds the text.
pub(crate) fn add(line: &mut Vec<u8>, text: &str) -> Result<(), AllocError>
    ensures { OnOk result (line.new.items ≡ line.old.items ++ text.now) }
{
    line.extend_from_slice(text.as_bytes())
}

/// Adds both texts.
#[tactic(auto, using(std::proofs::Common::append_assoc))]
pub(crate) fn add_both(line: &mut Vec<u8>, one: &str, other: &str) -> Result<(), AllocError>
    ensures { OnOk result (line.new.items ≡ line.old.items ++ (one.now ++ other.now)) }
{
    add(line, one)?;
    add(line, other)
}

/// Adds the octets in printable ASCII. Every other octet is `\xNN`.
pub(crate) fn add_printable(line: &mut Vec<u8>, octets: &[u8]) -> Result<(), AllocError>
    ensures { OnOk result (line.new.items ≡ line.old.items ++ printable octets.now) }
{
    for octet in octets {
        add_octet(line, *octet)?;
    }
    Ok(())
}

fn add_octet(line: &mut Vec<u8>, octet: u8) -> Result<(), AllocError>
    ensures { OnOk result (line.new.items ≡ line.old.items ++ printable_octet octet) }
{
    if 32 <= octet && octet <= 126 {
        Ok(line.push(octet)?)
    } else {
        line.extend_from_slice(&[
            b'\\',
            b'x',
            hex_digit(octet / 16 % 16),
            hex_digit(octet % 16),
        ])
    }
}

fn hex_digit(n: u8) -> u8
    requires { n < 16 }
    ensures { result ≡ hex_digit n }
{
    if n < 10 { n + b'0' } else { n + 87 }
}

/// Adds the line in printable ASCII, and a line feed.
#[tactic(auto, using(std::proofs::Common::append_assoc))]
pub(crate) fn add_line(out: &mut Vec<u8>, line: &[u8]) -> Result<(), AllocError>
    ensures { OnOk result (out.new.items ≡ out.old.items ++ printed (line.now ∷ [])) }
{
    add_printable(out, line)?;
    add(out, "\n")
}
