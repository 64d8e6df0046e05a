//! What a password costs that an encrypted object is opened with.
ghost use Rattle.std.specs.Prelude.{◌≡◌, ◌++◌, ◌≤◌, length, map, option_map, OnOk};
ghost use Rattle.keys.specs.Limits.{limits};
ghost use Rattle.objects.specs.Jwe.{jwe_of};
ghost use Rattle.objects.specs.Code.KeyManagementView.{management_view};
ghost use Rattle.objects.specs.Code.Views.{recipient_view};
ghost use Rattle.tools.specs.LookedObjects.{all_iterations, cost_lines, iterations_line, iterations_line_if, iterations_of};
ghost use Rattle.tools.specs.Printing.{printed};

use crate::printing::{add, add_line};
use crate::text_kind::TextKind;
use crate::tool_cause::unless_memory;
use objects::{Jwe, KeyManagement, Recipient};
use std::alloc::{AllocError, Global};

/// Adds the last line of an encrypted object with passwords, unless `jose` refuses it.
pub(crate) fn add_cost_lines(
    alloc: Global,
    out: &mut Vec<u8>,
    kind: TextKind,
    text: &[u8],
) -> Result<(), AllocError>
    ensures { OnOk result (out.new.items ≡ out.old.items ++ printed (cost_lines kind text.now)) }
{
    match kind {
        TextKind::Encrypted => add_iterations(alloc, out, text, None),
        TextKind::EncryptedDetached => add_iterations(alloc, out, text, Some(Vec::new(alloc))),
        _ => Ok(()),
    }
}

fn add_iterations(
    alloc: Global,
    out: &mut Vec<u8>,
    text: &[u8],
    detached: Option<Vec<u8>>,
) -> Result<(), AllocError>
    ensures { OnOk result (out.new.items ≡ out.old.items ++ printed (iterations_line_if (jwe_of limits (option_map (λ c. c.items) detached) text.now))) }
{
    match Jwe::read(alloc, text, detached) {
        Ok(jwe) => add_iterations_line(alloc, out, iterations(jwe.recipients())),
        Err(refusal) => {
            unless_memory(refusal)?;
            Ok(())
        }
    }
}

/// How often one password is hashed for these recipients.
fn iterations(recipients: &[Recipient]) -> u128
    requires { length recipients.now ≤ limits.recipients }
    ensures { result ≡ all_iterations (map recipient_view recipients.now) }
{
    let mut total = 0;
    for recipient in recipients {
        total += u128::from(iterations_of(recipient.management()));
    }
    total
}

fn iterations_of(management: &KeyManagement) -> u64
    ensures { result ≡ iterations_of (management_view management.now) }
{
    match management {
        KeyManagement::Password { p2c, .. } => *p2c,
        _ => 0,
    }
}

fn add_iterations_line(alloc: Global, out: &mut Vec<u8>, n: u128) -> Result<(), AllocError>
    ensures { OnOk result (out.new.items ≡ out.old.items ++ printed (iterations_line n)) }
{
    if n == 0 {
        return Ok(());
    }
    let mut line = Vec::new(alloc);
    add(&mut line, "iterations: ")?;
    let text = n.to_string(alloc)?;
    add(&mut line, text.as_str())?;
    add_line(out, &line)
}
