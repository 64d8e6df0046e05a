//! The one entry point of all commands.
ghost use Rattle.octets.specs.Devices.{input_members, output_members};
ghost use Rattle.jose.specs.Doing.{Does};
ghost use Rattle.jose.specs.Invocations.{invocation_view};
ghost use Rattle.jose.specs.Ports.{AreFinite};

use crate::commands::{b64, jwe, jwk, jws};
use crate::ports::{Inputs, Outputs};
use crate::words::invocation::Invocation;
use crate::words::table::Command;
use octets::{Input, Output, Refusal};
use std::alloc::Global;

/// Does what the invocation asks.
pub fn run<I: Input, O: Output>(
    alloc: Global,
    invocation: &Invocation,
    inputs: &mut Inputs<I>,
    outputs: &mut Outputs<O>,
) -> Result<(), Refusal>
    requires { AreFinite I.remaining inputs.old }
    ensures { Does (input_members I.consumed I.is_at_end I.failures) (output_members O.written O.is_finished O.endings O.failures)
        (invocation_view invocation.now) inputs.old inputs.new outputs.old outputs.new result }
{
    match invocation.command {
        Command::JwkGen => jwk::generate(alloc, invocation, inputs, outputs),
        Command::JwkThp => jwk::thumbprints(alloc, invocation, inputs, outputs),
        Command::B64Enc => b64::encode(invocation, inputs, outputs),
        Command::B64Dec => b64::decode(invocation, inputs, outputs),
        Command::JwsSig => jws::sign(alloc, invocation, inputs, outputs),
        Command::JwsVer => jws::verify(alloc, invocation, inputs, outputs),
        Command::JwsFmt => jws::format(alloc, invocation, inputs, outputs),
        Command::JweEnc => jwe::encrypt(alloc, invocation, inputs, outputs),
        Command::JweDec => jwe::decrypt(alloc, invocation, inputs, outputs),
        Command::JweFmt => jwe::format(alloc, invocation, inputs, outputs),
    }
}
