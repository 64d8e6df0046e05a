//! The end of a run: a status, and one line after a refusal.
ghost use Rattle.std.specs.Prelude.{◌≡◌, ◌<◌, ◌++◌, OnOk, OnErr, IfErr};
ghost use Rattle.octets.specs.Devices.{greatest_count, next_count, AppendsPrefixOf, IsFinishedOnce};
ghost use Rattle.tools.specs.Reports.{status_of, line_head, line_end, report_line};

use crate::cause::Cause;
use crate::words::Tool;
use octets::{Output, Refusal, write_whole};

/// Returns the program's status. After success it is 0, and nothing is written. After a refusal it is 1, and the line of its cause is
/// written, as far as the output accepts it.
pub fn report<O: Output>(outcome: Result<(), Cause>, out: &mut O) -> u8
    ensures status { result ≡ status_of outcome }
    ensures quiet { OnOk outcome (out.new ≡ out.old) }
    ensures line { IfErr outcome (λ cause.
        AppendsPrefixOf (report_line cause) (O.written out.old) (O.written out.new)) }
    ensures whole { IfErr outcome (λ cause. O.failures out.old < greatest_count
        → O.failures out.new ≡ O.failures out.old
        → (O.written out.new ≡ O.written out.old ++ report_line cause)
        × IsFinishedOnce O.is_finished O.endings out.old out.new) }
{
    match outcome {
        Ok(()) => 0,
        Err(cause) => {
            // If this output fails, there is nowhere left to report it.
            let _ = write_line(out, cause);
            1
        }
    }
}

fn write_line<O: Output>(out: &mut O, cause: Cause) -> Result<(), Refusal>
    ensures part { AppendsPrefixOf (report_line cause) (O.written out.old) (O.written out.new) }
    ensures whole { OnOk result ((O.written out.new ≡ O.written out.old ++ report_line cause)
        × IsFinishedOnce O.is_finished O.endings out.old out.new) }
    ensures refusal { IfErr result (λ e. e ≡ Refusal.Write) }
    ensures fails { OnErr result (O.failures out.new ≡ next_count (O.failures out.old)) }
{
    write_whole(out, line_head(cause).as_bytes())?;
    write_whole(out, line_end(cause).as_bytes())?;
    write_whole(out, b"\n")?;
    out.finish()?;
    Ok(())
}

/// The beginning of the line, which is all of it if it has no refusal's number and name.
fn line_head(cause: Cause) -> &'static str
    ensures { result.now ≡ line_head cause }
{
    match cause {
        Cause::Refused(Refusal::Usage) => Tool::VerifyAll.usage(),
        Cause::Refused(_) => "jose: ",
        Cause::BadKeys(_) => "jose-verify-all: not every key is good: jose: ",
        Cause::OtherNumber => "jose-verify-all: the number of keys is another one",
        Cause::SignAlike => "jose-verify-all: two of the keys make the same signatures",
    }
}

/// The refusal's number and name, if the line has one.
fn line_end(cause: Cause) -> &'static str
    ensures { result.now ≡ line_end cause }
{
    match cause {
        Cause::Refused(Refusal::Usage) | Cause::OtherNumber | Cause::SignAlike => "",
        Cause::Refused(refusal) | Cause::BadKeys(refusal) => refusal.text(),
    }
}
