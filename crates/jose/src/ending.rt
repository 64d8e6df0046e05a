//! The end of a run: a status, and one line after a refusal.
ghost use Rattle.std.specs.Prelude.{◌≡◌, ◌<◌, ◌++◌, OnOk, OnErr, IfErr};
ghost use Rattle.octets.specs.Devices.{greatest_count, next_count, AppendsPrefixOf, IsFinishedOnce};
ghost use Rattle.jose.specs.Reports.{status_of, report_line};

use octets::{Output, Refusal, write_whole};

/// Returns the program's status. After success it is 0, and nothing is written. After a refusal it is 1, and the refusal's line is written,
/// as far as the output accepts it.
pub fn report<O: Output>(outcome: Result<(), Refusal>, out: &mut O) -> u8
    ensures status { result ≡ status_of outcome }
    ensures quiet { OnOk outcome (out.new ≡ out.old) }
    ensures line { IfErr outcome (λ refusal.
        AppendsPrefixOf (report_line refusal) (O.written out.old) (O.written out.new)) }
    ensures whole { IfErr outcome (λ refusal. O.failures out.old < greatest_count
        → O.failures out.new ≡ O.failures out.old
        → (O.written out.new ≡ O.written out.old ++ report_line refusal)
        × IsFinishedOnce O.is_finished O.endings out.old out.new) }
{
    match outcome {
        Ok(()) => 0,
        Err(refusal) => {
            // If this output fails, there is nowhere left to report it.
            let _ = write_line(out, refusal);
            1
        }
    }
}

fn write_line<O: Output>(out: &mut O, refusal: Refusal) -> Result<(), Refusal>
    ensures part { AppendsPrefixOf (report_line refusal) (O.written out.old) (O.written out.new) }
    ensures whole { OnOk result ((O.written out.new ≡ O.written out.old ++ report_line refusal)
        × IsFinishedOnce O.is_finished O.endings out.old out.new) }
    ensures refusal { IfErr result (λ e. e ≡ Refusal.Write) }
    ensures fails { OnErr result (O.failures out.new ≡ next_count (O.failures out.old)) }
{
    write_whole(out, b"jose: ")?;
    write_whole(out, refusal.text().as_bytes())?;
    write_whole(out, b"\n")?;
    out.finish()?;
    Ok(())
}
