//! The header of records that are written.
ghost use Rattle.std.specs.Io.KnownBytes.{Appends};
ghost use Rattle.std.specs.Prelude.{IfErr, OnErr, OnOk};
ghost use Rattle.sketches.specs.Failures.{FailsWriting};
ghost use Rattle.sketches.specs.Outputs.{WritesFront};

use crate::failure::Failure;
use crate::print::output::Output;

/// Writes a header, which may have no bytes.
///
/// # Errors
///
/// Returns `Write` if the writer fails.
pub fn write_header<W: Output>(header: &[u8], writer: &mut W) -> Result<(), Failure>
    ensures written { OnOk result (Appends (W.contents writer.old) (W.contents writer.new) header.now) }
    ensures front { OnErr result (WritesFront (W.contents writer.old) (W.contents writer.new) header.now) }
    ensures failed { IfErr result (FailsWriting (W.failure writer.new)) }
{
    match writer.write_all(header) {
        Ok(()) => Ok(()),
        Err(e) => Err(Failure::Write(e)),
    }
}
