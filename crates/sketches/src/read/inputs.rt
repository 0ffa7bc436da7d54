//! Reads the records of inputs that are opened one after another.
ghost use Rattle.std.specs.Prelude.{◌≡◌, ◌&&◌, ℕ, Bool, not, List, [], Option, None, is_some, IfErr, IfOk, IfSome, OnOk};
ghost use Rattle.sketches.specs.Inputs.{FailsBegun, FailsInputs, HaveLongRecord, OpensNext, TakesBegun, TakesInputs};
ghost use Rattle.sketches.specs.Reading.{FailsInput, HasLongRecord, TakesInput};

use crate::failure::Failure;
use crate::read::line_sink::LineSink;
use crate::read::line_source::LineSource;
use crate::read::reading::read_lines;
use std::alloc::Global;
use std::io;

/// Inputs that are opened one after another.
pub trait Inputs {
    type Reader: LineSource + Drop;

    // The bytes of each input that is left and can be opened, where they are known.
    ghost inputs: { Self → Option (List (List ℕ)) } = { λ _. None };

    // For each of these inputs, whether a read fails after its bytes.
    ghost fails: { Self → List Bool } = { λ _. [] };

    /// Opens the next input that can be opened. Returns `None` if none is left.
    fn next(&mut self) -> Option<Self::Reader>
        ensures { OpensNext Self.Reader.remaining Self.Reader.fails (inputs self.old) (inputs self.new) (fails self.old) (fails self.new) result };

    /// Reports that a read of the input that was opened last failed.
    fn report(&mut self, error: io::Error)
        ensures kept { inputs self.new ≡ inputs self.old }
        ensures same { fails self.new ≡ fails self.old };
}

/// Passes the records of each input to a sink. The last record of an input ends with it. Returns whether no read failed.
///
/// If a read fails, the records of that input that were read whole are taken, and then the next input.
///
/// # Errors
///
/// Returns those of [`read_lines`].
pub fn read_inputs<I: Inputs, O, S: LineSink<O>>(
    alloc: Global,
    sink: &mut S,
    output: &mut O,
    inputs: &mut I,
    buffer: &mut Vec<u8>,
    limit: usize,
) -> Result<bool, Failure>
    ensures taken { IfOk result (λ complete.
        TakesInputs (S.splits sink.old) (TakesBegun S.begins S.takes) (I.inputs inputs.old) (I.fails inputs.old) complete (sink.old, output.old) (sink.new, output.new)) }
    ensures fits { OnOk result (IfSome (I.inputs inputs.old) (λ all. HaveLongRecord (S.splits sink.old) limit all → ⊥)) }
    ensures failed { IfErr result (FailsInputs (S.splits sink.old) (TakesBegun S.begins S.takes) S.fails (FailsBegun S.begins S.fails) limit (I.inputs inputs.old) (sink.old, output.old) (sink.new, output.new)) }
{
    let mut complete = true;
    'each: for _ in 0..u64::MAX {
        let Some(mut reader) = inputs.next() else {
            return Ok(complete);
        };
        let failure = read_input(alloc, sink, output, &mut reader, buffer, limit)?;
        complete = is_complete(inputs, failure, complete);
    }
    Err(Failure::Memory)
}

/// Passes the records of an input to a sink, which begins with them. Returns the error of a read, if any.
fn read_input<R: LineSource, O, S: LineSink<O>>(
    alloc: Global,
    sink: &mut S,
    output: &mut O,
    reader: &mut R,
    buffer: &mut Vec<u8>,
    limit: usize,
) -> Result<Option<io::Error>, Failure>
    ensures taken { IfOk result (λ failure.
        TakesInput (S.splits sink.old) (TakesBegun S.begins S.takes) (R.remaining reader.old) (R.fails reader.old) failure (sink.old, output.old) (sink.new, output.new)) }
    ensures fits { OnOk result (IfSome (R.remaining reader.old) (λ bytes. HasLongRecord (S.splits sink.old) limit bytes → ⊥)) }
    ensures same { OnOk result (S.splits sink.new ≡ S.splits sink.old) }
    ensures failed { IfErr result (FailsInput (S.splits sink.old) (TakesBegun S.begins S.takes) S.fails (FailsBegun S.begins S.fails) limit (R.remaining reader.old) (sink.old, output.old) (sink.new, output.new)) }
{
    sink.begin();
    read_lines(alloc, sink, output, reader, buffer, limit)
}

/// Reports the error of a read, if any. Returns whether there is none and `complete` was true.
fn is_complete<I: Inputs>(inputs: &mut I, failure: Option<io::Error>, complete: bool) -> bool
    ensures kept { I.inputs inputs.new ≡ I.inputs inputs.old }
    ensures same { I.fails inputs.new ≡ I.fails inputs.old }
    ensures whole { result ≡ (complete && not (is_some failure)) }
{
    match failure {
        None => complete,
        Some(error) => {
            inputs.report(error);
            false
        }
    }
}
