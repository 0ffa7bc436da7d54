//! What is done with the records of inputs.
ghost use Rattle.std.specs.Prelude.{◌≡◌, ℕ, List, [], ◌++◌, IfErr, OnOk};
ghost use Rattle.sketches.specs.Reading.{AreWholeRecords};
ghost use Rattle.sketches.specs.declared.failure.Failure.{Failure};
ghost use Rattle.sketch_text.specs.declared.records.Records.{Records};

use crate::failure::Failure;
use sketch_text::records::Records;
use std::alloc::Global;

/// Takes the records of inputs, in order, and may write to an output.
pub trait LineSink<O> {
    // How inputs are split into records.
    ghost splits: { Self → Records };

    // The sink began with the records of an input: before, and after. Nothing changes, unless a sink defines it.
    ghost begins: { Self → Self → Type 0 } = { λ old new. new ≡ old };

    // These bytes of records of an input were taken: the sink and the output before, and after.
    ghost takes: { Self × O → List ℕ → Self × O → Type 0 };

    // The failure may come while these bytes of records of an input are taken: the sink and the output before, and after.
    ghost fails: { Self × O → List ℕ → Self × O → Failure → Type 0 };

    /// Returns how inputs are split into records.
    fn records(&self) -> Records
        ensures { result ≡ splits self.now };

    /// Begins with the records of an input.
    fn begin(&mut self)
        ensures began { begins self.old self.new }
        ensures same { splits self.new ≡ splits self.old };

    /// Takes whole records, or records of which the last ends with its input.
    fn take(&mut self, alloc: Global, output: &mut O, bytes: &[u8]) -> Result<(), Failure>
        ensures taken { OnOk result (takes (self.old, output.old) bytes.now (self.new, output.new)) }
        ensures failed { IfErr result (fails (self.old, output.old) bytes.now (self.new, output.new)) };

    // The sink goes on to split inputs in the same way.
    ghost takes_same: { (r s : Self × O) (xs : List ℕ) → takes r xs s → splits s.0 ≡ splits r.0 };

    // No bytes change nothing.
    ghost takes_none: { (s : Self × O) → takes s [] s };

    // Whole records and the records after them are taken as one list.
    ghost takes_both: { (r s t : Self × O) (xs ys : List ℕ) → AreWholeRecords (splits r.0) xs → takes r xs s → takes s ys t → takes r (xs ++ ys) t };

    // A failure of whole records may come if records follow.
    ghost fails_sooner: { (r t : Self × O) (xs ys : List ℕ) (e : Failure) → AreWholeRecords (splits r.0) xs → fails r xs t e → fails r (xs ++ ys) t e };

    // A failure may come if whole records are taken before.
    ghost fails_later: { (r s t : Self × O) (xs ys : List ℕ) (e : Failure) → AreWholeRecords (splits r.0) xs → takes r xs s → fails s ys t e → fails r (xs ++ ys) t e };
}
