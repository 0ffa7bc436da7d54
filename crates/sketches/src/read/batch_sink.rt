//! What is done with records and their items.
ghost use Rattle.std.specs.Prelude.{◌≡◌, ◌≤◌, ◌∷◌, ◌++◌, ℕ, [], List, IfErr, OnOk, length, map};
ghost use Rattle.sketch_base.specs.Strings.{strings_at};
ghost use Rattle.sketch_text.specs.Records.{records_by};
ghost use Rattle.sketches.specs.Unseen.{item_of};
ghost use Rattle.sketch_text.specs.declared.record_part.RecordPart.{RecordPart};

use crate::failure::Failure;
use crate::read::batches::BATCH;
use sketch_text::records::RecordPart;
use std::alloc::Global;

/// Takes records, in order, many at once if their items are known.
pub trait BatchSink {
    // These records with their ends were taken, and this part of each is its item: the sink before, and after.
    ghost takes: { RecordPart → Self → List (List ℕ) → Self → Type 0 };

    /// Takes records with their ends, each of which has an item.
    fn take_batch(
        &mut self,
        part: RecordPart,
        raws: &[&[u8]],
        items: &[&str],
    ) -> Result<(), Failure>
        requires few { length raws.now ≤ BATCH }
        requires same { length items.now ≡ length raws.now }
        requires items { map (item_of part) (strings_at raws.now) ≡ map (λ x. x ∷ []) (strings_at items.now) }
        ensures taken { OnOk result (takes part self.old (strings_at raws.now) self.new) }
        ensures failed { IfErr result (λ failure. failure ≡ Failure.Memory) };

    /// Takes one record with its end. `row` is the record without it.
    fn take_record(
        &mut self,
        alloc: Global,
        part: RecordPart,
        raw: &[u8],
        row: &[u8],
    ) -> Result<(), Failure>
        requires { records_by part raw.now ≡ row.now ∷ [] }
        ensures taken { OnOk result (takes part self.old (raw.now ∷ []) self.new) }
        ensures failed { IfErr result (λ failure. failure ≡ Failure.Memory) };

    // No records change nothing.
    ghost takes_none: { (part : RecordPart) (s : Self) → takes part s [] s };

    // Records and those after them are taken as one list.
    ghost takes_both: { (part : RecordPart) (r s t : Self) (xs ys : List (List ℕ)) → takes part r xs s → takes part s ys t → takes part r (xs ++ ys) t };
}
