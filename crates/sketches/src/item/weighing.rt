//! The items of a record and their weights.
ghost use Rattle.std.specs.Prelude.{◌≡◌};
ghost use Rattle.sketches.specs.Weighed.{splits_of};

use crate::item::selection::Selection;
use sketch_text::records::{Part, RecordPart, Records};

/// The items of a record and their weights. A record is a line, or one of CSV.
#[derive(Clone, Copy)]
pub enum Weighing {
    /// Each item has a weight of 1.
    Once(Selection),
    /// A part of the line is its item, and another part has its weight.
    Field(WeighedPart),
    /// A part of the record is its item, and another part may have its weight.
    Record(WeighedRecord),
}

impl Weighing {
    /// Returns how inputs are split into records.
    pub fn records(self) -> Records
        ensures { result ≡ splits_of self }
    {
        match self {
            Weighing::Once(_) => Records::Lines,
            Weighing::Field(_) => Records::Lines,
            Weighing::Record(chosen) => chosen.item.records(),
        }
    }
}

/// What is done with a record that has an item and no weight.
#[derive(Clone, Copy)]
pub enum Unweighed {
    /// It ends the run with an error.
    Fails,
    /// Its weight is 0.
    IsZero,
}

/// A part of a line, and the part with its weight.
#[derive(Clone, Copy)]
pub struct WeighedPart {
    pub item: Part,
    pub weight: Part,
    /// What is done with a line that has an item and no weight.
    pub unweighed: Unweighed,
}

/// A part of a record that is its item, and the part with its weight. The weight is 1 if no part has it.
#[derive(Clone, Copy)]
pub struct WeighedRecord {
    pub item: RecordPart,
    pub weight: Option<RecordPart>,
    /// What is done with a record that has an item and no weight.
    pub unweighed: Unweighed,
}
