//! Commands of a session as rows of tables.
use crate::trial::Trial;
use datasketches::Command;
use datasketches::frequencies::ErrorType;

/// The seed of all sketches here.
const SEED: u64 = 9001;

/// What a command does, without its two strings.
#[derive(Clone, Copy)]
pub enum Does {
    /// Creates a sketch of frequent items with this maximum number of slots.
    CreateFrequent(usize),
    /// Creates a Count-Min sketch of 2 hashes and this number of buckets.
    CreateCountU64(u32),
    /// Creates the same with weights that may be below 0.
    CreateCountI64(u32),
    /// Creates a filter of 128 bits and this number of hashes.
    CreateBloom(u16),
    Add(u64),
    AddSigned(i64),
    Insert,
    Merge,
    Union,
    Intersect,
    Difference,
    Reset,
    Halve,
    Decay(u64, u64),
    Save,
    Restore,
    ShowImage,
    Ask,
    GetStatus,
    ListRows,
}

/// A command: the name of a sketch or of an image, what is done, and an item or a second name, if any.
pub type Row = (&'static str, Does, &'static str);

/// Returns the commands of the rows.
pub fn commands(trial: &mut Trial, rows: &[Row]) -> Vec<Command<String>> {
    let mut commands = Vec::new(trial.alloc);
    for (first, does, second) in rows {
        let first = trial.string(first);
        let second = trial.string(second);
        trial.check(commands.push(command(*does, first, second)));
    }
    commands
}

/// Returns the command of two strings.
fn command(does: Does, first: String, second: String) -> Command<String> {
    match does {
        Does::CreateFrequent(max_map_size) => Command::CreateFrequent {
            name: first,
            max_map_size,
        },
        Does::CreateCountU64(num_buckets) => Command::CreateCountU64 {
            name: first,
            num_hashes: 2,
            num_buckets,
            seed: SEED,
        },
        Does::CreateCountI64(num_buckets) => Command::CreateCountI64 {
            name: first,
            num_hashes: 2,
            num_buckets,
            seed: SEED,
        },
        Does::CreateBloom(num_hashes) => Command::CreateBloom {
            name: first,
            num_bits: 128,
            num_hashes,
            seed: SEED,
        },
        Does::Add(weight) => Command::Add {
            name: first,
            item: second,
            weight,
        },
        Does::AddSigned(weight) => Command::AddSigned {
            name: first,
            item: second,
            weight,
        },
        Does::Insert => Command::Insert {
            name: first,
            item: second,
        },
        Does::Merge => Command::Merge {
            into: first,
            other: second,
        },
        Does::Union => Command::Union {
            into: first,
            other: second,
        },
        Does::Intersect => Command::Intersect {
            into: first,
            other: second,
        },
        Does::Difference => Command::Difference {
            into: first,
            other: second,
        },
        Does::Reset => Command::Reset { name: first },
        Does::Halve => Command::Halve { name: first },
        Does::Decay(numerator, denominator) => Command::Decay {
            name: first,
            numerator,
            denominator,
        },
        Does::Save => Command::Save {
            name: first,
            image: second,
        },
        Does::Restore => Command::Restore {
            image: first,
            name: second,
        },
        Does::ShowImage => Command::ShowImage { image: first },
        Does::Ask => Command::Ask {
            name: first,
            item: second,
        },
        Does::GetStatus => Command::GetStatus { name: first },
        Does::ListRows => Command::ListRows {
            name: first,
            error_type: ErrorType::NoFalseNegatives,
            threshold: 0,
        },
    }
}
