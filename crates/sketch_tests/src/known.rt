//! Known results of calls that the library for C does not have: hashes of bytes that come in pieces, sketches of small numbers, keys
//! of strings, and printed values.
use crate::calls::frequent::one_row;
use crate::output::{write_debug, write_values};
use crate::trial::Trial;
use datasketches::bloom::{BloomFilter, BloomFilterBuilder};
use datasketches::countmin::{CountMinSketch, CountMinValue};
use datasketches::error::{Error, Fault};
use datasketches::frequencies::FrequentItemsSketch;
use datasketches::{Command, Refusal, Session};
use sketch_base::{MurmurHash3X64128, XxHash64};
use sketch_frequencies::OwnedKey;
use std::alloc::Global;
use std::hash::{Hash, Hasher};

/// Plays the trial with this name.
pub fn play(trial: &mut Trial, call: &str) {
    match call {
        "hashes" => hashes(trial),
        "weights" => weights(trial),
        "images" => images(trial),
        "keys" => keys(trial),
        "values" => values(trial),
        "refusals" => refusals(trial),
        _ => trial.fail(),
    }
}

/// A string that takes more than one block of each hash.
const FOX: &[u8] = b"The quick brown fox jumps over the lazy dog";

/// Another one.
const NOBODY: &[u8] = b"Nobody inspects the spammish repetition";

/// Writes the hashes of strings that are fed as a whole, cut at every index, and byte by byte.
fn hashes(trial: &mut Trial) {
    for at in 0..50 {
        let hashes = [
            xxh64(b"", at),
            xxh64(b"abc", at),
            xxh64(NOBODY, at),
            xxh64(FOX, at),
        ];
        write_values(trial, "xxh64", &hashes);
        let (low, high) = murmur3(FOX, at);
        write_values(trial, "murmur3", &[low, high]);
    }
}

/// Feeds bytes in two pieces, or byte by byte if they are shorter than the first piece.
fn feed<H: Hasher>(hasher: &mut H, text: &[u8], at: usize) {
    if at <= text.len() {
        hasher.write(&text[..at]);
        hasher.write(&text[at..]);
    } else {
        for byte in text {
            hasher.write_u8(*byte);
        }
    }
}

fn xxh64(text: &[u8], at: usize) -> u64 {
    let mut hasher = XxHash64::with_seed(0);
    feed(&mut hasher, text, at);
    hasher.finish()
}

fn murmur3(text: &[u8], at: usize) -> (u64, u64) {
    let mut hasher = MurmurHash3X64128::with_seed(0);
    feed(&mut hasher, text, at);
    hasher.finish128()
}

/// Writes sketches of small numbers after weights of which some would overflow, and the estimates of a crowded sketch.
fn weights(trial: &mut Trial) {
    let alloc = trial.alloc;
    write_debug(trial, "u8 ", &counted(alloc, (200_u8, 56, 55)));
    write_debug(trial, "i8 ", &counted(alloc, (-128_i8, -127, 1)));
    write_debug(trial, "i32 ", &crowded(alloc));
}

/// Returns whether a weight of one item is rejected, since the total would overflow.
fn overflows<T: CountMinValue>(sketch: &mut CountMinSketch<T>, weight: T) -> bool {
    sketch.update_with_weight("x", weight).is_err()
}

/// Adds three weights of one item in turn. Returns whether each is rejected, and then its estimate, the total and its
/// upper bound.
fn counted<T: CountMinValue>(
    alloc: Global,
    weights: (T, T, T),
) -> Result<([bool; 3], [T; 3]), Error> {
    let mut sketch = CountMinSketch::new(alloc, 4, 128)?;
    let rejected = [
        overflows(&mut sketch, weights.0),
        overflows(&mut sketch, weights.1),
        overflows(&mut sketch, weights.2),
    ];
    let numbers = [
        sketch.estimate("x"),
        sketch.total_weight(),
        sketch.upper_bound("x"),
    ];
    Ok((rejected, numbers))
}

/// Returns the estimates of ten items in a crowded sketch.
fn crowded(alloc: Global) -> Result<[i32; 10], Error> {
    let mut sketch = CountMinSketch::with_seed(alloc, 4, 4, 9001)?;
    let mut estimates = [0; 10];
    for item in 0..10_u64 {
        let weight = item as i32 + 1;
        sketch.update_with_weight(item, if item % 3 == 0 { -weight } else { weight })?;
    }
    for item in 0..10_u64 {
        estimates[item as usize] = sketch.estimate(item);
    }
    Ok(estimates)
}

/// The image of a sketch of one hash and three buckets under the seed 9001: the total 5, and the cells 5, 0 and -5.
const THREE_CELLS: [u8; 48] = [
    2, 1, 18, 0, 0, 0, 0, 0, 3, 0, 0, 0, 1, 0xcc, 0x93, 0, 5, 0, 0, 0, 0, 0, 0, 0, 5, 0, 0, 0, 0,
    0, 0, 0, 0, 0, 0, 0, 0, 0, 0, 0, 251, 255, 255, 255, 255, 255, 255, 255,
];

/// The image of a filter of one word with two set bits: one hash, the seed 9001, the count 2 and the word 3.
const TWO_BITS: [u8; 40] = [
    4, 1, 21, 0, 1, 0, 0, 0, 0x29, 0x23, 0, 0, 0, 0, 0, 0, 1, 0, 0, 0, 0, 0, 0, 0, 2, 0, 0, 0, 0,
    0, 0, 0, 3, 0, 0, 0, 0, 0, 0, 0,
];

/// Writes the totals, or the errors, of an image of small numbers, of which one is the maximum or too large.
fn images(trial: &mut Trial) {
    let alloc = trial.alloc;
    let mut image = THREE_CELLS;
    write_debug(trial, "i8 ", &total_of::<i8>(alloc, &image));
    write_debug(trial, "u8 ", &total_of::<u8>(alloc, &image));
    image[16] = 127;
    write_debug(trial, "i8 ", &total_of::<i8>(alloc, &image));
    image[16] = 128;
    write_debug(trial, "i8 ", &total_of::<i8>(alloc, &image));
}

/// Returns the total of an image's sketch.
fn total_of<T: CountMinValue>(alloc: Global, image: &[u8]) -> Result<T, Fault> {
    match CountMinSketch::<T>::deserialize(alloc, image) {
        Ok(sketch) => Ok(sketch.total_weight()),
        Err(e) => Err(e.fault()),
    }
}

/// Adds a key's item twice, through the bound alone.
fn add_twice<T: Eq + Hash + Drop, K: OwnedKey<T>>(
    sketch: &mut FrequentItemsSketch<T>,
    key: K,
) -> Result<(), Error> {
    sketch.update_item(key)?;
    sketch.update_item_with_count(key, 4)
}

/// Writes the bounds of a string by its key, by one call and by three.
fn keys(trial: &mut Trial) {
    let Ok(mut sketch) = FrequentItemsSketch::<String>::new(trial.alloc, 8) else {
        return trial.fail();
    };
    trial.check(add_twice(&mut sketch, "or"));
    write_debug(trial, "", &sketch.bounds_item("or"));
    let bounds = [
        sketch.lower_bound_item("or"),
        sketch.estimate_item("or"),
        sketch.upper_bound_item("or"),
    ];
    write_values(trial, "or", &bounds);
}

/// Writes values of types that implement `Debug` or `Display` by hand.
fn values(trial: &mut Trial) {
    let alloc = trial.alloc;
    write_debug(trial, "", &BloomFilterBuilder::with_size(100, 3).seed(5));
    write_debug(trial, "", &BloomFilter::deserialize(alloc, &TWO_BITS));
    write_debug(trial, "", &of_two(alloc));
    let name = trial.string("visits");
    write_debug(trial, "", &Command::Insert { name, item: 7_i64 });
    session(trial);
    row(trial);
}

/// Creates a sketch of two items and seven buckets.
fn of_two(alloc: Global) -> Result<CountMinSketch<i64>, Error> {
    let mut sketch = CountMinSketch::new(alloc, 4, 7)?;
    sketch.update_with_weight("apple", 5)?;
    sketch.update_with_weight("banana", -3)?;
    Ok(sketch)
}

/// Writes a session of one empty sketch.
fn session(trial: &mut Trial) {
    let mut session: Session<i64> = Session::new(trial.alloc);
    trial.check(session.create_frequent_items("visits", 8));
    write_debug(trial, "", &session);
}

/// Writes a row.
fn row(trial: &mut Trial) {
    let Ok(rows) = one_row(trial) else {
        return trial.fail();
    };
    for row in &rows {
        trial.write_value("row ", row);
        trial.write("\n");
    }
}

/// Writes the name and the message of each error of a session.
fn refusals(trial: &mut Trial) {
    let call = Refusal::Call(Error::invalid_argument(Fault::MapSizeTooSmall));
    for refusal in [
        Refusal::NoSuchName,
        Refusal::NameTaken,
        Refusal::WrongKind,
        Refusal::SameName,
        Refusal::BadFraction,
        call,
    ] {
        trial.write(refusal.name());
        trial.write_value(" ", &refusal);
        trial.write("\n");
    }
}
