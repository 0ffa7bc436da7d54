//! Results of the examples of sessions.
use super::RANDOM;
use crate::datasketches_docs::{command, image_kind, readme, reply, session};
use crate::lines::ResultLines;
use datasketches::bloom::BloomFilterBuilder;
use datasketches::error::Error;
use datasketches::{Bounds, Command, Refusal, Session, Status};
use std::alloc::Global;
use std::hash::RandomState;

/// The bounds of a weight of 5.
const EXACTLY_5: Bounds = Bounds {
    estimate: 5,
    lower: 5,
    upper: 5,
};

/// The status of a sketch that has no slots.
const COUNTS: Status = Status::CountU64 {
    total: 0,
    hashes: 4,
    buckets: 128,
    seed: 9001,
};

pub fn write(lines: &mut ResultLines, state: RandomState) {
    let alloc = lines.alloc;
    lines.show("has_seen_seven", &readme::has_seen_seven(alloc));
    lines.show("visits_by_seven", &session::visits_by_seven(alloc));
    lines.show(
        "refusal_of_an_unknown_name",
        &command::refusal_of_an_unknown_name(alloc),
    );
    lines.show("is_exact", &reply::is_exact(EXACTLY_5));
    lines.show("max_slots", &reply::max_slots(COUNTS));
    lines.show("word_for", &reply::word_for(Refusal::NameTaken));
    lines.show("is_done", &is_done_without_names(alloc));
    lines.show("takes_filter", &takes_a_filter_twice(alloc));
    lines.show("session_of_strangers", &takes_a_name_twice(alloc, state));
    lines.show("keyed_session", &takes_a_name(alloc));
}

/// Returns whether a command on an unknown name is done.
fn is_done_without_names(alloc: Global) -> bool {
    let name = String::new(alloc);
    reply::is_done(&mut Session::new(alloc), Command::Reset { name })
}

/// Returns whether an image is accepted under a name, and whether it is accepted again under the same name.
fn takes_a_filter_twice(alloc: Global) -> Result<[bool; 2], Error> {
    let image = BloomFilterBuilder::with_size(64, 1)
        .build(alloc)?
        .serialize()?;
    let mut session = Session::new(alloc);
    let first = image_kind::takes_filter(&mut session, "", &image);
    Ok([first, image_kind::takes_filter(&mut session, "", &image)])
}

/// Returns whether a session takes a name, and whether it takes the same name again.
fn takes_a_name_twice(alloc: Global, state: RandomState) -> [bool; 2] {
    let mut names = session::session_of_strangers(alloc, &RANDOM, state);
    let first = names.create_frequent_items("visits", 64).is_ok();
    [first, names.create_frequent_items("visits", 64).is_ok()]
}

fn takes_a_name(alloc: Global) -> bool {
    let mut names = session::keyed_session(alloc, &RANDOM);
    names.create_frequent_items("visits", 64).is_ok()
}
