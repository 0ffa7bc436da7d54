//! Examples of `crates/datasketches/src/reply.rt`. Written by `tests/docs/examples.py`.
use datasketches::{Bounds, Command, Refusal, Reply, Session, Status};

pub fn is_done(session: &mut Session<u64>, command: Command<u64>) -> bool {
    matches!(session.apply(command), Reply::Done)
}

pub fn is_exact(bounds: Bounds) -> bool {
    bounds.lower == bounds.upper
}

pub fn max_slots(status: Status) -> Option<usize> {
    match status {
        Status::Frequent { max, .. } => Some(max),
        _ => None,
    }
}

pub fn word_for(refusal: Refusal) -> &'static str {
    refusal.name()
}
