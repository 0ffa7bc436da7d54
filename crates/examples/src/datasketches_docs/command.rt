//! Examples of `crates/datasketches/src/command.rt`. Written by `tests/docs/examples.py`.
use datasketches::error::Error;
use datasketches::{Command, Refusal, Reply, Session};
use std::alloc::Global;

pub fn refusal_of_an_unknown_name(alloc: Global) -> Result<Option<Refusal>, Error> {
    let name = String::from_str(alloc, "visits")?;
    let mut session = Session::new(alloc);
    match session.apply(Command::Insert { name, item: 7_u64 }) {
        Reply::Refused(refusal) => Ok(Some(refusal)),
        _ => Ok(None),
    }
}
