//! A session without names.
use crate::output::write_replies;
use crate::trial::{Trial, counted};
use datasketches::{Command, Session};

/// Writes the reply of a new session about a name.
pub fn session(trial: &mut Trial) {
    let alloc = trial.alloc;
    let name = trial.string("f");
    let reply = counted!(
        trial,
        Session::new(alloc).apply(Command::GetStatus { name })
    );
    write_replies(trial, &[reply]);
}
