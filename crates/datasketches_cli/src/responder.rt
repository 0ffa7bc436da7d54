//! From lines to replies.
ghost use Rattle.std.specs.Prelude.{◌≡◌, [], IfOk, OnOk, string_bytes};
ghost use Rattle.datasketches_cli.specs.Serving.{HasOwnKeys, IsAnswered};
ghost use Rattle.datasketches_cli.specs.Steps.{nothing_served};

use crate::keys::Keys;
use crate::reply::{Outcome, write_done};
use crate::state::State;
use sketch_base::{Separator, first_words, from_utf8};
use std::alloc::{AllocError, Global};

/// The number of words of a line that are split off: one more than the longest request has.
const MAX_WORDS: usize = 7;

/// The outcome of a line.
#[derive(Clone, Copy)]
pub enum LineOutcome {
    /// The line has no words.
    Blank,
    /// The request of the line was done or rejected, and its reply was gathered.
    Answered,
    /// The line is not UTF-8 or not a request.
    Bad,
}

/// The state on which the lines of one input run, and their gathered replies.
#[derive(Drop)]
pub struct Responder {
    pub(crate) alloc: Global,
    pub(crate) keys: Keys,
    /// The session and the windows.
    pub(crate) state: State,
    /// The replies that were gathered and are not written yet.
    pub replies: String,
}

impl Responder {
    /// Creates a responder with an empty state under `keys`, and no replies. Does not allocate.
    pub fn new(alloc: Global, keys: Keys) -> Self
        ensures serves { result.state ≡ nothing_served result.state.session.keys }
        ensures keys { result.keys ≡ keys }
        ensures own { HasOwnKeys result }
        ensures gathers { string_bytes result.replies ≡ [] }
    {
        let state = State::new(alloc, &keys);
        Responder {
            alloc,
            keys,
            state,
            replies: String::new(alloc),
        }
    }

    /// Runs the request of a line without its end, and gathers the reply.
    pub fn answer_line(&mut self, line: &[u8]) -> Result<LineOutcome, AllocError>
        requires keys { HasOwnKeys self.old }
        ensures answered { IfOk result (IsAnswered line.now self.old self.new) }
        ensures keys { OnOk result (HasOwnKeys self.new) }
    {
        let Ok(text) = from_utf8(line) else {
            return Ok(LineOutcome::Bad);
        };
        let mut words = [""; MAX_WORDS];
        let count = first_words(text, Separator::Space, &mut words);
        let words = &words[..count];
        if words.is_empty() {
            return Ok(LineOutcome::Blank);
        }
        match self
            .state
            .run(self.alloc, &self.keys, &mut self.replies, words)
        {
            Outcome::NoRequest => Ok(LineOutcome::Bad),
            Outcome::Done(outcome) => {
                write_done(&mut self.replies, outcome)?;
                Ok(LineOutcome::Answered)
            }
            Outcome::Written => Ok(LineOutcome::Answered),
            Outcome::NoMemory => Err(AllocError),
        }
    }
}
