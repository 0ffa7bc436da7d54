//! The text of records that are written.
ghost use Rattle.std.specs.Prelude.{◌≡◌, ◌<◌, ◌∷◌, ◌++◌, [], Some, OnOk, false, length};
ghost use Rattle.sketches.specs.EndedText.{Prints, is_unended, plain_after, text_in, without_end};
ghost use Rattle.sketches.specs.declared.print.ended_text.RecordForm.TheVariants.{Json};

use crate::print::json::append_lossy;
use crate::read::raw_lines::without_carriage_return;
use std::alloc::{AllocError, Global};

/// How the next record is written.
#[derive(Clone, Copy)]
pub enum RecordForm {
    /// With its end, if it has one.
    Plain,
    /// The same, after a line feed, since the record before it has none at its end.
    AfterFeed,
    /// Without its end, as the string of a JSON object in a line of its own.
    Json,
}

/// The text of records that are written next, one after another. A record without a line feed at its end, which is the last of its input,
/// gets one before the next record.
#[derive(Drop)]
pub struct EndedText {
    pub alloc: Global,
    pub bytes: Vec<u8>,
    /// How the next record is written.
    pub form: RecordForm,
}

impl EndedText {
    /// Appends a record with its end, if it has one, or the JSON object of the record without its end.
    ///
    /// # Errors
    ///
    /// Returns an error if an allocation fails.
    #[inline(always)]
    pub fn push(&mut self, raw: &[u8]) -> Result<(), AllocError>
        ensures { OnOk result (Prints (Some self.old.bytes.items) (Some self.new.bytes.items) self.old.form self.new.form (raw.now ∷ [])) }
    {
        match self.form {
            RecordForm::Plain => {}
            RecordForm::AfterFeed => self.bytes.push(b'\n')?,
            RecordForm::Json => return append_object(self.alloc, raw, &mut self.bytes),
        }
        self.bytes.extend_from_slice(raw)?;
        self.form = plain_after(raw);
        Ok(())
    }
}

/// Appends the JSON object of a record.
fn append_object(alloc: Global, raw: &[u8], out: &mut Vec<u8>) -> Result<(), AllocError>
    ensures { OnOk result (out.new.items ≡ out.old.items ++ text_in Json raw.now) }
{
    out.extend_from_slice(b"{\"line\":\"".as_slice())?;
    append_lossy(alloc, without_end(raw), out)?;
    out.extend_from_slice(b"\"}\n".as_slice())?;
    Ok(())
}

/// Returns a record without the line feed at its end and a carriage return before it.
fn without_end(raw: &[u8]) -> &[u8]
    ensures { result.now ≡ without_end raw.now }
{
    if is_unended(raw) {
        return raw;
    }
    without_carriage_return(&raw[..raw.len() - 1])
}

/// Returns the form of a record after this one, if records are written with their ends.
#[inline(always)]
fn plain_after(raw: &[u8]) -> RecordForm
    ensures { result ≡ plain_after raw.now }
{
    if is_unended(raw) {
        RecordForm::AfterFeed
    } else {
        RecordForm::Plain
    }
}

/// Returns whether a record has no line feed at its end.
#[inline(always)]
fn is_unended(raw: &[u8]) -> bool
    ensures nonempty { result ≡ false → 0 < length raw.now }
    ensures result { result ≡ is_unended raw.now }
{
    let len = raw.len();
    len == 0 || raw[len - 1] != b'\n'
}
