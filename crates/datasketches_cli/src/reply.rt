//! Printing of replies.
ghost use Rattle.std.specs.Prelude.{◌≡◌, ◌++◌, OnOk, string_bytes, codes};
ghost use Rattle.hex.specs.Hex.{encode_lower};
ghost use Rattle.std.specs.List.{flat_map};
ghost use Rattle.datasketches.specs.Replies.{done_or};
ghost use Rattle.datasketches_cli.specs.Answers.{Replied, Reported};
ghost use Rattle.datasketches_cli.specs.Printing.{report_text, reply_text, status_text, row_text};
ghost use Rattle.datasketches_cli.specs.Serving.{IsGathered};
ghost use Rattle.datasketches_cli.specs.Transcript.{answer_line};

use datasketches::frequencies::Row;
use datasketches::{Refusal, Reply, Status};
use heavy_windows::Report;
use std::alloc::{AllocError, Global};
use std::fmt::Write;

/// The outcome of the words of a line.
pub enum Outcome {
    /// The words are no request. Nothing was done.
    NoRequest,
    /// The request was done or rejected. Its reply is not written yet.
    Done(Result<(), Refusal>),
    /// The request was done, and its reply was written.
    Written,
    /// Memory ran out outside the call of the request.
    NoMemory,
}

/// Writes the line of a request that was done or rejected.
#[inline(always)]
pub fn write_done(out: &mut String, outcome: Result<(), Refusal>) -> Result<(), AllocError>
    ensures { OnOk result (string_bytes out.new ≡ string_bytes out.old ++ answer_line (Replied (done_or outcome))) }
{
    match outcome {
        Ok(()) => out.push_str("ok\n"),
        Err(refusal) => write_refusal(out, refusal),
    }
}

/// Writes the line of a reply, and returns the outcome of its request.
pub fn replied(alloc: Global, out: &mut String, reply: &Reply<String>) -> Outcome
    ensures { IsGathered (Replied reply.now) (string_bytes out.old) result (string_bytes out.new) }
{
    match write_reply(alloc, out, reply) {
        Ok(()) => Outcome::Written,
        Err(_) => Outcome::NoMemory,
    }
}

/// Writes the line of a report on a tenant's windows, and returns the outcome of its request.
pub fn reported(out: &mut String, report: &Report<String>) -> Outcome
    ensures { IsGathered (Reported report.now) (string_bytes out.old) result (string_bytes out.new) }
{
    match write_report(out, report) {
        Ok(()) => Outcome::Written,
        Err(_) => Outcome::NoMemory,
    }
}

/// Writes the line of a rejection.
fn write_refusal(out: &mut String, refusal: Refusal) -> Result<(), AllocError>
    ensures { OnOk result (string_bytes out.new
        ≡ string_bytes out.old ++ answer_line (Replied (Reply.Refused refusal))) }
{
    writeln!(out, "refused {}", refusal.name())
}

/// Writes the line of a report on a tenant's windows.
fn write_report(out: &mut String, report: &Report<String>) -> Result<(), AllocError>
    ensures { OnOk result (string_bytes out.new ≡ string_bytes out.old ++ (report_text report.now ++ codes "\n")) }
{
    write!(
        out,
        "report total {} error {} rows {}",
        report.total_weight,
        report.maximum_error,
        report.rows.len()
    )?;
    write_rows(out, &report.rows)
}

/// Writes the line of a reply.
fn write_reply(alloc: Global, out: &mut String, reply: &Reply<String>) -> Result<(), AllocError>
    ensures { OnOk result (string_bytes out.new ≡ string_bytes out.old ++ (reply_text reply.now ++ codes "\n")) }
{
    match reply {
        Reply::Done => out.push_str("ok\n"),
        Reply::Bounds {
            estimate,
            lower,
            upper,
        } => writeln!(out, "estimate {estimate} lower {lower} upper {upper}"),
        Reply::Contains(true) => out.push_str("yes\n"),
        Reply::Contains(false) => out.push_str("no\n"),
        Reply::Status(status) => {
            write_status(out, status)?;
            out.push_str("\n")
        }
        Reply::Rows(rows) => {
            write!(out, "rows {}", rows.len())?;
            write_rows(out, rows)
        }
        Reply::Image(bytes) => write_image(alloc, out, bytes),
        Reply::Refused(refusal) => write_refusal(out, *refusal),
    }
}

/// Writes a sketch's kind and its numbers, without a line feed.
fn write_status(out: &mut String, status: &Status) -> Result<(), AllocError>
    ensures { OnOk result (string_bytes out.new ≡ string_bytes out.old ++ status_text status.now) }
{
    match status {
        Status::Frequent {
            active,
            error,
            total,
            size,
            max,
            capacity,
        } => write!(
            out,
            "frequent active {active} error {error} total {total} size {size} max {max} capacity {capacity}"
        ),
        Status::CountI64 {
            total,
            hashes,
            buckets,
            seed,
        } => write!(
            out,
            "counti total {total} hashes {hashes} buckets {buckets} seed {seed}"
        ),
        Status::CountU64 {
            total,
            hashes,
            buckets,
            seed,
        } => write!(
            out,
            "countu total {total} hashes {hashes} buckets {buckets} seed {seed}"
        ),
        Status::Bloom {
            bits,
            capacity,
            hashes,
            seed,
        } => write!(
            out,
            "bloom bits {bits} capacity {capacity} hashes {hashes} seed {seed}"
        ),
    }
}

/// Writes the line of an image: its bytes as hexadecimal digits.
fn write_image(alloc: Global, out: &mut String, bytes: &[u8]) -> Result<(), AllocError>
    ensures { OnOk result (string_bytes out.new ≡ string_bytes out.old ++ (codes "image " ++ encode_lower bytes.now ++ codes "\n")) }
{
    let digits = hex::encode(alloc, bytes)?;
    writeln!(out, "image {digits}")
}

/// Writes the items of a report with their numbers, and a line feed.
fn write_rows(out: &mut String, rows: &[Row<String>]) -> Result<(), AllocError>
    ensures { OnOk result (string_bytes out.new ≡ string_bytes out.old ++ (flat_map row_text rows.now ++ codes "\n")) }
{
    for row in rows {
        write!(
            out,
            " {} {} {} {}",
            row.item(),
            row.estimate(),
            row.lower_bound(),
            row.upper_bound()
        )?;
    }
    out.push_str("\n")
}
