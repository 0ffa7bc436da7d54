//! The verbs of lines: each parses the words after it, and calls the session or the windows.
//!
//! Names and items are slices of the line.
ghost use Rattle.std.specs.Prelude.{◌≡◌, ℕ, List, [], ◌∷◌, Some, OnErr, IsErr, IsTrue, IsSome, Err, IfOk, option_map, string_bytes};
ghost use Rattle.std.specs.Char.{is_ascii_hexdigit};
ghost use Rattle.std.specs.List.{list_all};
ghost use Rattle.sketch_base.specs.Errors.{no_memory};
ghost use Rattle.sketch_base.specs.Strings.{strings_at};
ghost use Rattle.datasketches.specs.Actions as action;
ghost use Rattle.datasketches_cli.specs.Grammar.{add_of, adds_of, bloom_of, counts_of, decay_of, frequent_of, hadd_of};
ghost use Rattle.datasketches_cli.specs.Grammar.{hreport_of, hturn_of, load_of, load_seeded_of, rows_of, sampled_of, windows_of};
ghost use Rattle.datasketches_cli.specs.Grammar.{bytes_of_digits, count_min_sizes, filter_sizes, plain_kind, report_of, request_of, seeded_kind};
ghost use Rattle.datasketches_cli.specs.KeyValues.{table_key};
ghost use Rattle.datasketches_cli.specs.Requests.{Request};
ghost use Rattle.datasketches_cli.specs.Serving.{Runs};

use crate::keys::Keys;
use crate::number::{number_below, number_of, signed_number};
use crate::reply::{Outcome, replied, reported};
use crate::state::{State, add, open, report, turn};
use datasketches::bloom::BloomFilterBuilder;
use datasketches::countmin::CountMinSizes;
use datasketches::error::Fault;
use datasketches::frequencies::{ErrorType, FrequentItemsSizes};
use datasketches::{ImageKind, Refusal, Reply};
use hex::FromHexError;
use std::alloc::{AllocError, Global};

impl State {
    /// Runs the request of a line's words. The line of a query's reply is written to `out`.
    #[inline(always)]
    pub fn run(&mut self, alloc: Global, keys: &Keys, out: &mut String, words: &[&str]) -> Outcome
        requires key { self.old.session.keys.table ≡ table_key keys.now }
        ensures { Runs (request_of (strings_at words.now))
            self.old (string_bytes out.old) result self.new (string_bytes out.new) }
    {
        match words {
            [verb, a] => self.run_one(alloc, out, verb, a),
            [verb, a, b] => self.run_two(alloc, keys, out, verb, a, b),
            [verb, a, b, c] => self.run_three(alloc, out, verb, a, b, c),
            [verb, a, b, c, d] => self.run_four(alloc, verb, a, b, c, d),
            [verb, a, b, c, d, e] => self.run_five(alloc, verb, a, b, c, d, e),
            _ => Outcome::NoRequest,
        }
    }

    /// Runs the request of a verb and one word.
    fn run_one(&mut self, alloc: Global, out: &mut String, verb: &str, a: &str) -> Outcome
        ensures { Runs (request_of (verb.now ∷ a.now ∷ []))
            self.old (string_bytes out.old) result self.new (string_bytes out.new) }
    {
        match verb {
            "reset" => Outcome::Done(self.session.reset(a)),
            "halve" => Outcome::Done(self.session.halve(a)),
            "image" => self.image(alloc, out, a),
            "status" => self.status(alloc, out, a),
            "hturn" => self.hturn(a),
            _ => Outcome::NoRequest,
        }
    }

    /// Runs the request of a verb and two words.
    #[inline(always)]
    fn run_two(
        &mut self,
        alloc: Global,
        keys: &Keys,
        out: &mut String,
        verb: &str,
        a: &str,
        b: &str,
    ) -> Outcome
        requires key { self.old.session.keys.table ≡ table_key keys.now }
        ensures { Runs (request_of (verb.now ∷ a.now ∷ b.now ∷ []))
            self.old (string_bytes out.old) result self.new (string_bytes out.new) }
    {
        match verb {
            "insert" => Outcome::Done(self.session.insert(a, b)),
            "ask" => self.ask(alloc, out, a, b),
            "frequent" => self.frequent(a, b),
            "merge" => Outcome::Done(self.session.merge(a, b)),
            "union" => Outcome::Done(self.session.union(a, b)),
            "intersect" => Outcome::Done(self.session.intersect(a, b)),
            "difference" => Outcome::Done(self.session.difference(a, b)),
            "save" => Outcome::Done(self.session.save(a, b)),
            "restore" => Outcome::Done(self.session.restore(a, b)),
            "windows" => self.open_windows(alloc, keys, a, b),
            _ => Outcome::NoRequest,
        }
    }

    /// Runs the request of a verb and three words.
    #[inline(always)]
    fn run_three(
        &mut self,
        alloc: Global,
        out: &mut String,
        verb: &str,
        a: &str,
        b: &str,
        c: &str,
    ) -> Outcome
        ensures { Runs (request_of (verb.now ∷ a.now ∷ b.now ∷ c.now ∷ []))
            self.old (string_bytes out.old) result self.new (string_bytes out.new) }
    {
        match verb {
            "add" => self.add(alloc, a, b, c),
            "adds" => self.adds(a, b, c),
            "sampled" => self.sampled(a, b, c),
            "decay" => self.decay(a, b, c),
            "rows" => self.rows(alloc, out, a, b, c),
            "hadd" => self.hadd(alloc, a, b, c),
            "hreport" => self.hreport(out, a, b, c),
            _ => Outcome::NoRequest,
        }
    }

    /// Runs the request of a verb and four words.
    fn run_four(&mut self, alloc: Global, verb: &str, a: &str, b: &str, c: &str, d: &str) -> Outcome
        ensures { (lines : List ℕ) → Runs (request_of (verb.now ∷ a.now ∷ b.now ∷ c.now ∷ d.now ∷ []))
            self.old lines result self.new lines }
    {
        match verb {
            "counti" => self.counti(a, b, c, d),
            "countu" => self.countu(a, b, c, d),
            "bloom" => self.bloom(a, b, c, d),
            "load" => self.load(alloc, a, plain_kind(b), c, d),
            _ => Outcome::NoRequest,
        }
    }

    /// Runs the request of a verb and five words.
    fn run_five(
        &mut self,
        alloc: Global,
        verb: &str,
        a: &str,
        b: &str,
        c: &str,
        d: &str,
        e: &str,
    ) -> Outcome
        ensures { (lines : List ℕ) → Runs (request_of (verb.now ∷ a.now ∷ b.now ∷ c.now ∷ d.now ∷ e.now ∷ []))
            self.old lines result self.new lines }
    {
        match verb {
            "load" => self.load_seeded(alloc, a, b, c, d, e),
            _ => Outcome::NoRequest,
        }
    }

    /// Writes the bytes of an image.
    fn image(&self, alloc: Global, out: &mut String, name: &str) -> Outcome
        ensures { Runs (Some (Request.Act (action.ShowImage name.now)))
            self.now (string_bytes out.old) result self.now (string_bytes out.new) }
    {
        match self.session.image(name) {
            Ok(bytes) => replied(alloc, out, &Reply::Image(bytes)),
            Err(refusal) => Outcome::Done(Err(refusal)),
        }
    }

    /// Writes the numbers of a sketch.
    fn status(&self, alloc: Global, out: &mut String, name: &str) -> Outcome
        ensures { Runs (Some (Request.Act (action.GetStatus name.now)))
            self.now (string_bytes out.old) result self.now (string_bytes out.new) }
    {
        match self.session.status(name) {
            Ok(status) => replied(alloc, out, &Reply::Status(status)),
            Err(refusal) => Outcome::Done(Err(refusal)),
        }
    }

    /// Opens an empty window for a tenant.
    fn hturn(&mut self, tenant: &str) -> Outcome
        ensures { (lines : List ℕ) → Runs (hturn_of tenant.now) self.old lines result self.new lines }
    {
        let Some(tenant) = number_of(tenant) else {
            return Outcome::NoRequest;
        };
        Outcome::Done(turn(&mut self.windows, tenant))
    }

    /// Writes what a sketch returns of an item.
    fn ask(&self, alloc: Global, out: &mut String, name: &str, item: &str) -> Outcome
        ensures { Runs (Some (Request.Act (action.Ask name.now item.now)))
            self.now (string_bytes out.old) result self.now (string_bytes out.new) }
    {
        match self.session.ask(name, item) {
            Ok(reply) => replied(alloc, out, &reply),
            Err(refusal) => Outcome::Done(Err(refusal)),
        }
    }

    /// Creates a sketch of frequent items.
    fn frequent(&mut self, name: &str, max_map_size: &str) -> Outcome
        ensures { (lines : List ℕ) → Runs (frequent_of name.now max_map_size.now)
            self.old lines result self.new lines }
    {
        let Some(max_map_size) = number_of(max_map_size) else {
            return Outcome::NoRequest;
        };
        Outcome::Done(
            self.session
                .create_frequent_items(name, max_map_size as usize),
        )
    }

    /// Creates windows.
    fn open_windows(
        &mut self,
        alloc: Global,
        keys: &Keys,
        limit: &str,
        max_map_size: &str,
    ) -> Outcome
        requires key { self.old.session.keys.table ≡ table_key keys.now }
        ensures { (lines : List ℕ) → Runs (windows_of limit.now max_map_size.now)
            self.old lines result self.new lines }
    {
        let Some(limit) = number_of(limit) else {
            return Outcome::NoRequest;
        };
        let Some(max_map_size) = number_of(max_map_size) else {
            return Outcome::NoRequest;
        };
        Outcome::Done(open(alloc, keys, &mut self.windows, limit, max_map_size))
    }

    /// Adds a string with a weight. It is copied only if a sketch has to keep it.
    #[inline(always)]
    fn add(&mut self, alloc: Global, name: &str, weight: &str, item: &str) -> Outcome
        ensures { (lines : List ℕ) → Runs (add_of name.now weight.now item.now)
            self.old lines result self.new lines }
    {
        let Some(weight) = number_of(weight) else {
            return Outcome::NoRequest;
        };
        let outcome = self.session.add_by_key(name, item, weight);
        if is_out_of_memory(&outcome) {
            // the error of the copy ends the run, and that of a table that must double is a reply
            return match String::from_str(alloc, item) {
                Ok(item) => Outcome::Done(self.session.add(name, item, weight)),
                Err(_) => Outcome::NoMemory,
            };
        }
        Outcome::Done(outcome)
    }

    /// Adds a string with a signed weight.
    fn adds(&mut self, name: &str, weight: &str, item: &str) -> Outcome
        ensures { (lines : List ℕ) → Runs (adds_of name.now weight.now item.now)
            self.old lines result self.new lines }
    {
        let Some(weight) = signed_number(weight) else {
            return Outcome::NoRequest;
        };
        Outcome::Done(self.session.add_signed(name, item, weight))
    }

    /// Creates a sketch of frequent items with a sample size.
    fn sampled(&mut self, name: &str, max_map_size: &str, sample_size: &str) -> Outcome
        ensures { (lines : List ℕ) → Runs (sampled_of name.now max_map_size.now sample_size.now)
            self.old lines result self.new lines }
    {
        let Some(max_map_size) = number_of(max_map_size) else {
            return Outcome::NoRequest;
        };
        let Some(sample_size) = number_of(sample_size) else {
            return Outcome::NoRequest;
        };
        let sizes = FrequentItemsSizes {
            max_map_size: max_map_size as usize,
            sample_size: sample_size as usize,
        };
        Outcome::Done(self.session.create_frequent_items_with_sizes(name, sizes))
    }

    /// Multiplies the weights of a sketch by a fraction.
    fn decay(&mut self, name: &str, numerator: &str, denominator: &str) -> Outcome
        ensures { (lines : List ℕ) → Runs (decay_of name.now numerator.now denominator.now)
            self.old lines result self.new lines }
    {
        let Some(numerator) = number_of(numerator) else {
            return Outcome::NoRequest;
        };
        let Some(denominator) = number_of(denominator) else {
            return Outcome::NoRequest;
        };
        Outcome::Done(self.session.decay(name, numerator, denominator))
    }

    /// Writes the frequent items of a sketch.
    fn rows(
        &self,
        alloc: Global,
        out: &mut String,
        name: &str,
        error_type: &str,
        threshold: &str,
    ) -> Outcome
        ensures { Runs (rows_of name.now error_type.now threshold.now)
            self.now (string_bytes out.old) result self.now (string_bytes out.new) }
    {
        let Some(error_type) = report_of(error_type) else {
            return Outcome::NoRequest;
        };
        let Some(threshold) = number_of(threshold) else {
            return Outcome::NoRequest;
        };
        match self.session.rows(name, error_type, threshold) {
            Ok(rows) => replied(alloc, out, &Reply::Rows(rows)),
            Err(refusal) => Outcome::Done(Err(refusal)),
        }
    }

    /// Adds a string with a weight to a tenant's newest window.
    fn hadd(&mut self, alloc: Global, tenant: &str, weight: &str, item: &str) -> Outcome
        ensures { (lines : List ℕ) → Runs (hadd_of tenant.now weight.now item.now)
            self.old lines result self.new lines }
    {
        let Some(tenant) = number_of(tenant) else {
            return Outcome::NoRequest;
        };
        let Some(weight) = number_of(weight) else {
            return Outcome::NoRequest;
        };
        match String::from_str(alloc, item) {
            Ok(item) => Outcome::Done(add(&mut self.windows, tenant, weight, item)),
            Err(_) => Outcome::NoMemory,
        }
    }

    /// Writes a report on a tenant's windows.
    fn hreport(&self, out: &mut String, tenant: &str, error_type: &str, threshold: &str) -> Outcome
        ensures { Runs (hreport_of tenant.now error_type.now threshold.now)
            self.now (string_bytes out.old) result self.now (string_bytes out.new) }
    {
        let Some(tenant) = number_of(tenant) else {
            return Outcome::NoRequest;
        };
        let Some(error_type) = report_of(error_type) else {
            return Outcome::NoRequest;
        };
        let Some(threshold) = number_of(threshold) else {
            return Outcome::NoRequest;
        };
        match report(&self.windows, tenant, error_type, threshold) {
            Ok(report) => reported(out, &report),
            Err(refusal) => Outcome::Done(Err(refusal)),
        }
    }

    /// Creates a Count-Min sketch of signed weights.
    fn counti(&mut self, name: &str, num_hashes: &str, num_buckets: &str, seed: &str) -> Outcome
        ensures { (lines : List ℕ) → Runs (counts_of action.CountI64 name.now num_hashes.now num_buckets.now seed.now)
            self.old lines result self.new lines }
    {
        let Some(sizes) = count_min_sizes(num_hashes, num_buckets, seed) else {
            return Outcome::NoRequest;
        };
        Outcome::Done(self.session.create_count_min_i64(name, sizes))
    }

    /// Creates a Count-Min sketch of unsigned weights.
    fn countu(&mut self, name: &str, num_hashes: &str, num_buckets: &str, seed: &str) -> Outcome
        ensures { (lines : List ℕ) → Runs (counts_of action.CountU64 name.now num_hashes.now num_buckets.now seed.now)
            self.old lines result self.new lines }
    {
        let Some(sizes) = count_min_sizes(num_hashes, num_buckets, seed) else {
            return Outcome::NoRequest;
        };
        Outcome::Done(self.session.create_count_min_u64(name, sizes))
    }

    /// Creates a filter.
    fn bloom(&mut self, name: &str, num_bits: &str, num_hashes: &str, seed: &str) -> Outcome
        ensures { (lines : List ℕ) → Runs (bloom_of name.now num_bits.now num_hashes.now seed.now)
            self.old lines result self.new lines }
    {
        let Some(sizes) = filter_sizes(num_bits, num_hashes, seed) else {
            return Outcome::NoRequest;
        };
        Outcome::Done(self.session.create_bloom_filter(name, sizes))
    }

    /// Creates a sketch from the bytes that digits spell, of a kind with a seed.
    fn load_seeded(
        &mut self,
        alloc: Global,
        name: &str,
        kind: &str,
        max_bytes: &str,
        seed: &str,
        digits: &str,
    ) -> Outcome
        ensures { (lines : List ℕ) → Runs (load_seeded_of name.now kind.now max_bytes.now seed.now digits.now)
            self.old lines result self.new lines }
    {
        let Some(seed) = number_of(seed) else {
            return Outcome::NoRequest;
        };
        self.load(alloc, name, seeded_kind(kind, seed), max_bytes, digits)
    }

    /// Creates a sketch from the bytes that digits spell.
    fn load(
        &mut self,
        alloc: Global,
        name: &str,
        kind: Option<ImageKind>,
        max_bytes: &str,
        digits: &str,
    ) -> Outcome
        ensures { (lines : List ℕ) → Runs (load_of name.now kind max_bytes.now digits.now)
            self.old lines result self.new lines }
    {
        let Some(kind) = kind else {
            return Outcome::NoRequest;
        };
        let Some(max_bytes) = number_of(max_bytes) else {
            return Outcome::NoRequest;
        };
        match bytes_of(alloc, digits) {
            Ok(Some(image)) => Outcome::Done(
                self.session.load(name, kind, &image, max_bytes as usize),
            ),
            Ok(None) => Outcome::NoRequest,
            Err(_) => Outcome::NoMemory,
        }
    }
}

/// Returns whether a call ran out of memory.
fn is_out_of_memory(outcome: &Result<(), Refusal>) -> bool
    ensures rejected { IsTrue result → IsErr outcome.now }
    ensures memory { outcome.now ≡ Err (Refusal.Call no_memory) → IsTrue result }
{
    match outcome {
        Err(Refusal::Call(error)) => error.fault() == Fault::NoMemory,
        _ => false,
    }
}

/// Parses the sizes and the seed of a Count-Min sketch.
fn count_min_sizes(num_hashes: &str, num_buckets: &str, seed: &str) -> Option<CountMinSizes>
    ensures { result ≡ count_min_sizes num_hashes.now num_buckets.now seed.now }
{
    Some(CountMinSizes {
        num_hashes: number_below(num_hashes, 1 << 8)? as u8,
        num_buckets: number_below(num_buckets, 1 << 32)? as u32,
        seed: number_of(seed)?,
    })
}

/// Parses the sizes and the seed of a filter.
fn filter_sizes(num_bits: &str, num_hashes: &str, seed: &str) -> Option<BloomFilterBuilder>
    ensures { result ≡ filter_sizes num_bits.now num_hashes.now seed.now }
{
    let num_bits = number_of(num_bits)?;
    let num_hashes = number_below(num_hashes, 1 << 16)? as u16;
    let seed = number_of(seed)?;
    Some(BloomFilterBuilder::with_size(num_bits, num_hashes).seed(seed))
}

/// Parses the kind of a report.
fn report_of(word: &str) -> Option<ErrorType>
    ensures { result ≡ report_of word.now }
{
    match word {
        "fn" => Some(ErrorType::NoFalseNegatives),
        "fp" => Some(ErrorType::NoFalsePositives),
        _ => None,
    }
}

/// Parses the kind of an image that is read without a seed.
fn plain_kind(word: &str) -> Option<ImageKind>
    ensures { result ≡ plain_kind word.now }
{
    match word {
        "frequent" => Some(ImageKind::Frequent),
        "bloom" => Some(ImageKind::Bloom),
        _ => None,
    }
}

/// Parses the kind of an image that is read under a seed.
fn seeded_kind(word: &str, seed: u64) -> Option<ImageKind>
    ensures { result ≡ seeded_kind word.now seed }
{
    match word {
        "counti" => Some(ImageKind::CountI64 { seed }),
        "countu" => Some(ImageKind::CountU64 { seed }),
        _ => None,
    }
}

/// Returns the bytes of a word's hexadecimal digits, or `None` if it is not such digits.
///
/// # Errors
///
/// `AllocError` if the bytes cannot be allocated. Bad digits are never an error.
fn bytes_of(alloc: Global, digits: &str) -> Result<Option<Vec<u8>>, AllocError>
    ensures made { IfOk result (λ found. option_map (λ bytes. bytes.items) found ≡ bytes_of_digits digits.now) }
    ensures memory { OnErr result (IsSome (bytes_of_digits digits.now)) }
{
    if digits == "-" {
        return Ok(Some(Vec::new(alloc)));
    }
    // `decode` allocates before it reads the digits
    if !are_digits(digits) {
        return Ok(None);
    }
    match hex::decode(alloc, digits) {
        Ok(bytes) => Ok(Some(bytes)),
        Err(FromHexError::OutOfMemory) => Err(AllocError),
        Err(_) => Ok(None),
    }
}

/// Returns whether each byte of a word is a hexadecimal digit.
fn are_digits(word: &str) -> bool
    ensures { result ≡ list_all is_ascii_hexdigit word.now }
{
    word.as_bytes().iter().all(|byte| byte.is_ascii_hexdigit())
}
