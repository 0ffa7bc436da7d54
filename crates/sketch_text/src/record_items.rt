//! The items of records with their weights.
ghost use Rattle.std.specs.Prelude.{◌≡◌, ◌++◌, ◌∷◌, [], IfErr, IfOk, OnErr, OnOk, MatchOption, length, map};
ghost use Rattle.sketch_base.specs.Errors.{no_memory};
ghost use Rattle.sketch_text.specs.RecordItems.{AreItems, FailsItems, FailsRecord, faults_in, weighed_item, weight_by};
ghost use Rattle.sketch_text.specs.Records.{records_by};

use crate::decimals::RecordWeight;
use crate::record_part::{RecordPart, next_record, record_part_of};
use crate::string_buffer::StringBuffer;
use sketch_base::{Error, ErrorKind, Fault, OffsetStrings, from_utf8};
use std::alloc::{AllocError, Global};
use std::marker::Model;

/// The part of a record that is its item, and the part with its weight. The weight is 1 if no part has it.
#[derive(Clone, Copy)]
pub struct WeighedRecord {
    pub item: RecordPart,
    pub weight: Option<RecordPart>,
}

/// The error of a record, and the index of the byte at which the record begins.
#[derive(Clone, Copy, Debug)]
pub struct BadRecord {
    pub error: Error,
    pub offset: usize,
}

/// The items of records in order, with their weights. Records without an item are left out.
///
/// # Examples
///
/// ```
/// use sketch_base::Error;
/// use sketch_text::records::{CsvField, RecordItems, RecordPart, WeighedRecord};
/// use std::alloc::Global;
///
/// fn number_of_sales(alloc: Global, table: &[u8]) -> Result<usize, Error> {
///     let item = RecordPart::Csv(CsvField {
///         delimiter: b',',
///         index: 0,
///     });
///     let weight = RecordPart::Csv(CsvField {
///         delimiter: b',',
///         index: 2,
///     });
///     let chosen = WeighedRecord {
///         item,
///         weight: Some(weight),
///     };
///     match RecordItems::<u64>::read(alloc, table, chosen) {
///         Ok(sales) => Ok(sales.weights().len()),
///         Err(bad) => Err(bad.error),
///     }
/// }
/// ```
#[derive(Drop)]
pub struct RecordItems<W: RecordWeight> {
    items: StringBuffer,
    weights: Vec<W>,
    num_records: usize,
}

impl<W: RecordWeight> Model for RecordItems<W> {
    ghost use Rattle.std.specs.Prelude.{◌≡◌, length};
    ghost use Rattle.sketch_text.specs.RecordItems.{ItemsValue};

    ghost Value = { ItemsValue W };

    ghost view = { λ s. record { items = s.items; weights = s.weights.items; num_records = s.num_records } };

    ghost invariant = { λ s. length s.weights.items ≡ length s.items };
}

/// Returns the weight of a record, or `None` if the record does not have the part with the weight, or the part spells no weight.
#[inline(always)]
fn weight_of<W: RecordWeight>(
    alloc: Global,
    part: Option<RecordPart>,
    row: &[u8],
) -> Result<Option<W>, AllocError>
    ensures { IfOk result (λ weight. weight ≡ weight_by W.reads W.ONE part row.now) }
{
    let Some(part) = part else {
        return Ok(Some(W::ONE));
    };
    let mut text = Vec::new(alloc);
    match record_part_of(part, row, &mut text)? {
        Some(digits) => Ok(W::read_from(digits)),
        None => Ok(None),
    }
}

impl<W: RecordWeight> RecordItems<W> {
    /// Creates no items of no records.
    fn new(alloc: Global) -> Result<Self, AllocError>
        ensures { IfOk result (λ found. found ≡ record { items = []; weights = []; num_records = 0 }) }
    {
        Ok(RecordItems {
            items: StringBuffer::new(alloc)?,
            weights: Vec::new(alloc),
            num_records: 0,
        })
    }

    /// Adds an item with its weight.
    #[inline(always)]
    fn push(&mut self, string: &str, weight: W) -> Result<(), Error>
        ensures items { OnOk result (self.new.items ≡ self.old.items ++ string.now ∷ []) }
        ensures weights { OnOk result (self.new.weights ≡ self.old.weights ++ weight ∷ []) }
        ensures num_records { self.new.num_records ≡ self.old.num_records }
        ensures err { IfErr result (λ e. e ≡ no_memory) }
    {
        self.weights.push(weight)?;
        if let Err(error) = self.items.push(string) {
            let _ = self.weights.pop();
            return Err(Error::from(error));
        }
        Ok(())
    }

    /// Adds the item of a record with its weight, if the record has an item.
    #[inline(always)]
    fn add(&mut self, alloc: Global, chosen: WeighedRecord, row: &[u8]) -> Result<(), Error>
        ensures good { OnOk result (faults_in W.reads W.ONE chosen row.now ≡ []) }
        ensures items { OnOk result (self.new.items ≡ self.old.items ++ map (λ pair. pair.0) (weighed_item W.reads W.ONE chosen row.now)) }
        ensures weights { OnOk result (self.new.weights ≡ self.old.weights ++ map (λ pair. pair.1) (weighed_item W.reads W.ONE chosen row.now)) }
        ensures num_records { self.new.num_records ≡ self.old.num_records }
        ensures err { IfErr result (FailsRecord W.reads W.ONE chosen row.now) }
    {
        let mut text = Vec::new(alloc);
        let Some(item) = record_part_of(chosen.item, row, &mut text)? else {
            return Ok(());
        };
        let Ok(string) = from_utf8(item) else {
            return Err(Error::invalid_argument(Fault::InvalidUtf8));
        };
        let Some(weight) = weight_of(alloc, chosen.weight, row)? else {
            return Err(Error::invalid_argument(Fault::BadWeight));
        };
        self.push(string, weight)?;
        Ok(())
    }

    /// Returns the items of the records of bytes, with their weights.
    ///
    /// The bytes need not be UTF-8, but items do.
    ///
    /// # Errors
    ///
    /// The error of the first record with one, which begins at the byte of index `offset`:
    ///
    /// - `InvalidUtf8` if the record has an item that is not UTF-8;
    /// - `BadWeight` if it has an item, and no number in decimal digits in the part with the weight, or one out of range.
    ///
    /// `NoMemory` if an allocation fails.
    pub fn read(alloc: Global, bytes: &[u8], chosen: WeighedRecord) -> Result<Self, BadRecord>
        ensures items { IfOk result (λ found. AreItems W.reads W.ONE chosen (records_by chosen.item bytes.now) found) }
        ensures err { IfErr result (FailsItems W.reads W.ONE chosen bytes.now) }
    {
        let Ok(mut found) = RecordItems::new(alloc) else {
            return Err(BadRecord {
                error: Error::new(ErrorKind::OutOfMemory, Fault::NoMemory),
                offset: 0,
            });
        };
        let mut rest = bytes;
        let mut count = 0;
        'each: loop {
            let Some((row, after)) = next_record(chosen.item, rest) else {
                found.num_records = count;
                return Ok(found);
            };
            if let Err(error) = found.add(alloc, chosen, row) {
                let offset = bytes.len() - rest.len();
                return Err(BadRecord { error, offset });
            }
            count += 1;
            rest = after;
        }
    }

    /// Returns the items as a sequence of strings.
    #[inline(always)]
    pub fn items(&self) -> OffsetStrings<'_, &[u64]>
        ensures { result ≡ self.now.items }
    {
        self.items.strings()
    }

    /// Returns the weight of each item.
    #[inline(always)]
    pub fn weights(&self) -> &[W]
        ensures weights { result.now ≡ self.now.weights }
        ensures same { length self.now.weights ≡ length self.now.items }
    {
        &self.weights
    }

    /// Returns the number of records. Those without an item are counted too.
    #[inline(always)]
    pub fn num_records(&self) -> usize
        ensures { result ≡ self.now.num_records }
    {
        self.num_records
    }
}
