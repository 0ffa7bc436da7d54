//! The maximum number of columns of an item, what is read back from an item of several columns, and what records of CSV concatenate to, as
//! theorems. The functions here do nothing: their clauses are the laws.
ghost use Rattle.std.specs.Prelude.{◌≡◌, ◌≢◌, ℕ, List, ◌∷◌, [], ◌<◌, ◌==◌, length, map};
ghost use Rattle.std.specs.List.{All, concat, join_with_byte, slice_split};
ghost use Rattle.sketch_base.specs.Split.{words_of};
ghost use Rattle.sketch_text.specs.Columns.{IsField, IsWord};
ghost use Rattle.sketch_text.specs.Csv.{csv_fields, quote, raw_csv_records, spelled, text_of_field};

use crate::columns::MAX_COLUMNS;

/// States the maximum number of columns of an item.
pub fn constants()
    ensures columns { MAX_COLUMNS ≡ 8 }
{}

/// States that the columns of an item are read back from its text.
///
/// Words joined by spaces are the words of the text. Fields without the delimiter, joined by delimiters, are the fields of the text.
/// Strings spelled as fields of CSV, joined by delimiters, are the strings of the text's fields, if the delimiter is not a quote. A single
/// empty string is left out: its text is empty, and a record without bytes has no fields.
pub fn columns_of_items()
    ensures words { (words : List (List ℕ)) → All IsWord words → words_of (join_with_byte 32 words) ≡ words }
    ensures fields { (delimiter : ℕ) (fields : List (List ℕ)) → 0 < length fields → All (IsField delimiter) fields → slice_split (λ byte. byte == delimiter) (join_with_byte delimiter fields) ≡ fields }
    ensures csv { (delimiter : ℕ) (texts : List (List ℕ)) → delimiter ≢ quote → texts ≢ [] ∷ [] → map text_of_field (csv_fields delimiter (join_with_byte delimiter (map (spelled delimiter) texts))) ≡ texts }
{}

/// States that the records of CSV, each with its end, concatenate to the bytes: none is lost, added or moved.
pub fn bytes_of_csv_records()
    ensures { (delimiter : ℕ) → (bytes : List ℕ) → concat (raw_csv_records delimiter bytes) ≡ bytes }
{}
