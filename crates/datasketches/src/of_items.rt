//! The type of a session's items, as one record.
use crate::session::Session;
use sketch_frequencies::FrequentItemValue;

/// The type of a session's items, as the clauses of its calls take it.
pub(crate) trait OfItems {
    ghost use Rattle.datasketches.specs.ItemTypes.{ItemType};

    ghost Item: { Type 0 };

    ghost Content: { Type 0 };

    ghost items: { ItemType Item Content };
}

impl<T: FrequentItemValue + Drop> OfItems for Session<T> {
    ghost use Rattle.counter_table.specs.Bytes.{option_bytes};

    ghost Item = { T };

    ghost Content = { T.Content };

    ghost items = { record {
      slot = option_bytes T.row;
      eq = T.eq;
      input = T.hash_input;
      codec = T.codec;
      content = T.content;
    } };
}
