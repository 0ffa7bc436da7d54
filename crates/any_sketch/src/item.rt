//! Items of the types that sketches of any kind take.

/// An item of a type that some kind of sketches takes.
///
/// A filter and a Count-Min sketch take each item, and hash the bytes that it feeds. A sketch of frequent items takes items of its own
/// type.
#[derive(Clone, Copy, Drop)]
pub enum Item<'a> {
    /// A number. It feeds its eight bytes, the lowest first.
    U64(u64),
    /// A number with a sign. It feeds the eight bytes of its two's complement, the lowest first.
    I64(i64),
    /// A string. It feeds its bytes, and then the byte 255.
    Text(&'a str),
    /// An item given by the bytes that its hash feeds, in one piece.
    Fed(&'a [u8]),
}
