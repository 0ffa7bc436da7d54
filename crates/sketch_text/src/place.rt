//! Places in the fields of CSV.
ghost use Rattle.std.specs.Prelude.{◌≡◌, [], ◌∷◌, if◌then◌else◌};
ghost use Rattle.sketch_text.specs.Csv.{added_at, after_byte, in_quotes};
ghost use Rattle.sketch_text.specs.declared.place.Place.TheVariants.{Start, Bare};

/// The quote of CSV.
pub(crate) const QUOTE: u8 = b'"';

/// The place of a byte in a field of CSV.
#[derive(Clone, Copy, Debug, PartialEq, Eq, Drop)]
pub enum Place {
    /// The first byte of a field, which may be a quote.
    Start,
    /// Outside of quotes.
    Bare,
    /// In quotes.
    Quoted,
    /// After a quote in quotes. It closes them, unless another quote follows.
    Closed,
}

impl Place {
    /// Returns the place after a byte; `is_end` is whether the byte ends a field outside of quotes.
    #[inline(always)]
    pub(crate) fn after(self, byte: u8, is_end: bool) -> Place
        ensures { result ≡ after_byte is_end self byte }
    {
        match self {
            Place::Quoted => {
                if byte == QUOTE {
                    Place::Closed
                } else {
                    Place::Quoted
                }
            }
            Place::Bare => after_bare(is_end),
            Place::Start | Place::Closed => {
                if byte == QUOTE {
                    Place::Quoted
                } else {
                    after_bare(is_end)
                }
            }
        }
    }

    /// Returns whether a byte at this place stands in quotes.
    #[inline(always)]
    pub(crate) fn is_quoted(self) -> bool
        ensures { result ≡ in_quotes self }
    {
        match self {
            Place::Quoted => true,
            Place::Start | Place::Bare | Place::Closed => false,
        }
    }

    /// Returns whether a byte is one of the text of its field.
    #[inline(always)]
    pub(crate) fn keeps(self, byte: u8) -> bool
        ensures { added_at self byte ≡ (if result then byte ∷ [] else []) }
    {
        match self {
            Place::Start | Place::Quoted => byte != QUOTE,
            Place::Bare | Place::Closed => true,
        }
    }
}

/// Returns the place after a byte outside of quotes that is not a quote at the start of a field.
#[inline(always)]
fn after_bare(is_end: bool) -> Place
    ensures { result ≡ (if is_end then Start else Bare) }
{
    if is_end { Place::Start } else { Place::Bare }
}
