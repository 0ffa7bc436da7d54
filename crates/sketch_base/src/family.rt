//! The families of sketches in images.
ghost use Rattle.std.specs.Prelude.{◌≡◌, ◌≢◌, OnOk, IfErr};
ghost use Rattle.sketch_base.specs.Errors.{invalid_data};

use crate::error::Error;
use crate::fault::Fault;

/// A family of sketches: its id in an image, and the range of its preamble's length.
///
/// # Examples
///
/// ```
/// use sketch_base::Family;
///
/// fn is_of_a_filter(family: u8) -> bool {
///     Family::BLOOMFILTER.validate_id(family).is_ok()
/// }
/// ```
#[derive(Clone, Copy, Debug, PartialEq, Eq)]
pub struct Family {
    /// The id of the family in an image.
    pub id: u8,
    /// The minimum length of a preamble in longs, of 8 bytes each.
    pub min_pre_longs: u8,
    /// The maximum length of a preamble in longs, of 8 bytes each.
    pub max_pre_longs: u8,
}

impl Family {
    /// The family of frequent items.
    pub const FREQUENCY: Family = Family {
        id: 10,
        min_pre_longs: 1,
        max_pre_longs: 4,
    };

    /// The family of Count-Min sketches.
    pub const COUNTMIN: Family = Family {
        id: 18,
        min_pre_longs: 2,
        max_pre_longs: 2,
    };

    /// The family of Bloom filters.
    pub const BLOOMFILTER: Family = Family {
        id: 21,
        min_pre_longs: 3,
        max_pre_longs: 4,
    };

    /// Checks that `id`, which was read from an image, is the id of this family. Does not allocate.
    ///
    /// # Errors
    ///
    /// [`BadFamily`](Fault::BadFamily) of the kind [`InvalidData`](crate::ErrorKind::InvalidData) if it is another.
    #[inline]
    pub fn validate_id(&self, id: u8) -> Result<(), Error>
        ensures ok { OnOk result (id ≡ self.now.id) }
        ensures other { IfErr result (λ e. (e ≡ invalid_data Fault.BadFamily) × (id ≢ self.now.id)) }
    {
        if id != self.id {
            return Err(Error::invalid_data(Fault::BadFamily));
        }
        Ok(())
    }
}
