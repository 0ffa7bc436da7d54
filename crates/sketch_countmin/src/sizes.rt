//! Sizes from an error target: the formulas of Cormode & Muthukrishnan 2005 in whole numbers.
//!
//! It is proved that the results are exactly those of the formulas, with e by its series. The error is not proved,
//! since it rests on ideal hashes. Under these, if no weight is negative, at most one estimate in `questions` exceeds
//! the item's own weight by more than the total over `parts`.
ghost use Rattle.std.specs.Prelude.{◌≡◌, ℕ, ◌<◌, ◌≤◌, ◌^◌, IfOk, IfErr, IsOk, IsErrOf};
ghost use Rattle.sketch_base.specs.Errors.{invalid_argument};
ghost use Rattle.sketch_countmin.specs.Sizes.{IsETimesWithin, IsWithinPowerOfE};

use crate::limits::{MAX_TABLE_ENTRIES, MIN_NUM_BUCKETS};
use sketch_base::{Error, Fault};

/// The maximum `parts` for which e times `parts`, rounded up, is below the limit of cells.
const MAX_PARTS: u64 = 395_007_541;

/// A fraction just above e: the numerator and the denominator.
///
/// Its products with numbers up to `MAX_PARTS`, rounded up, are those of e.
const ABOVE_E: (u64, u64) = (438_351_041, 161_260_336);

/// The powers of e from 0 up to 44, rounded down.
const POWERS_OF_E: [u64; 45] = [
    1,
    2,
    7,
    20,
    54,
    148,
    403,
    1_096,
    2_980,
    8_103,
    22_026,
    59_874,
    162_754,
    442_413,
    1_202_604,
    3_269_017,
    8_886_110,
    24_154_952,
    65_659_969,
    178_482_300,
    485_165_195,
    1_318_815_734,
    3_584_912_846,
    9_744_803_446,
    26_489_122_129,
    72_004_899_337,
    195_729_609_428,
    532_048_240_601,
    1_446_257_064_291,
    3_931_334_297_144,
    10_686_474_581_524,
    29_048_849_665_247,
    78_962_960_182_680,
    214_643_579_785_916,
    583_461_742_527_454,
    1_586_013_452_313_430,
    4_311_231_547_115_195,
    11_719_142_372_802_611,
    31_855_931_757_113_756,
    86_593_400_423_993_746,
    235_385_266_837_019_985,
    639_843_493_530_054_949,
    1_739_274_941_520_501_047,
    4_727_839_468_229_346_561,
    12_851_600_114_359_308_275,
];

/// Returns the number of buckets for an error of at most the total over `parts`: e times `parts`, rounded up.
///
/// It is proved that this is the minimum whole number that is at least e times `parts`. It is also proved that an upper
/// bound is then above its estimate by at most the total over `parts`
/// ([`margin_bound`](crate::laws::margin_bound)). How many estimates have a larger error is not
/// proved: see [`suggest_num_hashes`].
///
/// # Errors
///
/// - `BadNumBuckets` if `parts` is 0;
/// - `TableTooLarge` if the result would be 2^30 or more, which is so above 395007541 parts.
///
/// A sketch of several rows is limited to fewer buckets: its constructor checks the number of cells.
///
/// # Examples
///
/// ```
/// use sketch_base::Error;
/// use sketch_countmin::{CountMinSketch, suggest_num_buckets, suggest_num_hashes};
/// use std::alloc::Global;
///
/// fn bytes_within_a_thousandth(alloc: Global) -> Result<CountMinSketch<u64>, Error> {
///     CountMinSketch::new(alloc, suggest_num_hashes(50)?, suggest_num_buckets(1000)?)
/// }
/// ```
pub fn suggest_num_buckets(parts: u64) -> Result<u32, Error>
    ensures enough { IfOk result (λ buckets. IsETimesWithin parts buckets) }
    ensures least { IfOk result (λ buckets. (m : ℕ) → IsETimesWithin parts m → buckets ≤ m) }
    ensures allowed { IfOk result (λ buckets. (3 ≤ buckets) × (buckets < 2 ^ 30)) }
    ensures none { parts ≡ 0 → IsErrOf result (invalid_argument Fault.BadNumBuckets) }
    ensures too_many { 0 < parts → IfErr result (λ e. (e ≡ invalid_argument Fault.TableTooLarge)
        × ((m : ℕ) → IsETimesWithin parts m → 2 ^ 30 ≤ m)) }
{
    if parts == 0 {
        return Err(Error::invalid_argument(Fault::BadNumBuckets));
    }
    if parts > MAX_PARTS {
        return Err(Error::invalid_argument(Fault::TableTooLarge));
    }
    Ok((parts * ABOVE_E.0).div_ceil(ABOVE_E.1) as u32)
}

/// Returns the number of hashes for which at most one estimate in `questions` exceeds the error that the buckets were
/// chosen for: ln(`questions`), rounded up.
///
/// It is proved that this is the minimum whole number `k` with e^`k` at least `questions`. The share of larger errors
/// is not proved. With the buckets of [`suggest_num_buckets`] it holds under ideal hashes if no weight is negative
/// (Cormode & Muthukrishnan 2005).
///
/// # Errors
///
/// `BadNumHashes` if `questions` is 0 or 1, which needs no hash.
pub fn suggest_num_hashes(questions: u64) -> Result<u8, Error>
    ensures enough { IfOk result (λ hashes. IsWithinPowerOfE questions hashes) }
    ensures least { IfOk result (λ hashes. (m : ℕ) → IsWithinPowerOfE questions m → hashes ≤ m) }
    ensures allowed { IfOk result (λ hashes. 1 ≤ hashes) }
    ensures none { questions ≤ 1 → IsErrOf result (invalid_argument Fault.BadNumHashes) }
    ensures some { 1 < questions → IsOk result }
{
    if questions <= 1 {
        return Err(Error::invalid_argument(Fault::BadNumHashes));
    }
    for num_hashes in 0..45 {
        if questions <= POWERS_OF_E[num_hashes as usize] {
            return Ok(num_hashes);
        }
    }
    Ok(45)
}
