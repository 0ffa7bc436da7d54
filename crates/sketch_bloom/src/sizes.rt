//! Sizes from an error target: the standard formulas for Bloom filters (Bloom 1970) in whole numbers.
//!
//! It is proved that the results are never below the formulas, with the natural logarithm of 2 by its series, and how
//! they are rounded. The false-positive rate is not proved, since it rests on ideal hashes. Under these it is about
//! 1/`questions` for a filter that holds the given number of items.
ghost use Rattle.std.specs.Prelude.{◌≡◌, ℕ, ◌*◌, ◌<◌, ◌≤◌, ◌^◌, IfOk, IfErr, IsErrOf};
ghost use Rattle.sketch_base.specs.Errors.{invalid_argument};
ghost use Rattle.sketch_bloom.specs.Sizes.{IsLn2TimesWithin, AreEnoughBits, AreEnoughBitsRounded};

use crate::limits::{MAX_NUM_BITS, MAX_NUM_HASHES};
use sketch_base::{Error, Fault};

/// A fraction just below ln 2: the numerator and the denominator.
///
/// With it and `ABOVE_LN2` whole numbers round as with ln 2 itself, up to 64 times the maximum number of bits.
const BELOW_LN2: (u128, u128) = (5_339_223_998_540, 7_702_871_984_889);

/// A fraction just above ln 2: the numerator and the denominator.
const ABOVE_LN2: (u128, u128) = (11_376_974_060_469, 16_413_504_057_361);

/// The powers of 2 with exponents from 63 on in steps of 1/64, rounded down.
const POWERS_OF_TWO: [u64; 64] = [
    9_223_372_036_854_775_808,
    9_323_807_973_325_342_579,
    9_425_337_585_438_007_767,
    9_527_972_782_539_685_958,
    9_631_725_603_661_576_980,
    9_736_608_218_931_335_184,
    9_842_632_931_000_616_231,
    9_949_812_176_488_168_858,
    10_058_158_527_438_640_870,
    10_167_684_692_797_270_501,
    10_278_403_519_900_636_096,
    10_390_327_995_983_639_004,
    10_503_471_249_702_896_438,
    10_617_846_552_676_722_987,
    10_733_467_321_041_881_441,
    10_850_347_117_027_285_504,
    10_968_499_650_544_839_023,
    11_087_938_780_797_598_308,
    11_208_678_517_905_446_200,
    11_330_733_024_548_468_560,
    11_454_116_617_628_225_965,
    11_578_843_769_947_115_458,
    11_704_929_111_906_019_352,
    11_832_387_433_220_440_222,
    11_961_233_684_655_323_370,
    12_091_482_979_778_770_281,
    12_223_150_596_734_848_760,
    12_356_251_980_035_707_703,
    12_490_802_742_373_206_726,
    12_626_818_666_450_273_140,
    12_764_315_706_832_201_103,
    12_903_309_991_818_110_089,
    13_043_817_825_332_782_212,
    13_185_855_688_839_100_305,
    13_329_440_243_271_311_081,
    13_474_588_330_989_340_155,
    13_621_316_977_754_388_158,
    13_769_643_394_726_039_682,
    13_919_584_980_481_119_318,
    14_071_159_323_054_531_591,
    14_224_384_202_002_324_189,
    14_379_277_590_487_216_476,
    14_535_857_657_386_837_922,
    14_694_142_769_424_923_740,
    14_854_151_493_325_717_731,
    15_015_902_597_991_835_028,
    15_179_415_056_705_840_218,
    15_344_708_049_355_799_071,
    15_511_800_964_685_064_948,
    15_680_713_402_566_563_765,
    15_851_465_176_301_844_309,
    16_024_076_314_945_163_555,
    16_198_567_065_652_879_633,
    16_374_957_896_058_427_985,
    16_553_269_496_673_159_336,
    16_733_522_783_313_321_064,
    16_915_738_899_553_466_670,
    17_099_939_219_206_581_124,
    17_286_145_348_831_213_003,
    17_474_379_130_265_907_513,
    17_664_662_643_191_237_676,
    17_857_018_207_719_734_200,
    18_051_468_387_014_017_850,
    18_248_035_989_933_441_396,
];

/// Returns the binary logarithm of `n` in 64ths, rounded up.
fn log_in_64ths(n: u64) -> u32
    requires { 0 < n }
    ensures enough { n ^ 64 ≤ 2 ^ result }
    ensures least { (t : ℕ) → n ^ 64 ≤ 2 ^ t → result ≤ t }
    ensures few { result ≤ 4096 }
{
    let whole = n.ilog2();
    let shift = 63 - whole;
    for part in 0..64 {
        if n <= POWERS_OF_TWO[part as usize] >> shift {
            return 64 * whole + part;
        }
    }
    64 * whole + 64
}

/// Returns the number of bits for `num_items` items and a false-positive rate of 1/`questions`.
///
/// The formula is `num_items * ln(questions) / (ln 2)^2`. The binary logarithm of `questions` is rounded up to 64ths,
/// and the result is rounded up to a whole number. It is proved that the result is never below the formula (`formula`),
/// and that it is the minimum for the rounded logarithm (`enough`, `least`). By calculation, not by proof, it is at
/// most 0.6 percent above the formula before the last rounding. If `questions` is a power of two, it equals the formula
/// before that rounding.
///
/// The false-positive rate is not proved. Under ideal hashes it is about 1/`questions` with the hashes of
/// [`suggest_num_hashes`] (Bloom 1970; for double hashing Kirsch & Mitzenmacher 2008).
///
/// In a filter of few bits the two hashes of an item repeat, modulo the number of bits, those of an inserted one. So the rate is
/// higher for few items or a low rate: at 1/1000 about 4/1000 for 2 items. With at least `4 * sqrt(num_items * questions)` bits
/// it is at most 1.3/`questions`, as measured.
///
/// # Errors
///
/// `BadNumBits` in these cases:
///
/// - `num_items` is 0;
/// - `questions` is 0 or 1, which needs no bits;
/// - the result would exceed 137438953152.
///
/// # Examples
///
/// ```
/// use sketch_base::Error;
/// use sketch_bloom::{BloomFilter, BloomFilterBuilder, suggest_num_bits, suggest_num_hashes};
/// use std::alloc::Global;
///
/// fn filter_for(alloc: Global, visitors: u64) -> Result<BloomFilter, Error> {
///     let num_bits = suggest_num_bits(visitors, 100)?;
///     let num_hashes = suggest_num_hashes(num_bits, visitors)?;
///     BloomFilterBuilder::with_size(num_bits, num_hashes).build(alloc)
/// }
/// ```
pub fn suggest_num_bits(num_items: u64, questions: u64) -> Result<u64, Error>
    ensures formula { IfOk result (λ bits. AreEnoughBits num_items questions bits) }
    ensures enough { IfOk result (λ bits. AreEnoughBitsRounded num_items questions bits) }
    ensures least { IfOk result (λ bits. (m : ℕ) → AreEnoughBitsRounded num_items questions m → bits ≤ m) }
    ensures allowed { IfOk result (λ bits. (1 ≤ bits) × (bits ≤ 137438953152)) }
    ensures no_items { num_items ≡ 0 → IsErrOf result (invalid_argument Fault.BadNumBits) }
    ensures no_questions { questions ≤ 1 → IsErrOf result (invalid_argument Fault.BadNumBits) }
    ensures too_many { 0 < num_items → 1 < questions → IfErr result (λ e. (e ≡ invalid_argument Fault.BadNumBits)
        × ((m : ℕ) → AreEnoughBitsRounded num_items questions m → 137438953152 < m)) }
{
    if num_items == 0 || questions <= 1 {
        return Err(Error::invalid_argument(Fault::BadNumBits));
    }
    let bits_of_64 = num_items as u128 * log_in_64ths(questions) as u128;
    let num_bits = (bits_of_64 * BELOW_LN2.1).div_ceil(64 * BELOW_LN2.0);
    if num_bits > MAX_NUM_BITS as u128 {
        return Err(Error::invalid_argument(Fault::BadNumBits));
    }
    Ok(num_bits as u64)
}

/// Returns the number of hashes for a filter of `num_bits` bits that holds `num_items` items.
///
/// The formula is `num_bits / num_items * ln 2`, rounded up. It is proved that the result is the minimum whole number
/// that is at least the formula.
///
/// That this number minimizes the false-positive rate is not proved. It does so under ideal hashes, up to the rounding
/// (Bloom 1970). With the bits of [`suggest_num_bits`] for the same items and 2^j questions, the result is j + 1.
///
/// # Errors
///
/// The first of these that applies:
///
/// - `BadNumBits` unless `num_bits` is from 1 to 137438953152;
/// - `BadNumHashes` if `num_items` is 0, or if the result would exceed 32767.
pub fn suggest_num_hashes(num_bits: u64, num_items: u64) -> Result<u16, Error>
    ensures enough { IfOk result (λ hashes. IsLn2TimesWithin num_bits (hashes * num_items)) }
    ensures least { IfOk result (λ hashes. (m : ℕ) → IsLn2TimesWithin num_bits (m * num_items) → hashes ≤ m) }
    ensures allowed { IfOk result (λ hashes. (1 ≤ hashes) × (hashes ≤ 32767)) }
    ensures no_bits { num_bits ≡ 0 → IsErrOf result (invalid_argument Fault.BadNumBits) }
    ensures many_bits { 137438953152 < num_bits → IsErrOf result (invalid_argument Fault.BadNumBits) }
    ensures too_many { 0 < num_bits → num_bits ≤ 137438953152 → IfErr result (λ e.
        (e ≡ invalid_argument Fault.BadNumHashes)
        × ((m : ℕ) → IsLn2TimesWithin num_bits (m * num_items) → 32767 < m)) }
{
    if num_bits == 0 || num_bits > MAX_NUM_BITS {
        return Err(Error::invalid_argument(Fault::BadNumBits));
    }
    if num_items == 0 {
        return Err(Error::invalid_argument(Fault::BadNumHashes));
    }
    let bits_times_ln2 = (num_bits as u128 * ABOVE_LN2.0).div_ceil(ABOVE_LN2.1) as u64;
    let num_hashes = bits_times_ln2.div_ceil(num_items);
    if num_hashes > MAX_NUM_HASHES as u64 {
        return Err(Error::invalid_argument(Fault::BadNumHashes));
    }
    Ok(num_hashes as u16)
}
