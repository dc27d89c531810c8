// What the spelling of a number in range may have.

/// The most bytes.
pub(crate) const LONGEST_SPELLING: usize = 64;

/// The most digits of the exponent.
pub(crate) const MOST_EXPONENT_DIGITS: usize = 4;

/// The most digits from the first to the last that isn't zero.
pub(crate) const MOST_SIGNIFICANT_DIGITS: usize = 34;

/// How far the exponent may be from zero, once the zeros at the end of the digits are taken into it.
pub(crate) const LARGEST_EXPONENT: usize = 999;
