ghost use Rattle.std.specs.Prelude.{◌≡◌};
ghost use Rattle.lrs_rules.specs.Rules.{is_edition_number};

/// For how many seconds at most a sweep asks (rule B6): a year of 365 days.
pub const LONGEST_IDLE: u32 = 31_536_000;

/// The largest number by which an enrolment names an edition (rule B10): the largest one of nine digits.
pub const MOST_EDITION: u32 = 999_999_999;

/// Whether an enrolment may name an edition by that number. The first one has the number 1.
pub fn is_edition_number(number: u32) -> bool
    ensures { result ≡ is_edition_number number }
{
    0 < number && number <= MOST_EDITION
}
