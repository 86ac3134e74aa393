// The Gregorian calendar of years 1 to 9999, taken back to year 1.
#![tactic(auto)]

ghost use Rattle.std.specs.Prelude.{◌≡◌};
ghost use Rattle.rules.specs.Calendar.{leap, days, is_day_lem};

const LAST_YEAR: u32 = 9999;

// A year that 4 divides, but not one that 100 divides, unless 400 does.
fn is_leap(year: u32) -> bool
    ensures { result ≡ leap year }
{
    (year % 4 == 0) & ((year % 100 != 0) | (year % 400 == 0))
}

// How many days the month has, 1 to 12; none past December.
#[tactic(auto, using(crate::proofs::Months::by_month))]
fn days_in(year: u32, month: u32) -> u32
    ensures { result ≡ days year month }
{
    match month {
        2 if is_leap(year) => 29,
        2 => 28,
        4 | 6 | 9 | 11 => 30,
        0..=12 => 31,
        _ => 0,
    }
}

// Whether "year × 10000 + month × 100 + day" (02, F-1) is a day of the calendar.
pub fn is_day(date: u32) -> bool
    ensures { result ≡ is_day_lem date }
{
    let year = date / 10_000;
    let month = date / 100 % 100;
    let day = date % 100;
    (1..=LAST_YEAR).contains(&year)
        & (1..=12).contains(&month)
        & (1..=days_in(year, month)).contains(&day)
}
