// Two sheets held against each other, record by record: 02, F-8, "27, sheets differ elsewhere, or in the first engine of a run-in sheet;
// 28, a low above its high".
#![tactic(auto)]

ghost use Rattle.std.specs.Prelude.{◌≡◌, true, false, ◌+◌, ◌*◌, length};
ghost use Rattle.rules.specs.Tools.{four};
ghost use Rattle.rules.specs.Sheet as rules;
ghost use Rattle.layout.specs.Sizes.{width_is};
ghost use Rattle.comparing.specs.Records.{disagree, either_disagrees_lem, any_disagrees, records_differ, records_cross};
ghost use Rattle.comparing.specs.Ranges.{BothRange, RecordsRange, CompareRange};
ghost use Rattle.comparing.specs.Comparisons.{Compares};

use layout::Size;
use numbers::u32_present;
use record::{Kind, kind_of, record_at};

// What is found between two sheets: 27, and 28 where 27 is not.
#[derive(Drop)]
pub struct Comparison {
    pub differs: bool,
    pub crosses: bool,
}

// The numbers in the four bytes from i on are not the same, where they have to be, or else the low sheet's is above the high one's. Which of
// the two is asked is a constant, here and below: with one function for both tests the compiler left it outside the loop.
fn disagree_at<const SAME: bool>(low: &[u8], high: &[u8], i: usize) -> bool
    requires { BothRange i 4 (length low.now) (length high.now) }
    ensures { result ≡ disagree SAME (four low.now i) (four high.now i) }
{
    let a = u32_present(low, i);
    let b = u32_present(high, i);
    if SAME { a != b } else { b < a }
}

// These numbers, or those behind them.
fn either_disagrees<const SAME: bool>(low: &[u8], high: &[u8], i: usize) -> bool
    requires { BothRange i 8 (length low.now) (length high.now) }
    ensures { result ≡ either_disagrees_lem low.now high.now SAME i }
{
    disagree_at::<SAME>(low, high, i) | disagree_at::<SAME>(low, high, i + 4)
}

// Some number behind the first four bytes of the record that starts at byte `at`.
fn any_disagrees<const SAME: bool>(size: Size, low: &[u8], high: &[u8], at: usize) -> bool
    requires { BothRange at (rules.size (width_is size)) (length low.now) (length high.now) }
    ensures { result ≡ any_disagrees (width_is size) low.now high.now SAME at }
{
    let four = either_disagrees::<SAME>(low, high, at + 4)
        | either_disagrees::<SAME>(low, high, at + 12);
    match size {
        Size::Twenty => four,
        Size::TwentyEight => four | either_disagrees::<SAME>(low, high, at + 20),
    }
}

// One pass over both. A record without measurements has to be the same in both, and so has the one at `start` of a run-in sheet; of every
// other one the first four bytes have to be, and no measurement may be above the high sheet's.
fn compare_records(size: Size, low: &[u8], high: &[u8], run_in: bool, start: usize) -> Comparison
    requires { RecordsRange (length low.now) (length high.now) }
    ensures differs_value { result.differs ≡ records_differ (width_is size) low.now high.now run_in start }
    ensures crosses_value { result.crosses ≡ records_cross (width_is size) low.now high.now run_in start }
{
    let n = size.records_in(low.len());
    let mut differs = false;
    let mut crosses = false;
    for k in 0..n {
        let first = size.bytes() * k;
        let kind = low[first] as u32;
        let same = (run_in & (k == start))
            | ((kind != Kind::Engine as u32) & (kind != Kind::RunIn as u32));
        differs = differs | disagree_at::<true>(low, high, first);
        if same {
            differs = differs | any_disagrees::<true>(size, low, high, first);
        } else {
            crosses = crosses | any_disagrees::<false>(size, low, high, first);
        }
    }
    Comparison { differs, crosses }
}

// 27 and 28 of two sheets that are equally long. The record at `start` is the first engine's, and run-in values, if there are any, stand right
// before it.
// For `judging_ranges` alone, with sheets that the check accepts: so it may require.
pub fn compare(size: Size, low: &[u8], high: &[u8], start: usize) -> Comparison
    requires { CompareRange (width_is size) low.now high.now start }
    ensures { Compares (width_is size) low.now high.now result }
{
    let run_in = kind_of(record_at(size, low, start - 1)) == Kind::RunIn as u32;
    compare_records(size, low, high, run_in, start)
}
