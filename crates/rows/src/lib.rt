// A row of each plan: "A row gives pass, fail or open", "pass is tested first".
//
// Each returns as soon as the row is known: what is an argument is computed before the call, needed or not.
#![tactic(auto)]

ghost use Rattle.std.specs.Prelude.{◌≡◌, not, ◌&&◌, ◌||◌, ◌*◌, eqb, ltb, pos, ◌-ℤ◌};
ghost use Rattle.rules.specs.Logarithm.{squarings};
ghost use Rattle.rules.specs.Plans as rules;
ghost use Rattle.rows.specs.Row.{row_is};
ghost use Rattle.plan.specs.Plan.{plan_is};
ghost use Rattle.tables.specs.Tables.{numbers_of_lem, PassNumbers, FailNumbers};
ghost use Rattle.rows.specs.Ranges.{KnownRanges, RootRanges, RowRange};

use plan::Plan;
use tables::table::PlanTable;

// What a row says of one pollutant.
#[derive(Clone, Copy, PartialEq, Eq)]
pub enum Row {
    Open,
    Pass,
    Fail,
}

// 02, F-9: "units become 1/1,048,576": 2 to the number of squarings.
const LOGARITHM_UNIT: u64 = 1048576;

// The natural logarithm of 2, in billionths.
const LOG_OF_TWO: u64 = 693147181;

// Plan 1, known deviation: "Pass if T × 693,147,181 > A × t × ..; fail if less than the same with B."; 02, F-9: "1,048,576 in g itself, in plan 1".
// D is added − n × level, and T is n × level − added; `table` is that of plan 1.
// Each term that document 01 has with a minus stands on the other side, so that all is unsigned.
// For `statistics` alone, with sums over the engines of an accepted sheet: so it may require.
pub fn known_row(n: u64, table: PlanTable, added: u64, level: u64, deviation: u64) -> Row
    requires { KnownRanges table.plan n added level deviation }
    ensures { row_is result ≡ rules.decide (rules.known_passes squarings n (pos added -ℤ pos (n * level)) deviation)
        (eqb n (rules.last_row_lem rules.known_deviation_lem))
        (rules.known_fails squarings n (pos added -ℤ pos (n * level)) deviation) }
{
    let [a, b] = table.rows[(n - 3) as usize];
    let unit = deviation * LOGARITHM_UNIT;
    let above = added * LOG_OF_TWO;
    let line = n * (level * LOG_OF_TWO);
    let pass = u64::from(a.unsigned_abs()) * unit;
    // A is below 0 in the last row, and in no other.
    if n == Plan::KNOWN_DEVIATION_LAST_ROW as u64 {
        return if above < line + pass {
            Row::Pass
        } else {
            Row::Fail
        };
    }
    if above + pass < line {
        return Row::Pass;
    }
    let fail = u64::from(b.unsigned_abs()) * unit;
    if line + fail < above {
        return Row::Fail;
    }
    Row::Open
}

// Plans 2, 4 and 5, which compare with roots. D is added − taken, W is `spread`; `table` is the plan's.
// "P = 100,000 × D", "roots never taken": P² is compared with A²W and B²W. "Squares exceed 64 bits". Nothing is divided by √W, and W may be 0.
// A at or above 0 is asked for first. In what it leaves, as in a row with A below 0, a D above 0 does not pass; and a D of 0 or below, which
// only A below 0 leaves, can fail by B in the last row alone: so one comparison decides. D's sign chooses between numbers and not between
// branches, because the processor guesses such a branch wrongly.
// For `statistics` alone, with sums over the engines of an accepted sheet: so it may require.
pub fn root_row(n: u64, table: PlanTable, added: u64, taken: u64, spread: u64) -> Row
    requires { RootRanges (plan_is table.plan) n added taken }
    ensures { row_is result ≡ rules.decide (rules.root_passes (numbers_of_lem (plan_is table.entry.plan) n).A (pos added -ℤ pos taken) (pos spread))
        (eqb n (rules.last_row_lem (plan_is table.entry.plan)))
        (rules.root_fails (numbers_of_lem (plan_is table.entry.plan) n).B (pos added -ℤ pos taken) (pos spread)) }
{
    let [a, b] = table.rows[(n - 3) as usize];
    let over = taken < added;
    let p = 100000 * added.abs_diff(taken);
    if is_within(a < 0, a.unsigned_abs(), over, p, spread) {
        return Row::Pass;
    }
    let x = if over { b } else { a };
    let line = wide::product(square(x.unsigned_abs()), spread);
    if wide::less(wide::product(p, p), line) {
        return if n == table.plan.last_row() as u64 {
            Row::Fail
        } else {
            Row::Open
        };
    }
    if over { Row::Fail } else { Row::Pass }
}

// "for A ≥ 0, P ≤ 0 or P² ≤ A²W": whether A is such a number, and the row passes by it. A and P come without their signs.
fn is_within(negative: bool, a: u32, over: bool, p: u64, spread: u64) -> bool
    ensures { result ≡ not negative && (not over || not (ltb (a * a * spread) (p * p))) }
{
    if negative {
        return false;
    }
    !over | !wide::less(wide::product(square(a), spread), wide::product(p, p))
}

fn square(x: u32) -> u64
    ensures { result ≡ x * x }
{
    u64::from(x) * u64::from(x)
}

// Plan 3, attributes: `over` is c, the number of engines over the limit; `pass` and `fail` are the plan's columns, lent.
// For `statistics` alone, with a row of an accepted sheet: so it may require.
pub fn attributes_row(n: u64, pass: &[u8; 16], fail: &[u8; 17], over: u8) -> Row
    requires row_range { RowRange n }
    requires pass_numbers { PassNumbers pass.now }
    requires fail_numbers { FailNumbers fail.now }
    ensures { row_is result ≡ rules.decide (rules.attributes_passes n over) (eqb n (rules.last_row_lem rules.attributes))
        (rules.attributes_fails n over) }
{
    // "never at n = 3": the pass numbers begin with row 4.
    if 4 <= n {
        if over <= pass[(n - 4) as usize] {
            return Row::Pass;
        }
    }
    // "In the last row, what doesn't pass fails."
    if n == Plan::ATTRIBUTES_LAST_ROW as u64 {
        return Row::Fail;
    }
    if fail[(n - 3) as usize] <= over {
        return Row::Fail;
    }
    Row::Open
}
