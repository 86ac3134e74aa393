// Plan 4, "Before a row's statistics, in order": which rows are looked at and which one ends or holds the series, by the vehicles' causes
// alone.
//
// On an accepted sheet the gross emitters are the vehicles with a cause, so outside plan 4 there are none.
#![tactic(auto)]

ghost use Rattle.std.specs.Prelude.{◌≡◌, not, ◌&&◌, ◌||◌, ◌+◌, leb, eqb};
ghost use Rattle.rules.specs.Sheet.{is_pending};
ghost use Rattle.plan.specs.Plan.{plan_is};
ghost use Rattle.layout.specs.Sizes.{width_is};
ghost use Rattle.columns.specs.Columns.{rows_of};
ghost use Rattle.causes.specs.Causes.{cause_in, equal_causes_lem, repeats_by, gate_is, gate_of_lem, in_service_gate_lem, first_row_lem};
ghost use Rattle.causes.specs.Ranges.{EnginesRange, InServiceRange, GateRange, FirstRange};

use plan::Plan;
use record::{PENDING, cause_of, record_at};
use tested::TestedSheet;

// The last row of plan 4.
const LAST_ROW: usize = Plan::IN_SERVICE_LAST_ROW as usize;

// How many rows' statistics may be looked at: all of them, or those before the row that equal cause or referral ends the series at, or that
// a pending finding holds it at.
#[derive(Clone, Copy, PartialEq, Eq)]
pub enum Gate {
    Open(u8),
    Cause(u8),
    Held(u8),
    Referral(u8),
}

impl Gate {
    // The rows before the one that ends or holds the series, or all of them.
    pub fn rows(self) -> u8
        ensures { result ≡ rows_of (gate_is self) }
    {
        match self {
            Gate::Open(n) | Gate::Cause(n) | Gate::Held(n) | Gate::Referral(n) => n,
        }
    }
}

// The cause of the vehicle behind k engines.
fn cause_at(sheet: TestedSheet, k: usize) -> u32
    requires { EnginesRange sheet (k + 1) }
    ensures { result ≡ cause_in (width_is sheet.entry.size) sheet.entry.bytes.now k }
{
    cause_of(record_at(sheet.size, sheet.bytes, sheet.start + k))
}

// How many of the first n engines have the cause.
fn equal_causes(sheet: TestedSheet, n: usize, cause: u32) -> usize
    requires { EnginesRange sheet n }
    ensures { result ≡ equal_causes_lem (width_is sheet.entry.size) sheet.entry.bytes.now n cause }
{
    let mut count: usize = 0;
    for k in 0..n {
        count += (cause_at(sheet, k) == cause) as usize;
    }
    count
}

// Whether the cause is one that is known, and one of the first n engines has it: "two equal known causes".
fn repeats(sheet: TestedSheet, n: usize, cause: u32) -> bool
    requires { EnginesRange sheet n }
    ensures { result ≡ repeats_by (width_is sheet.entry.size) sheet.entry.bytes.now n cause }
{
    if (cause == 0) | (cause == PENDING) {
        return false;
    }
    1 <= equal_causes(sheet, n, cause)
}

// The rows of plan 4. Without a gross emitter they are not gone through; with two or more a series that reaches the last row is referred.
fn in_service_gate(sheet: TestedSheet, engines: usize) -> Gate
    requires { InServiceRange sheet engines }
    ensures { gate_is result ≡ in_service_gate_lem (width_is sheet.entry.size) sheet.entry.bytes.now engines }
{
    let emitters = engines - equal_causes(sheet, engines, 0);
    if emitters == 0 {
        return Gate::Open(engines as u8);
    }
    let mut repeated = false;
    let mut pending = false;
    for n in 0..engines {
        let cause = cause_at(sheet, n);
        repeated = repeated | repeats(sheet, n, cause);
        pending = pending | (cause == PENDING);
        let before = n as u8;
        let row = n + 1;
        if (3 <= row) & repeated {
            return Gate::Cause(before);
        }
        if (3 <= row) & pending {
            return Gate::Held(before);
        }
        if (row == LAST_ROW) & (2 <= emitters) {
            return Gate::Referral(before);
        }
    }
    Gate::Open(engines as u8)
}

// The rows of the sheet; plans 1 to 3 and 5 end no series before a row's statistics. For `tally` alone, which has the number of engines from the check: so it may require.
pub fn gate_of(sheet: TestedSheet, engines: usize) -> Gate
    requires { GateRange sheet engines }
    ensures { gate_is result ≡ gate_of_lem (width_is sheet.entry.size) (plan_is sheet.entry.plan) sheet.entry.bytes.now engines }
{
    let rows = engines as u8;
    match sheet.plan {
        Plan::InService => in_service_gate(sheet, engines),
        _ => Gate::Open(rows),
    }
}

// The first row whose statistics are looked at, of a sheet with three engines or more; 02, F-11: "only row 3 is left open for gross
// emitters". For `statistics` alone, likewise.
pub fn first_row(sheet: TestedSheet) -> usize
    requires { FirstRange sheet }
    ensures { result ≡ first_row_lem (width_is sheet.entry.size) sheet.entry.bytes.now }
{
    if sheet.plan == Plan::InService && (0..3).any(|k| cause_at(sheet, k) != 0) {
        4
    } else {
        3
    }
}
