// Measurements known within a range: 02, F-8. What a low and a high sheet say of every sheet between them.
#![tactic(auto)]

ghost use Rattle.std.specs.Prelude.{◌≡◌};
ghost use Rattle.rules.specs.Logarithm.{squarings};
ghost use Rattle.rules.specs.Refusals.{accepted};
ghost use Rattle.rules.specs.Operations.{judge};
ghost use Rattle.rules.specs.Ranges as rules;
ghost use Rattle.layout.specs.Sizes.{width_is};
ghost use Rattle.judging_ranges.specs.Ranges.{range_of, range_is, VerdictSays, BothSized};

use checking::sheet::AcceptedSheet;
use checking::{Refusal, check_sheet, why_refused};
use comparing::compare;
use layout::Size;
use plan::Plan;
use refusals::Reason;
use tally::{Verdict, judgement_of};

// "answer: passes surely, fails surely, or depends", with "the latest engine at which any of them is decided".
#[derive(Clone, Copy, PartialEq, Eq)]
pub enum Range {
    PassesSurely(u8),
    FailsSurely(u8),
    Depends,
}

// The verdict on a sheet that the check accepts.
fn verdict_of(sheet: AcceptedSheet) -> Verdict
    ensures { VerdictSays (width_is sheet.entry.size) sheet.entry.bytes.now result }
{
    let judgement = judgement_of(sheet);
    judgement.verdict
}

// Of two sheets that are not turned away: where the high sheet passes every sheet between them does, and where the low sheet fails every one
// does. Each is judged once, and the low one only where the high one does not pass.
fn surely(low: AcceptedSheet, high: AcceptedSheet) -> Range
    requires { BothSized low high }
    ensures { range_of result ≡ rules.range_by accepted (judge (width_is low.entry.size) squarings low.entry.bytes.now) (judge (width_is low.entry.size) squarings high.entry.bytes.now) }
{
    if let Verdict::Pass(n) = verdict_of(high) {
        return Range::PassesSurely(n);
    }
    match verdict_of(low) {
        Verdict::FailByRow(n) => Range::FailsSurely(n),
        Verdict::FailByCause(n) => Range::FailsSurely(n),
        Verdict::FailByStop(n) => Range::FailsSurely(n),
        Verdict::Another(_) => Range::Depends,
        Verdict::Pass(_) => Range::Depends,
        Verdict::Referred(_) => Range::Depends,
        Verdict::Held(_) => Range::Depends,
    }
}

// Of two sheets of the same size that the check accepts.
fn judge_accepted(low: AcceptedSheet, high: AcceptedSheet) -> Result<Range, Refusal>
    requires { BothSized low high }
    ensures { range_is result ≡ rules.range (width_is low.entry.size) squarings low.entry.bytes.now high.entry.bytes.now }
{
    // "27, sheets differ elsewhere"
    if low.bytes.len() != high.bytes.len() {
        return Err(Reason::SheetsDiffer.into());
    }
    let found = compare(low.size, low.bytes, high.bytes, low.said.head as usize);
    // "Plans 1 and 3."
    let plan = low.said.plan;
    let other_plan = (plan != Plan::KnownDeviation as u32) & (plan != Plan::Attributes as u32);
    // "or in the first engine of a run-in sheet"
    if found.differs {
        return Err(Reason::SheetsDiffer.into());
    }
    // "28, a low above its high, after 27"
    if found.crosses {
        return Err(Reason::LowAboveHigh.into());
    }
    // "29, another plan, after 28"
    if other_plan {
        return Err(Reason::OtherPlan.into());
    }
    Ok(surely(low, high))
}

// The answer for the bytes of two sheets of records of that size, whatever they are: "each sheet's own number, low sheet first".
pub fn judge_range(size: usize, low: &[u8], high: &[u8]) -> Result<Range, Refusal>
    ensures { range_is result ≡ rules.range_sized size squarings low.now high.now }
{
    // "30, size not 20 or 28, before every other"
    let size = Size::try_from(size)?;
    let checked_low = check_sheet(size, low);
    let Ok(said_low) = checked_low else {
        return Err(why_refused(checked_low));
    };
    let checked_high = check_sheet(size, high);
    let Ok(said_high) = checked_high else {
        return Err(why_refused(checked_high));
    };
    judge_accepted(
        AcceptedSheet {
            size,
            bytes: low,
            said: said_low,
        },
        AcceptedSheet {
            size,
            bytes: high,
            said: said_high,
        },
    )
}
