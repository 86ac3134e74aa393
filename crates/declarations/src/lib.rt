// The refusal of a record that declares a pollutant: 3 to 7 and 12.
#![tactic(auto)]

ghost use Rattle.std.specs.Prelude.{◌≡◌};
ghost use Rattle.refusals.specs.Numbers.{fault_number};
ghost use Rattle.declarations.specs.Declarations.{pollutant_by_lem, pollutant_fault_lem};

use layout::Size;
use plan::Plan;
use record::{Kind, deviation_of, limit_of, number_of, plan_of};
use refusals::Reason;
use summary::Summary;
use values::is_outside;
use zeros::pollutant_unused;

// The greatest deviation of plan 1.
const GREATEST_DEVIATION: u32 = 4_000_000;

// The refusal of a pollutant, by its numbers and by whether another byte of it is not zero.
#[tactic(auto, unfolding(crate::specs::Declarations::pollutant_by_lem))]
fn pollutant_by(
    pollutants: u32,
    s: Summary,
    number: u32,
    plan: u32,
    limit: u32,
    deviation: u32,
    unused: bool,
) -> Result<(), Reason>
    ensures { fault_number result ≡ pollutant_by_lem pollutants s number plan limit deviation unused }
{
    // "3, .. kind 1 after another kind"
    if (Kind::Pollutant as u32) < s.kind {
        return Err(Reason::Order);
    }
    // "4, pollutant number not 1 to 4 or not above the one before"; 02, F-10: "pollutant numbers run to 6"
    if !((1 <= number) & (number <= pollutants)) | (number <= s.number) {
        return Err(Reason::PollutantNumber);
    }
    // "5, plan not 1 to 4 or unlike the first"; 02, F-6: "Refusal 5 admits plan 5."
    if !((1 <= plan) & (plan <= Plan::Corrected as u32)) | ((s.kind != 0) & (plan != s.plan)) {
        return Err(Reason::Plan);
    }
    // "6, limit out of range"
    if is_outside(limit) {
        return Err(Reason::Limit);
    }
    // "7, deviation": "1 to 4,000,000 in plan 1, zero otherwise"
    let known = plan == Plan::KnownDeviation as u32;
    if (known & !((1 <= deviation) & (deviation <= GREATEST_DEVIATION)))
        | (!known & (deviation != 0))
    {
        return Err(Reason::Deviation);
    }
    // "12, another byte that must be zero"
    if unused {
        return Err(Reason::UnusedByte);
    }
    Ok(())
}

// The refusal of a pollutant, by its record.
#[tactic(auto, unfolding(crate::specs::Declarations::pollutant_fault_lem))]
pub fn pollutant_fault(size: Size, s: Summary, r: &[u8], rest: bool) -> Result<(), Reason>
    ensures { fault_number result ≡ pollutant_fault_lem size s r.now rest }
{
    pollutant_by(
        size.pollutants(),
        s,
        number_of(r),
        plan_of(r),
        limit_of(r),
        deviation_of(r),
        pollutant_unused(r, rest),
    )
}
