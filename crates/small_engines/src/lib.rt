// The refusal of a record of kind 5, by document 02, F-1.
#![tactic(auto)]

ghost use Rattle.std.specs.Prelude.{◌≡◌};
ghost use Rattle.rules.specs.Refusals.{bad_date_lem};
ghost use Rattle.refusals.specs.Numbers.{fault_number};
ghost use Rattle.small_engines.specs.SmallEngines.{bad_particulate_by, small_engine_fault_lem};

use calendar::is_day;
use particulates::particulate_limit;
use plan::Plan;
use record::Kind;
use record::small_engine::{date_of, speed_of, volume_of};
use refusals::Reason;
use summary::Summary;
use zeros::small_engine_unused;

// "17, date not in the Gregorian calendar of years 1 to 9999"
#[tactic(auto, unfolding(rules::specs::Refusals::bad_date_lem))]
fn bad_date(r: &[u8]) -> bool
    ensures { result ≡ bad_date_lem r.now }
{
    !is_day(date_of(r))
}

// "18, .. a declared particulate limit not the rule's", of the limit, which is 0 where none is declared.
#[tactic(auto, unfolding(crate::specs::SmallEngines::bad_particulate_by))]
fn bad_particulate(limit: u32, r: &[u8]) -> bool
    ensures { result ≡ bad_particulate_by limit r.now }
{
    let rule = particulate_limit(volume_of(r), speed_of(r), date_of(r));
    (limit != 0) & (limit != rule)
}

// The refusal of a small engine.
#[tactic(auto, unfolding(crate::specs::SmallEngines::small_engine_fault_lem))]
pub fn small_engine_fault(s: Summary, r: &[u8], rest: bool) -> Result<(), Reason>
    ensures { fault_number result ≡ small_engine_fault_lem s r.now rest }
{
    let limits = s.limits;
    if s.misplaces_others() {
        return Err(Reason::Order);
    }
    // "16, a second kind 5, one elsewhere or in plan 4": behind a pollutant it is the first
    if (s.kind != Kind::Pollutant as u32) | (s.plan == Plan::InService as u32) {
        return Err(Reason::SmallEngine);
    }
    if bad_date(r) {
        return Err(Reason::Date);
    }
    if bad_particulate(limits.pm, r) {
        return Err(Reason::ParticulateLimit);
    }
    if small_engine_unused(r, rest) {
        return Err(Reason::UnusedByte);
    }
    Ok(())
}
