// The refusal of a record, given what the records before it say: the first in the order of the refusals.
#![tactic(auto)]

ghost use Rattle.std.specs.Prelude.{◌≡◌};
ghost use Rattle.record.specs.Kinds.{kind_number};
ghost use Rattle.refusals.specs.Numbers.{number_is, fault_number};
ghost use Rattle.faults.specs.Faults.{engine_fault_by, stop_fault_lem, unmeasured_fault_lem, fault_by};

use declarations::pollutant_fault;
use gross_emitters::bad_cause;
use layout::Size;
use measurements::{bad_behind, bad_measurement};
use numbers::byte_at;
use plan::Plan;
use record::{Kind, kind_of};
use refusals::Reason;
use small_engines::small_engine_fault;
use summary::Summary;
use zeros::{stop_unused, unused_from_twelve};

// The refusal of an engine, and of run-in values: "refusals 8 and 12 read it as they read an engine". `cause` is that of bytes 2 and 3.
// Inlined, as `unmeasured_fault` is, so that the faults are looked for in the check's loop itself.
#[inline(always)]
#[tactic(auto, unfolding(crate::specs::Faults::engine_fault_by))]
fn engine_fault(size: Size, s: Summary, r: &[u8], cause: Reason) -> Result<(), Reason>
    ensures { fault_number result ≡ engine_fault_by size s r.now (number_is cause) }
{
    let limits = s.limits;
    if s.misplaces_others() {
        return Err(Reason::Order);
    }
    if bad_measurement(limits, r) {
        return Err(Reason::Measurement);
    }
    if bad_behind(size, limits, r) {
        return Err(Reason::Measurement);
    }
    if bad_cause(size, s, r) {
        return Err(cause);
    }
    // "10, more engines than the last row"
    if s.last_row <= s.engines {
        return Err(Reason::TooManyEngines);
    }
    // "12, another byte that must be zero": "byte 1 zero"
    if byte_at(r, 1) != 0 {
        return Err(Reason::UnusedByte);
    }
    Ok(())
}

// The refusal of a stop.
#[tactic(auto, unfolding(crate::specs::Faults::stop_fault_lem))]
fn stop_fault(s: Summary, r: &[u8], rest: bool) -> Result<(), Reason>
    ensures { fault_number result ≡ stop_fault_lem s r.now rest }
{
    if s.misplaces_others() {
        return Err(Reason::Order);
    }
    // "11, stop in plan 4"
    if s.plan == Plan::InService as u32 {
        return Err(Reason::Stop);
    }
    if stop_unused(r, rest) {
        return Err(Reason::UnusedByte);
    }
    Ok(())
}

// The refusal of a record of that kind, which holds no measurements.
#[inline(always)]
#[tactic(auto, unfolding(crate::specs::Faults::unmeasured_fault_lem))]
fn unmeasured_fault(size: Size, s: Summary, r: &[u8], kind: Kind) -> Result<(), Reason>
    ensures { fault_number result ≡ unmeasured_fault_lem size s r.now (kind_number kind) }
{
    let rest = unused_from_twelve(size, r);
    match kind {
        Kind::Pollutant => pollutant_fault(size, s, r, rest),
        Kind::Stop => stop_fault(s, r, rest),
        Kind::SmallEngine => small_engine_fault(s, r, rest),
        Kind::Engine | Kind::RunIn => Err(Reason::Kind),
    }
}

// The refusal of the record r after those of which s tells, the first in the order of the refusals; "2, kind not 1 to 3", and 02, F-1: "record
// kind 5".
// For engines and for run-in values there is one call.
#[tactic(auto, unfolding(crate::specs::Faults::fault_by, crate::specs::Faults::run_in_fault, crate::specs::Faults::unmeasured_fault_lem))]
pub fn fault_of(size: Size, s: Summary, r: &[u8]) -> Result<(), Reason>
    ensures { fault_number result ≡ fault_by size s r.now }
{
    let kind = Kind::try_from(kind_of(r))?;
    let cause = match kind {
        Kind::Engine => Reason::Cause,
        Kind::RunIn => {
            // 02, F-2: "19, ..", which 3 comes before
            if !s.misplaces_others() & s.misplaces_run_in() {
                return Err(Reason::RunIn);
            }
            Reason::UnusedByte
        }
        Kind::Pollutant | Kind::Stop | Kind::SmallEngine => {
            return unmeasured_fault(size, s, r, kind);
        }
    };
    engine_fault(size, s, r, cause)
}
