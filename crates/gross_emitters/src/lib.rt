// Refusal 9: which vehicles are gross emitters, and the cause of each.
#![tactic(auto)]

ghost use Rattle.std.specs.Prelude.{◌≡◌};
ghost use Rattle.rules.specs.Sheet.{measurement};
ghost use Rattle.gross_emitters.specs.GrossEmitters.{exceeds, exceeds_behind_lem, gross_by, bad_cause_by};

use layout::Size;
use plan::Plan;
use pollutants::Each;
use record::{cause_of, measurement_of};
use summary::Summary;

// "2x > 3L", of a declared pollutant p: x is above L and half of L, rounded down. Where that sum is above 32 bits no x is above it.
fn exceeds(limit: u32, r: &[u8], p: u32) -> bool
    ensures { result ≡ exceeds limit (measurement r.now p) }
{
    (limit != 0) & (limit.saturating_add(limit / 2) < measurement_of(r, p))
}

// The same for pollutant 5 or 6.
fn exceeds_behind(size: Size, limits: Each<u32>, r: &[u8]) -> bool
    ensures { result ≡ exceeds_behind_lem size limits r.now }
{
    match size {
        Size::Twenty => false,
        Size::TwentyEight => exceeds(limits.fifth, r, 5) | exceeds(limits.sixth, r, 6),
    }
}

// "A gross emitter is a vehicle with 2x > 3L for some pollutant"
// Inlined, as `bad_cause` is.
#[inline(always)]
#[tactic(auto, unfolding(crate::specs::GrossEmitters::gross_by))]
fn is_gross(size: Size, limits: Each<u32>, r: &[u8]) -> bool
    ensures { result ≡ gross_by size limits r.now }
{
    exceeds(limits.co, r, 1)
        | exceeds(limits.hc, r, 2)
        | exceeds(limits.nox, r, 3)
        | exceeds(limits.pm, r, 4)
        | exceeds_behind(size, limits, r)
}

// "9, cause": "In plan 4 its cause is 1 to 65,534, any other vehicle's is 0; in plans 1 to 3 cause is 0.", and in plan 5; 02, F-5: 65,535
// "marks a gross emitter whose finding is pending, and refusal 9 admits it there." So of a gross emitter any number of two bytes but 0.
// Inlined: the compiler left it outside the check's loop, which took 1.4 of its time then.
#[inline(always)]
#[tactic(auto, unfolding(crate::specs::GrossEmitters::bad_cause_by))]
pub fn bad_cause(size: Size, s: Summary, r: &[u8]) -> bool
    ensures { result ≡ bad_cause_by size s r.now }
{
    let limits = s.limits;
    let cause = cause_of(r);
    if s.plan != Plan::InService as u32 {
        return cause != 0;
    }
    if is_gross(size, limits, r) {
        cause == 0
    } else {
        cause != 0
    }
}
