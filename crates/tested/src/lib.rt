// A sheet that the check accepts, as judging reads it.
ghost use Rattle.accepted.specs.Sheets.{AcceptedSheet};
ghost use Rattle.layout.specs.Sizes.{width_is};
ghost use Rattle.plan.specs.Plan.{plan_is};

use layout::Size;
use plan::Plan;

// Its bytes, by the size of its records, its plan, and the record that its engines begin at. That the check accepts it, and that plan and start are its own,
// is part of the type: so a function that takes one requires nothing of them.
#[derive(Clone, Copy)]
pub struct TestedSheet<'a> {
    pub size: Size,
    pub bytes: &'a [u8],
    pub plan: Plan,
    pub start: usize,
    pub ghost accepted: { AcceptedSheet (width_is size) bytes.now (plan_is plan) start },
}
