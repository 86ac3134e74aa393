// A plan with its printed table.
ghost use Rattle.plan.specs.Plan.{plan_is};
ghost use Rattle.tables.specs.Tables.{Lent};

use plan::Plan;

// The table of a plan that takes logarithms: A and B of each row from 3 to the plan's last, with their signs. That the numbers are the plan's is part
// of the type.
#[derive(Clone, Copy)]
pub struct PlanTable<'a> {
    pub plan: Plan,
    pub rows: &'a [[i32; 2]],
    pub ghost holds: { Lent (plan_is plan) rows.now },
}
