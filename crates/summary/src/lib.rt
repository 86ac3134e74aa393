// What the records before one say.
#![tactic(auto)]

ghost use Rattle.std.specs.Prelude.{◌≡◌};
ghost use Rattle.summary.specs.State.{nothing, summary_with, misplaces_others_lem, misplaces_run_in_lem, Room};

use plan::Plan;
use pollutants::Each;
use record::{Kind, kind_of, limit_of, number_of, plan_of};

// What is kept of the records read so far: all that the refusal of the next one looks back at, and what judging starts from.
#[derive(Clone, Copy)]
pub struct Summary {
    // The kind of the last record, 0 where there is none; a number, because `with` says it of a kind that there is not, too.
    pub kind: u32,
    // The plan of the pollutants, 0 where there is none; likewise.
    pub plan: u32,
    // "The last row belongs to the plan". Kept, so that it is not found anew for each engine; 0 where there is no plan.
    pub last_row: u32,
    // The number of the last pollutant, 0 where there is none.
    pub number: u32,
    // 0 where the pollutant is not declared.
    pub limits: Each<u32>,
    // How many pollutants are declared.
    pub pollutants: u32,
    // How many records stand before the first engine: the pollutants, and a small engine and run-in values if there are any.
    pub head: u32,
    // How many engines there are.
    pub engines: u32,
}

impl Summary {
    // No record yet.
    pub fn nothing() -> Summary
        ensures { result ≡ nothing }
    {
        Summary {
            kind: 0,
            plan: 0,
            last_row: 0,
            number: 0,
            limits: Each::all(0),
            pollutants: 0,
            head: 0,
            engines: 0,
        }
    }

    // What is said once the record r, which has no fault, is read too.
    // For `checking` alone, whose loop reads at most 41 records after at most 41, so that no count overflows: so it may require.
    pub fn with(mut self, r: &[u8]) -> Summary
        requires { Room self }
        ensures { result ≡ summary_with self r.now }
    {
        let kind = kind_of(r);
        self.kind = kind;
        match Kind::try_from(kind) {
            Ok(Kind::Pollutant) => {
                let plan = plan_of(r);
                let number = number_of(r);
                let limits = self.limits;
                self.pollutants += 1;
                self.head += 1;
                self.plan = plan;
                self.last_row = Plan::of(plan).last_row();
                self.number = number;
                self.limits = limits.with(number, limit_of(r));
            }
            Ok(Kind::Engine) => self.engines += 1,
            Ok(Kind::Stop) => {}
            Ok(Kind::SmallEngine) => self.head += 1,
            Ok(Kind::RunIn) => self.head += 1,
            Err(_) => {}
        }
        self
    }

    // "3, first record not kind 1 .. or anything after kind 3": whether no record that is not a pollutant may follow.
    pub fn misplaces_others(self) -> bool
        ensures { result ≡ misplaces_others_lem self }
    {
        (self.kind == 0) | (self.kind == Kind::Stop as u32)
    }

    // 02, F-2: "19, a second kind 6, one after an engine or in plan 4". Behind either kind come engines and a stop alone, and behind a stop
    // nothing: so the last record tells.
    pub fn misplaces_run_in(self) -> bool
        ensures { result ≡ misplaces_run_in_lem self }
    {
        (self.kind == Kind::RunIn as u32)
            | (self.kind == Kind::Engine as u32)
            | (self.plan == Plan::InService as u32)
    }
}
