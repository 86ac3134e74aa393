// A decision for each pollutant: open, or passed or failed with its engine.
#![tactic(auto)]

ghost use Rattle.std.specs.Prelude.{◌≡◌, map};
ghost use Rattle.rules.specs.Series.{pair_of};
ghost use Rattle.columns.specs.Columns as columns;
ghost use Rattle.decisions.specs.Decisions.{decision_is, is_declared, pair_is, decisions_is, declared_is_lem};

use pollutants::Each;

// What is said of a pollutant, with the engine where there is one.
#[derive(Clone, Copy, PartialEq, Eq)]
pub enum Decision {
    Undeclared,
    Open,
    Passed(u8),
    Failed(u8),
}

// "decision (0 open or undeclared, 1 pass, 2 fail) and engine (0 where the decision is 0)"
#[derive(Clone, Copy, PartialEq, Eq)]
pub struct Pair {
    pub decision: u8,
    pub engine: u8,
}

impl Decision {
    // The decision as document 01's two numbers, for the report that C reads.
    pub fn pair(self) -> Pair
        ensures { pair_is result ≡ pair_of (decision_is self) }
    {
        match self {
            Decision::Undeclared | Decision::Open => Pair {
                decision: 0,
                engine: 0,
            },
            Decision::Passed(n) => Pair {
                decision: 1,
                engine: n,
            },
            Decision::Failed(n) => Pair {
                decision: 2,
                engine: n,
            },
        }
    }

    // What is left of it in the rows to m.
    fn up_to(self, m: u8) -> Decision
        ensures { (decision_is result ≡ columns.up_to m (decision_is self)) × (is_declared result ≡ is_declared self) }
    {
        match self {
            Decision::Passed(n) | Decision::Failed(n) if m < n => Decision::Open,
            _ => self,
        }
    }
}

// What is left in the rows to m of a decision for each pollutant.
pub fn up_to(decisions: Each<Decision>, m: u8) -> Each<Decision>
    ensures { (decisions_is result ≡ map (columns.up_to m) (decisions_is decisions)) × (declared_is_lem result ≡ declared_is_lem decisions) }
{
    Each {
        co: decisions.co.up_to(m),
        hc: decisions.hc.up_to(m),
        nox: decisions.nox.up_to(m),
        pm: decisions.pm.up_to(m),
        fifth: decisions.fifth.up_to(m),
        sixth: decisions.sixth.up_to(m),
    }
}
