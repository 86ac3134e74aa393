// The columns of an accepted sheet one after the other, each to the least failing row so far, and the verdict on them together.
#![tactic(auto)]

ghost use Rattle.std.specs.Prelude.{◌≡◌};
ghost use Rattle.columns.specs.Tally.{counted};
ghost use Rattle.layout.specs.Sizes.{width_is};
ghost use Rattle.pollutants.specs.Each.{with_lem};
ghost use Rattle.decisions.specs.Decisions.{decision_is};
ghost use Rattle.tally.specs.Judgements.{numbers_of_lem, deciding_lem, JudgementIs};
ghost use Rattle.tally.specs.Tally.{tally_is, VerdictIs, GateFits};

use causes::{Gate, gate_of};
use checking::sheet::AcceptedSheet;
use decisions::{Decision, up_to};
use plan::Plan;
use pollutants::Each;
use record::{Kind, deviation_of, limit_of, number_of, record_at};
use statistics::column;
use tested::TestedSheet;

// A verdict with its engine; for another, the engines so far, and for held the row. A fail has its ground in its name.
#[derive(Clone, Copy, PartialEq, Eq)]
pub enum Verdict {
    Another(u8),
    Pass(u8),
    FailByRow(u8),
    FailByCause(u8),
    FailByStop(u8),
    Referred(u8),
    Held(u8),
}

// "verdict (0 another, 1 pass, 2 fail, 3 referred), engine (for another, the engines so far), ground (0 none, 1 a row, 2 equal cause, 3 stopped, 4 referred)"; 02, F-5: "the verdict is 4, printed `held`, at that row with ground 5"
#[derive(Clone, Copy, PartialEq, Eq)]
pub struct Numbers {
    pub verdict: u8,
    pub engine: u8,
    pub grounds: u8,
}

fn numbered(verdict: u8, engine: u8, grounds: u8) -> Numbers
    ensures { result ≡ record { verdict = verdict; engine = engine; grounds = grounds } }
{
    Numbers {
        verdict,
        engine,
        grounds,
    }
}

impl Verdict {
    // The verdict as document 01's numbers, for the report and for the printed line.
    pub fn numbers(self) -> Numbers
        ensures { result ≡ numbers_of_lem self }
    {
        match self {
            Verdict::Another(n) => numbered(0, n, 0),
            Verdict::Pass(n) => numbered(1, n, 1),
            Verdict::FailByRow(n) => numbered(2, n, 1),
            Verdict::FailByCause(n) => numbered(2, n, 2),
            Verdict::FailByStop(n) => numbered(2, n, 3),
            Verdict::Referred(n) => numbered(3, n, 4),
            Verdict::Held(n) => numbered(4, n, 5),
        }
    }

    // The engine whose record decides; none where undecided, stopped or referred, and where held.
    pub fn deciding(self) -> Option<u8>
        ensures { result ≡ deciding_lem self }
    {
        match self {
            Verdict::Another(_) => None,
            Verdict::Pass(n) => Some(n),
            Verdict::FailByRow(n) => Some(n),
            Verdict::FailByCause(n) => Some(n),
            Verdict::FailByStop(_) => None,
            Verdict::Referred(_) => None,
            Verdict::Held(_) => None,
        }
    }
}

// What is said of an accepted sheet: the verdict, and a decision for each pollutant.
#[derive(Clone, Copy)]
pub struct Judgement {
    pub verdict: Verdict,
    pub decisions: Each<Decision>,
}

// What the columns so far say: the rows that count for the next, the latest pass, whether one has failed or is open, and the decisions.
#[derive(Clone, Copy)]
pub struct Tally {
    pub rows: u8,
    pub latest: u8,
    pub failed: bool,
    pub waits: bool,
    pub decisions: Each<Decision>,
}

impl Tally {
    // With the column of the pollutant of that number.
    fn with(self, number: u32, d: Decision) -> Tally
        ensures { (tally_is result ≡ counted number (decision_is d) (tally_is self)) × (result.decisions ≡ with_lem self.decisions number d) }
    {
        let decisions = self.decisions.with(number, d);
        match d {
            Decision::Undeclared | Decision::Open => Tally {
                waits: true,
                decisions,
                ..self
            },
            Decision::Passed(n) => Tally {
                latest: self.latest.max(n),
                decisions,
                ..self
            },
            Decision::Failed(n) => Tally {
                rows: n,
                failed: true,
                decisions,
                ..self
            },
        }
    }

    // "Any fail in a row: the series fails there .. All passed: pass." Else what ended the rows: "A stop on an undecided series fails it at the engines tested .. Otherwise: another."
    fn verdict(self, gate: Gate, stop: bool, engines: u8) -> Verdict
        requires { GateFits gate }
        ensures { VerdictIs self gate stop engines result }
    {
        if self.failed {
            return Verdict::FailByRow(self.rows);
        }
        if !self.waits {
            return Verdict::Pass(self.latest);
        }
        match gate {
            Gate::Open(_) => {
                if stop {
                    Verdict::FailByStop(engines)
                } else {
                    Verdict::Another(engines)
                }
            }
            Gate::Cause(n) => Verdict::FailByCause(n + 1),
            Gate::Held(n) => Verdict::Held(n + 1),
            Gate::Referral(n) => Verdict::Referred(n + 1),
        }
    }
}

// The judgement of a sheet that the check accepts: the columns of its declared pollutants, which are its first records, and the verdict on them together.
pub fn judgement_of(sheet: AcceptedSheet) -> Judgement
    ensures { JudgementIs (width_is sheet.entry.size) sheet.entry.bytes.now result }
{
    let AcceptedSheet { size, bytes, said } = sheet;
    let declared = said.pollutants as usize;
    let start = said.head as usize;
    let tested = TestedSheet {
        size,
        bytes,
        plan: Plan::of(said.plan),
        start,
    };
    let gate = gate_of(tested, said.engines as usize);
    let mut t = Tally {
        rows: gate.rows(),
        latest: 0,
        failed: false,
        waits: false,
        decisions: Each::all(Decision::Undeclared),
    };
    for k in 0..declared {
        let r = record_at(size, bytes, k);
        let number = number_of(r);
        let d = column(
            tested,
            number,
            limit_of(r),
            deviation_of(r),
            t.rows as usize,
        );
        t = t.with(number, d);
    }
    // decisions later than the least failing row are open
    Judgement {
        verdict: t.verdict(gate, said.kind == Kind::Stop as u32, said.engines as u8),
        decisions: up_to(t.decisions, t.rows),
    }
}
