// The lines that the program `verdict` prints for a sheet: document 01, "Series that stand on a line".
#![tactic(auto)]

ghost use Rattle.std.specs.Prelude.{[], ◌∷◌, ◌+◌, length};
ghost use Rattle.rules.specs.Logarithm.{squarings};
ghost use Rattle.rules.specs.Sheet.{pollutants};
ghost use Rattle.rules.specs.Printed.{decimal, line, printed};
ghost use Rattle.lines.specs.Writing.{room, nothing, Adds, Written};
ghost use Rattle.tally.specs.Judgements.{numbers_of_lem};
ghost use Rattle.printing.specs.Judgements.{first_line_lem, decision_line, judgement_lines_lem};

use decisions::Decision;
use layout::Size;
use lines::Lines;
use pollutants::Each;
use series::judge;
use tally::{Judgement, Numbers, Verdict};

// A line of a word and two numbers.
fn line_of(word: &[u8], a: u8, b: u8) -> Lines
    ensures { Adds nothing result (line (word.now ∷ decimal a ∷ decimal b ∷ [])) (length word.now + 9) }
{
    Lines::nothing()
        .with_word(word)
        .with_byte(b' ')
        .with_number(a as u32)
        .with_byte(b' ')
        .with_number(b as u32)
        .with_byte(b'\n')
}

// "Line 1: verdict word (another, pass, fail, referred), engine, ground"; 02, F-5: "printed `held`"
fn first_line(verdict: Verdict) -> Lines
    ensures { Adds nothing result (first_line_lem (numbers_of_lem verdict)) 17 }
{
    let Numbers {
        engine,
        grounds,
        ..
    } = verdict.numbers();
    match verdict {
        Verdict::Another(_) => line_of(b"another", engine, grounds),
        Verdict::Pass(_) => line_of(b"pass", engine, grounds),
        Verdict::FailByRow(_) => line_of(b"fail", engine, grounds),
        Verdict::FailByCause(_) => line_of(b"fail", engine, grounds),
        Verdict::FailByStop(_) => line_of(b"fail", engine, grounds),
        Verdict::Referred(_) => line_of(b"referred", engine, grounds),
        Verdict::Held(_) => line_of(b"held", engine, grounds),
    }
}

// A line of a pollutant: "number, open/pass/fail, engine".
fn with_decision(lines: Lines, p: u8, word: &[u8], engine: u8) -> Lines
    ensures { Adds lines result (line (decimal p ∷ word.now ∷ decimal engine ∷ [])) (length word.now + 9) }
{
    lines
        .with_number(p as u32)
        .with_byte(b' ')
        .with_word(word)
        .with_byte(b' ')
        .with_number(engine as u32)
        .with_byte(b'\n')
}

// "a line for each declared pollutant"
fn with_pollutant(lines: Lines, p: u8, decision: Decision) -> Lines
    ensures { Adds lines result (decision_line p decision) 13 }
{
    match decision {
        Decision::Undeclared => lines,
        Decision::Open => with_decision(lines, p, b"open", 0),
        Decision::Passed(engine) => with_decision(lines, p, b"pass", engine),
        Decision::Failed(engine) => with_decision(lines, p, b"fail", engine),
    }
}

// Line 1, and a line for each of the four pollutants of a sheet of 20-byte records.
fn judgement_lines(judgement: Judgement) -> Lines
    ensures { Adds nothing result (judgement_lines_lem judgement) room }
{
    let Judgement { verdict, decisions } = judgement;
    let Each {
        co,
        hc,
        nox,
        pm,
        ..
    } = decisions;
    let lines = first_line(verdict);
    let lines = with_pollutant(lines, 1, co);
    let lines = with_pollutant(lines, 2, hc);
    let lines = with_pollutant(lines, 3, nox);
    with_pollutant(lines, 4, pm)
}

// The lines for the bytes of a sheet of 20-byte records, whatever they are.
pub fn print(sheet: &[u8]) -> Lines
    ensures { Written result (printed pollutants squarings sheet.now) }
{
    match judge(Size::TWENTY, sheet) {
        Ok(judgement) => judgement_lines(judgement),
        // "A refusal prints `refused`, number, record."
        Err(refusal) => line_of(b"refused", refusal.number, refusal.place),
    }
}
