// Report writes what judging answers into lent memory.
#![tactic(auto)]

ghost use Rattle.std.specs.Prelude.{◌≡◌};
ghost use Rattle.rules.specs.Logarithm.{squarings};
ghost use Rattle.rules.specs.Sheet.{more_pollutants};
ghost use Rattle.rules.specs.Operations as rules;
ghost use Rattle.rules.specs.Sizes.{report_sized, reported_sized};
ghost use Rattle.tally.specs.Judgements.{judgement_is};
ghost use Rattle.outcomes.specs.Outcomes.{outcome_is};

use checking::Refusal;
use layout::Size;
use pollutants::Each;
use refusals::Reason;
use series::judge_sheet;
use tally::{Judgement, Numbers};

// "16 as the mark of a report, verdict, ground, engine, four pairs of decision and engine, pollutant 1 first, eight zeros"; 02, F-10: "28 bytes with six pairs and twelve zeros".
// Where pollutants 5 and 6 are not declared, its first 20 bytes are the report of 20 bytes.
fn values(judgement: Judgement) -> [u8; 28]
    ensures { result ≡ rules.report_bytes more_pollutants (judgement_is judgement) }
{
    let Judgement { verdict, decisions } = judgement;
    let Numbers {
        verdict,
        engine,
        grounds,
    } = verdict.numbers();
    let Each {
        co,
        hc,
        nox,
        pm,
        fifth,
        sixth,
    } = decisions;
    let co = co.pair();
    let hc = hc.pair();
    let nox = nox.pair();
    let pm = pm.pair();
    let fifth = fifth.pair();
    let sixth = sixth.pair();
    [
        16,
        verdict,
        grounds,
        engine,
        co.decision,
        co.engine,
        hc.decision,
        hc.engine,
        nox.decision,
        nox.engine,
        pm.decision,
        pm.engine,
        fifth.decision,
        fifth.engine,
        sixth.decision,
        sixth.engine,
        0,
        0,
        0,
        0,
        0,
        0,
        0,
        0,
        0,
        0,
        0,
        0,
    ]
}

// "Report writes 20 bytes, one for each value": "15, output under 20 bytes, record 0; then as judge. Bytes past 20 stay."; 02, F-10: "13 to 15 count 28 bytes for the new size".
pub fn report(size: usize, sheet: &[u8], output: &mut [u8]) -> Result<(), Refusal>
    ensures result_value { outcome_is result ≡ report_sized size sheet.now output.old }
    ensures output_after { output.new ≡ reported_sized size squarings sheet.now output.old }
{
    // "30, size not 20 or 28, before every other"
    let size = Size::try_from(size)?;
    if output.len() < size.bytes() {
        return Err(Reason::OutputLength.into());
    }
    let judgement = judge_sheet(size, sheet)?;
    let values = values(judgement);
    // A number of the program for each size, so that no loop over the bytes is left.
    match size {
        Size::Twenty => {
            output[..Size::TWENTY].copy_from_slice(&values[..Size::TWENTY]);
        }
        Size::TwentyEight => {
            output[..Size::TWENTY_EIGHT].copy_from_slice(&values);
        }
    }
    Ok(())
}
