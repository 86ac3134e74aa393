// Enters the finding of a vehicle whose cause was sought: 02, F-5.
#![tactic(auto)]

ghost use Rattle.std.specs.Prelude.{◌≡◌};
ghost use Rattle.rules.specs.Findings.{enter_sized, entered_sized};
ghost use Rattle.layout.specs.Sizes.{width_is};
ghost use Rattle.outcomes.specs.Outcomes.{outcome_is};
ghost use Rattle.entering.specs.Engines.{cause_of_lem};

use checking::sheet::AcceptedSheet;
use checking::{Refusal, check_sheet};
use layout::Size;
use outcomes::checked_outcome;
use record::{PENDING, cause_of, record_at};
use refusals::Reason;

// The cause of an engine, counted from 1; 0 where the sheet has none of that number.
fn cause_at(sheet: AcceptedSheet, engine: u32) -> u32
    ensures { result ≡ cause_of_lem (width_is sheet.entry.size) sheet.entry.bytes.now engine }
{
    if (engine == 0) | (sheet.said.engines < engine) {
        return 0;
    }
    cause_of(record_at(
        sheet.size,
        sheet.bytes,
        sheet.said.head as usize + (engine as usize - 1),
    ))
}

// "A new operation enters the finding and changes only that record's two cause bytes.", of the sheet in lent memory. The engine is counted
// from 1.
pub fn enter(size: usize, sheet: &mut [u8], engine: u32, finding: u32) -> Result<(), Refusal>
    ensures result_value { outcome_is result ≡ enter_sized size sheet.old engine finding }
    ensures sheet_after { sheet.new ≡ entered_sized size sheet.old engine finding }
{
    // "30, size not 20 or 28, before every other"
    let size = Size::try_from(size)?;
    let checked = check_sheet(size, sheet);
    let Ok(said) = checked else {
        return checked_outcome(checked);
    };
    let accepted = AcceptedSheet {
        size,
        bytes: sheet,
        said,
    };
    let cause = cause_at(accepted, engine);
    // "23, no pending vehicle at that engine, counted from 1"
    if cause != PENDING {
        return Err(Reason::NotPending.into());
    }
    // "24, finding not 1 to 65,534, after 23"
    if (finding == 0) | (PENDING <= finding) {
        return Err(Reason::Finding.into());
    }
    // "bytes 2-3 cause"
    let at = size.bytes() * (said.head as usize + (engine as usize - 1)) + 2;
    let [low, high] = (finding as u16).to_le_bytes();
    sheet[at] = low;
    sheet[at + 1] = high;
    Ok(())
}
