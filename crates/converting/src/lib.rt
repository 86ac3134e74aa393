// The converter: carries an accepted sheet from one record size to the other, record by record.
#![tactic(auto)]

ghost use Rattle.std.specs.Prelude.{◌≡◌, ◌++◌, length, drop};
ghost use Rattle.rules.specs.Sheet.{pollutants};
ghost use Rattle.rules.specs.Converter as rules;
ghost use Rattle.layout.specs.Sizes.{width_is};
ghost use Rattle.outcomes.specs.Outcomes.{outcome_is};
ghost use Rattle.converting.specs.Recasting.{added_bytes_lem, recast, RecastRange};

use checking::{Refusal, check_sheet};
use layout::Size;
use outcomes::checked_outcome;
use record::record_at;
use refusals::Reason;

// How many zeros stand behind the first 20 bytes of a record in the other size: "added bytes zero".
fn added_bytes(size: Size) -> usize
    ensures { result ≡ added_bytes_lem size }
{
    match size {
        Size::Twenty => Size::TWENTY_EIGHT - Size::TWENTY,
        Size::TwentyEight => 0,
    }
}

// The records of a sheet, of each the first 20 bytes and so many zeros. One loop for both ways.
fn recast(size: Size, added: usize, sheet: &[u8], output: &mut [u8])
    requires { RecastRange (width_is size) added sheet.now output.old }
    ensures { output.new ≡ recast (width_is size) added sheet.now ++ drop (length (recast (width_is size) added sheet.now)) output.old }
{
    for k in 0..size.records_in(sheet.len()) {
        let r = record_at(size, sheet, k);
        let at = (Size::TWENTY + added) * k;
        let behind = at + Size::TWENTY;
        output[at..behind].copy_from_slice(&r[..Size::TWENTY]);
        output[behind..behind + added].fill(0);
    }
}

// "a converter carries accepted sheets both ways, record by record, added bytes zero and output bytes past the sheet untouched". The size is that of the given sheet, and the output gets the other.
pub fn convert(size: usize, sheet: &[u8], output: &mut [u8]) -> Result<(), Refusal>
    ensures result_value { outcome_is result ≡ rules.convert pollutants rules.added_pollutants size sheet.now output.old }
    ensures output_after { output.new ≡ rules.converted pollutants rules.added_pollutants size sheet.now output.old }
{
    // "30, size not 20 or 28, before every other"
    let size = Size::try_from(size)?;
    let checked = check_sheet(size, sheet);
    let Ok(said) = checked else {
        return checked_outcome(checked);
    };
    let limits = said.limits;
    // "31, narrowing a sheet that declares pollutant 5 or 6": one of 20-byte records declares neither
    if (limits.fifth != 0) | (limits.sixth != 0) {
        return Err(Reason::Narrowing.into());
    }
    let added = added_bytes(size);
    // "32, converter output too short, after 31"
    if output.len() < (Size::TWENTY + added) * size.records_in(sheet.len()) {
        return Err(Reason::ConverterOutput.into());
    }
    recast(size, added, sheet, output);
    Ok(())
}
