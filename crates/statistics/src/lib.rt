// A pollutant's column of the sheet: its limit, and its measurements engine after engine to the row that decides.
#![tactic(auto)]

ghost use Rattle.layout.specs.Sizes.{width_is};
ghost use Rattle.statistics.specs.Column.{ColumnIs};
ghost use Rattle.statistics.specs.Ranges.{ColumnRange};

mod count;
mod logarithms;

use corrections::correction_of;
use decisions::Decision;
use tables::table_of;
use tested::TestedSheet;

// The decision of a pollutant after the rows to `rows`, none of which ends the series before its statistics.
// For `tally` alone, with a declared pollutant of the sheet: so it may require.
pub fn column(sheet: TestedSheet, number: u32, limit: u32, deviation: u32, rows: usize) -> Decision
    requires { ColumnRange (width_is sheet.size) sheet.bytes.now sheet.plan number limit deviation rows }
    ensures { ColumnIs (width_is sheet.entry.size) sheet.entry.plan sheet.entry.bytes.now number limit deviation rows result }
{
    // "Rows are walked from 3."
    if rows < 3 {
        return Decision::Open;
    }
    let correction = correction_of(sheet, number);
    // Plan 3, which has no table, counts the engines over the limit; the others take logarithms. A table is chosen here, once for a column, and lent whole.
    match table_of(sheet.plan) {
        Some(table) => {
            logarithms::column(sheet, number, limit, correction, deviation, rows, table)
        }
        None => count::column(sheet, number, limit, correction, rows),
    }
}
