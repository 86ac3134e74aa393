// Plans 1, 2, 4 and 5: the sums of the measurements' logarithms and of their squares, and the rows by them.
ghost use Rattle.statistics.specs.Column.{RowFrom};
ghost use Rattle.statistics.specs.Columns.{LogarithmsIn, DecidesIn};
ghost use Rattle.statistics.specs.Ranges.{RowRange};

use causes::first_row;
use corrections::{Correction, log2_of};
use decisions::Decision;
use fours::measured::MeasuredColumn;
use fours::{four_with, put_four};
use plan::Plan;
use rows::Row;
use tables::table::PlanTable;
use tested::TestedSheet;

// What row n of the table's plan says by the sums, where each d_j is a measurement's logarithm + gain − level.
// W is n × squares − sum × sum: it stays where every logarithm is moved by the same (rows/proofs/Sums.antt:W-same).
fn row(
    table: PlanTable,
    n: u64,
    sum: u64,
    squares: u64,
    gain: u64,
    level: u64,
    deviation: u64,
) -> Row
    requires { RowRange table.plan n sum squares gain level deviation }
    ensures { RowFrom table.entry.plan n sum squares gain level deviation result }
{
    let added = sum + n * gain;
    if let Plan::KnownDeviation = table.plan {
        rows::known_row(n, table, added, level, deviation)
    } else {
        rows::root_row(n, table, added, n * level, n * squares - sum * sum)
    }
}

// A column of these plans, by the plan's table: the sums stand in locals, and the logarithms come in fours.
pub(crate) fn column(
    sheet: TestedSheet,
    number: u32,
    limit: u32,
    correction: Correction,
    deviation: u32,
    rows: usize,
    table: PlanTable,
) -> Decision
    requires { LogarithmsIn sheet number limit correction deviation rows table.plan }
    ensures { DecidesIn sheet.entry sheet.entry.plan number limit deviation rows result }
{
    let first = first_row(sheet);
    let column = MeasuredColumn {
        size: sheet.size,
        bytes: sheet.bytes,
        start: sheet.start,
        number,
        rows,
    };
    let mut logs = [0u32; 4];
    put_four(&mut logs, limit, column, 0);
    let gain = log2_of(correction.value) as u64;
    let level = logs[0] as u64 + log2_of(correction.first) as u64;
    let mut sum: u64 = 0;
    let mut squares: u64 = 0;
    for i in 0..rows {
        four_with(&mut logs, column, i);
        let n = i + 1;
        let y = logs[n % 4] as u64;
        sum = sum + y;
        squares = squares + y * y;
        if first <= n {
            match row(table, n as u64, sum, squares, gain, level, deviation as u64) {
                Row::Open => {}
                Row::Pass => {
                    return Decision::Passed(n as u8);
                }
                Row::Fail => {
                    return Decision::Failed(n as u8);
                }
            }
        }
    }
    Decision::Open
}
