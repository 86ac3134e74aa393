// Plan 3: "c = engines with x > L"; 02, F-2: "attributes compare x_j × value with L × x_1". It takes no logarithm.
ghost use Rattle.std.specs.Prelude.{ℕ};
ghost use Rattle.plan.specs.declared.Plan.TheVariants.{Attributes};
ghost use Rattle.statistics.specs.Columns.{CountsIn, DecidesIn};

use corrections::{Correction, most_uncounted};
use decisions::Decision;
use numbers::u32_present;
use rows::Row;
use tables::{fail_numbers, pass_numbers};
use tested::TestedSheet;

// A column of plan 3, whatever the deviation.
pub(crate) fn column(
    sheet: TestedSheet,
    number: u32,
    limit: u32,
    correction: Correction,
    rows: usize,
) -> Decision
    requires { CountsIn sheet number limit correction rows }
    ensures { (t : ℕ) → DecidesIn sheet.entry Attributes number limit t rows result }
{
    let pass = pass_numbers();
    let fail = fail_numbers();
    let most = most_uncounted(limit, correction);
    // The place of the next measurement: the compiler takes the loop apart, and would work out a place for every row before the first.
    let mut at = sheet.size.bytes() * sheet.start + 4 * (number as usize);
    let mut over: u8 = 0;
    for i in 0..rows {
        over = over + (most < u32_present(sheet.bytes, at)) as u8;
        at += sheet.size.bytes();
        let n = i + 1;
        if 3 <= n {
            match rows::attributes_row(n as u64, pass, fail, over) {
                Row::Open => {}
                Row::Pass => {
                    return Decision::Passed(n as u8);
                }
                Row::Fail => {
                    return Decision::Failed(n as u8);
                }
            }
        }
    }
    Decision::Open
}
