// The logarithms of a column four at a time: the limit's and those of engines 1 to 3, then those of four engines after four.
// For `statistics` alone, with a column of an accepted sheet: so they may require.
#![tactic(auto)]

ghost use Rattle.std.specs.Prelude.{◌≡◌, ◌+◌};
ghost use Rattle.fours.specs.Columns.{measured_in, four_in, LogsIn, FourRange, NextRange};

pub mod measured;

use logarithm::{log2, log2_four};
use measured::MeasuredColumn;
use record::measurement_at;

impl MeasuredColumn<'_> {
    // The measurement in the engine behind i engines, and behind the rows 1: nothing outside the sheet is read.
    #[tactic(auto, unfolding(crate::specs::Fours::measured_or))]
    fn measured_or_one(self, i: usize) -> u32
        ensures { result ≡ measured_in self.entry i }
    {
        if i < self.rows {
            measurement_at(self.size, self.bytes, self.start + i, self.number)
        } else {
            1
        }
    }
}

// The logarithms of a number, the limit or an engine's, and of the three engines behind i engines, into lent memory: docs/PROVED.md names the
// function, and its promise is about that memory; an array handed back takes as long.
// Inlined by word: otherwise the compiler leaves the call, and a column of three rows takes a tenth longer.
#[inline(always)]
pub fn put_four(logs: &mut [u32; 4], first: u32, column: MeasuredColumn, i: usize)
    requires { FourRange first column i }
    ensures { logs.new ≡ four_in column.entry first i }
{
    *logs = log2_four([
        first,
        column.measured_or_one(i),
        column.measured_or_one(i + 1),
        column.measured_or_one(i + 2),
    ]);
}

// The four that row i + 1 stands in, from the one that row i stands in: a new one at every fourth row. An engine that is left alone takes `log2`.
pub fn four_with(logs: &mut [u32; 4], column: MeasuredColumn, i: usize)
    requires { NextRange logs.old column i }
    ensures { LogsIn logs.new column.entry (i + 1) }
{
    if (i + 1) % 4 == 0 {
        let x = column.measured_or_one(i);
        if i + 1 == column.rows {
            logs[0] = log2(x);
        } else {
            put_four(logs, x, column, i + 1);
        }
    }
}
