// "8, measurement", of a record that holds measurements: an engine, or run-in values.
#![tactic(auto)]

ghost use Rattle.std.specs.Prelude.{◌≡◌};
ghost use Rattle.rules.specs.Sheet.{measurement};
ghost use Rattle.measurements.specs.Measurements.{bad_value_by, bad_measurement_by, bad_behind_lem};

use layout::Size;
use pollutants::Each;
use record::measurement_of;
use values::GREATEST;

// 8, of pollutant p, whose limit is 0 where it is not declared.
fn bad_value(limit: u32, r: &[u8], p: u32) -> bool
    ensures { result ≡ bad_value_by limit (measurement r.now p) }
{
    let x = measurement_of(r, p);
    // A measurement of 0 is an undeclared pollutant's, and that of no other.
    ((limit == 0) != (x == 0)) | (GREATEST < x)
}

// "8, measurement, also one not zero of an undeclared pollutant", of pollutants 1 to 4.
// One caller, for engines and run-in values: with a call for each the compiler left it outside the check's loop.
#[tactic(auto, unfolding(crate::specs::Measurements::bad_measurement_by))]
pub fn bad_measurement(limits: Each<u32>, r: &[u8]) -> bool
    ensures { result ≡ bad_measurement_by limits r.now }
{
    bad_value(limits.co, r, 1)
        | bad_value(limits.hc, r, 2)
        | bad_value(limits.nox, r, 3)
        | bad_value(limits.pm, r, 4)
}

// The same of pollutants 5 and 6, which a record of 28 bytes alone has measurements of.
pub fn bad_behind(size: Size, limits: Each<u32>, r: &[u8]) -> bool
    ensures { result ≡ bad_behind_lem size limits r.now }
{
    match size {
        Size::Twenty => false,
        Size::TwentyEight => bad_value(limits.fifth, r, 5) | bad_value(limits.sixth, r, 6),
    }
}
