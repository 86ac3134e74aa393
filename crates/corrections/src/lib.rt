// Document 02, F-2: "Makers run in the first engine and correct the others". What corrects a pollutant's column, by the sheet.
#![tactic(auto)]

ghost use Rattle.std.specs.Prelude.{◌≡◌, ℕ, ◌*◌, ◌≤◌, ltb};
ghost use Rattle.rules.specs.Logarithm.{greatest, squarings, g};
ghost use Rattle.layout.specs.Sizes.{width_is};
ghost use Rattle.logarithm.specs.Four.{Measured};
ghost use Rattle.corrections.specs.Corrections.{CorrectionRange, Corrects};

pub mod factors;

pub use factors::Correction;
use logarithm::log2;
use record::{Kind, kind_of, measurement_at, measurement_of, record_at};
use tested::TestedSheet;
use values::GREATEST;

// The correction of a declared pollutant. The run-in values, if there are any, stand right before the first engine's record, which is the one at `start`.
// For `statistics` alone, with a pollutant that the sheet declares, and a sheet that has an engine: so it may require.
pub fn correction_of(sheet: TestedSheet, number: u32) -> Correction
    requires { CorrectionRange sheet number }
    ensures { Corrects (width_is sheet.entry.size) sheet.entry.bytes.now number result }
{
    let r = record_at(sheet.size, sheet.bytes, sheet.start - 1);
    if kind_of(r) == Kind::RunIn as u32 {
        Correction {
            value: measurement_of(r, number),
            first: measurement_at(sheet.size, sheet.bytes, sheet.start, number),
        }
    } else {
        Correction { value: 1, first: 1 }
    }
}

// "attributes compare x_j × value with L × x_1": the most that a measurement may be which is not counted, L × x_1 / value, or the greatest measurement
// where that is less. Where value and x_1 are equal, as they are without running-in, it is the limit: nothing is divided.
// For `statistics` alone, with a limit in range: so it may require.
pub fn most_uncounted(limit: u32, correction: Correction) -> u32
    requires { Measured limit }
    ensures { (x : ℕ) → x ≤ greatest → ltb result x ≡ ltb (limit * correction.first) (x * correction.value) }
{
    if correction.value == correction.first {
        return limit;
    }
    let most = u64::from(limit) * u64::from(correction.first) / u64::from(correction.value);
    most.min(u64::from(GREATEST)) as u32
}

// g of a number of a correction. Without running-in that is 1, whose logarithm is 0: nothing is squared.
pub fn log2_of(m: u32) -> u32
    ensures { result ≡ g squarings m }
{
    if m == 1 { 0 } else { log2(m) }
}
