// The fields of a record, by document 01's "The sheet". A byte past the record's end counts as 0.
#![tactic(auto)]

ghost use Rattle.std.specs.Prelude.{◌≡◌, ◌<◌, length};
ghost use Rattle.rules.specs.Sheet.{kind, number, plan, limit, deviation, cause, measurement};
ghost use Rattle.accepted.specs.Sheets.{record_at_lem};
ghost use Rattle.layout.specs.Sizes.{width_is};
ghost use Rattle.record.specs.Ranges.{RecordRange, MeasurementRange};
ghost use Rattle.record.specs.Kinds.{kind_named};

use layout::Size;
use numbers::{byte_at, u16_at, u32_at, u32_present};
use refusals::Reason;

pub mod small_engine;

// The kinds of a record, each with its number: a pollutant, an engine or vehicle, testing stopped by the manufacturer, what makes an engine a
// small one, and the first engine's values after running-in.
#[derive(Clone, Copy, PartialEq, Eq)]
pub enum Kind {
    Pollutant = 1,
    Engine = 2,
    Stop = 3,
    SmallEngine = 5,
    RunIn = 6,
}

// "2, kind not 1 to 3", and 02, F-1: "record kind 5", F-2: "record kind 6"
impl TryFrom<u32> for Kind {
    type Error = Reason;

    ghost try_from_gives = { λ number r. r ≡ kind_named number };

    fn try_from(number: u32) -> Result<Kind, Reason> {
        match number {
            1 => Ok(Kind::Pollutant),
            2 => Ok(Kind::Engine),
            3 => Ok(Kind::Stop),
            5 => Ok(Kind::SmallEngine),
            6 => Ok(Kind::RunIn),
            _ => Err(Reason::Kind),
        }
    }
}

// 02, F-5: "Cause 65,535 now marks a gross emitter whose finding is pending"
pub const PENDING: u32 = 65_535;

// Record k of a sheet of records of that size. For `checking`, `reading`, `causes`, `corrections`, `tally`, `converting` and `entering`, which ask for records below the sheet's end: so it may require.
pub fn record_at(size: Size, sheet: &[u8], k: usize) -> &[u8]
    requires { RecordRange (width_is size) k (length sheet.now) }
    ensures { result.now ≡ record_at_lem (width_is size) sheet.now k }
{
    let bytes = size.bytes();
    let start = bytes * k;
    &sheet[start..start + bytes]
}

// "Byte 0 is the kind."
#[tactic(auto, unfolding(rules::specs::Sheet::kind))]
pub fn kind_of(r: &[u8]) -> u32
    ensures { (result ≡ kind r.now) × (result < 256) }
{
    byte_at(r, 0)
}

// "byte 1 pollutant number"
#[tactic(auto, unfolding(rules::specs::Sheet::number))]
pub fn number_of(r: &[u8]) -> u32
    ensures { (result ≡ number r.now) × (result < 256) }
{
    byte_at(r, 1)
}

// "byte 2 plan"
#[tactic(auto, unfolding(rules::specs::Sheet::plan))]
pub fn plan_of(r: &[u8]) -> u32
    ensures { (result ≡ plan r.now) × (result < 256) }
{
    byte_at(r, 2)
}

// "bytes 4-7 limit L"
#[tactic(auto, unfolding(rules::specs::Sheet::limit))]
pub fn limit_of(r: &[u8]) -> u32
    ensures { result ≡ limit r.now }
{
    u32_at(r, 4)
}

// "bytes 8-11 deviation t"
#[tactic(auto, unfolding(rules::specs::Sheet::deviation))]
pub fn deviation_of(r: &[u8]) -> u32
    ensures { result ≡ deviation r.now }
{
    u32_at(r, 8)
}

// "bytes 2-3 cause"
#[tactic(auto, unfolding(rules::specs::Sheet::cause))]
pub fn cause_of(r: &[u8]) -> u32
    ensures { (result ≡ cause r.now) × (result < 65536) }
{
    u16_at(r, 2)
}

// "bytes 4-19 four u32 measurements, pollutant 1 first"; 02, F-10: "measurements 5 and 6" behind them; F-2: run-in values are "laid out as
// measurements"
#[tactic(auto, unfolding(rules::specs::Sheet::measurement))]
pub fn measurement_of(r: &[u8], p: u32) -> u32
    ensures { result ≡ measurement r.now p }
{
    u32_at(r, 4 * (p as usize))
}

// The measurement of pollutant p in record k of a sheet, where the sheet lies: a column is read record after record, and no record is asked how long it is.
// For `fours` and `corrections`, which ask for engines and run-in values of an accepted sheet: so it may require.
pub fn measurement_at(size: Size, sheet: &[u8], k: usize, p: u32) -> u32
    requires { MeasurementRange (width_is size) k p (length sheet.now) }
    ensures { result ≡ measurement (record_at_lem (width_is size) sheet.now k) p }
{
    u32_present(sheet, size.bytes() * k + 4 * (p as usize))
}
