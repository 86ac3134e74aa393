// The check of a sheet: the first faulty record and in it the first refusal in their order, or what the sheet says.
#![tactic(auto)]

ghost use Rattle.std.specs.Prelude.{◌≡◌, ◌+◌, ◌*◌, length};
ghost use Rattle.rules.specs.Sheet.{records};
ghost use Rattle.layout.specs.Sizes.{width_is};
ghost use Rattle.checking.specs.Check.{refusal_of, length_checked, checked_from, checked_of, checked_sized, refusal_in, so_far, joined_of, AfterRanges};

pub mod sheet;

use faults::fault_of;
use layout::Size;
use record::record_at;
use refusals::Reason;
use summary::Summary;

// Why a sheet is turned down: "number and record counted from 0".
#[derive(Clone, Copy, PartialEq, Eq)]
pub struct Refusal {
    pub number: u8,
    pub place: u8,
}

impl Refusal {
    // "A refusal that names no record .. returns record 0."
    pub fn of_no_record(number: u8) -> Refusal
        ensures { result ≡ record { number = number; place = 0 } }
    {
        Refusal { number, place: 0 }
    }

    // "30, size not 20 or 28, before every other".
    pub fn of_size() -> Refusal
        ensures { result ≡ record { number = 30; place = 0 } }
    {
        Reason::Size.into()
    }

    // The refusal as C gets it: "number × 256 + record".
    pub fn code(self) -> u32
        ensures { result ≡ self.number * 256 + self.place }
    {
        self.number as u32 * 256 + self.place as u32
    }
}

// A reason that names no record.
impl From<Reason> for Refusal {
    ghost from_gives = { λ reason r. r ≡ refusal_of reason };

    fn from(reason: Reason) -> Refusal {
        Refusal::of_no_record(reason.number())
    }
}

// The refusal in the check's answer; number and record are 0 of an accepted sheet, which has none.
pub fn why_refused(checked: Result<Summary, Refusal>) -> Refusal
    ensures { result ≡ refusal_in checked }
{
    match checked {
        Ok(_) => Refusal::of_no_record(0),
        Err(refusal) => refusal,
    }
}

// "1, no bytes, a length not a multiple of 20, or over" 780 "bytes", by the size; 02, F-2: "The record limit rises by one."
fn check_length(size: Size, n: usize) -> Result<(), Reason>
    ensures { result ≡ length_checked (width_is size) n }
{
    if (n == 0) | (size.left_over(n) != 0) | (size.longest() < n) {
        return Err(Reason::Length);
    }
    Ok(())
}

// "Then the first faulty record", and in it the first refusal, of records that stand after those of which `before` tells.
// The first of them is record `first`. A whole sheet stands after nothing.
// One loop for it and for bytes behind another: so the faults are looked for in one place, and the compiler puts them into the loop.
fn check_after(size: Size, before: Summary, first: usize, bytes: &[u8]) -> Result<Summary, Refusal>
    requires { AfterRanges size before first (length bytes.now) }
    ensures { result ≡ checked_from size before first (records (width_is size) bytes.now) }
{
    let n = size.records_in(bytes.len());
    let mut summary = before;
    for k in 0..n {
        let r = record_at(size, bytes, k);
        if let Err(reason) = fault_of(size, summary, r) {
            return Err(Refusal {
                number: reason.number(),
                place: (first + k) as u8,
            });
        }
        summary = summary.with(r);
    }
    Ok(summary)
}

// The check of a whole sheet: 1, and then "the first faulty record".
pub fn check_sheet(size: Size, bytes: &[u8]) -> Result<Summary, Refusal>
    ensures { result ≡ checked_of size bytes.now }
{
    check_length(size, bytes.len())?;
    check_after(size, Summary::nothing(), 0, bytes)
}

// The same by the bytes of a record, as a caller names them.
pub fn check(size: usize, bytes: &[u8]) -> Result<Summary, Refusal>
    ensures { result ≡ checked_sized size bytes.now }
{
    let size = Size::try_from(size)?;
    check_sheet(size, bytes)
}

// A sheet that bytes are added to: one with no bytes says nothing.
fn so_far(size: Size, sheet: &[u8]) -> Result<Summary, Refusal>
    ensures { result ≡ so_far size sheet.now }
{
    if sheet.len() == 0 {
        return Ok(Summary::nothing());
    }
    check_sheet(size, sheet)
}

// The check of a sheet by itself, unless it has no bytes, and then with more bytes behind it.
// What is added is judged by what the sheet says, with no copy of the two.
pub fn check_joined(size: Size, sheet: &[u8], more: &[u8]) -> Result<Summary, Refusal>
    ensures { result ≡ joined_of size sheet.now more.now }
{
    let checked = so_far(size, sheet);
    let Ok(before) = checked else {
        return checked;
    };
    check_length(size, sheet.len() + more.len())?;
    check_after(size, before, size.records_in(sheet.len()), more)
}
