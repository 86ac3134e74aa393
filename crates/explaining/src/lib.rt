// What the program `verdict` says to people of a refused sheet of 20-byte records: which record it is, and what the refusal means.
#![tactic(auto)]

ghost use Rattle.std.specs.Prelude.{◌≡◌, suc};
ghost use Rattle.lines.specs.Writing.{with_bytes, Adds, Written};
ghost use Rattle.explaining.specs.Sentences.{line_of, sentence};
ghost use Rattle.explaining.specs.Explanation.{is_engine, engines_in, name, place, explained};

use checking::{Refusal, check};
use layout::Size;
use lines::Lines;
use reading::{Step, step_at};
use refusals::Reason;

fn is_engine(step: Step) -> u32
    ensures { result ≡ is_engine step }
{
    match step {
        Step::Engine { .. } => 1,
        _ => 0,
    }
}

// How many of the records up to this one, it among them, are engines: the sheet is walked from its start.
fn engines_through(sheet: &[u8], record: u8) -> u32
    ensures { result ≡ engines_in sheet.now (suc «record») }
{
    let last = record as usize;
    let mut engines: u32 = 0;
    for k in 0..=last {
        engines += is_engine(step_at(Size::TWENTY, sheet, k));
    }
    engines
}

// A record by what it is; engines are counted from 1, as on the bench.
fn with_name(lines: Lines, step: Step, engine: u32) -> Lines
    ensures { Adds lines result (name step engine) 20 }
{
    match step {
        Step::Pollutant { number, .. } => lines.with_word(b"pollutant ").with_number(number),
        Step::Engine { .. } => lines.with_word(b"engine ").with_number(engine),
        Step::Stop => lines.with_word(b"stop"),
        Step::SmallEngine { .. } => lines.with_word(b"small engine"),
        Step::RunIn { .. } => lines.with_word(b"run-in values"),
        Step::Other { kind } => lines.with_word(b"kind ").with_number(kind),
        Step::End => lines.with_word(b"end"),
    }
}

// Which record is refused; a refused length names none.
fn with_place(lines: Lines, sheet: &[u8], refusal: Refusal) -> Lines
    ensures { Adds lines result (place sheet.now refusal.number refusal.place) 42 }
{
    if refusal.number == Reason::Length.number() {
        return lines;
    }
    let record = refusal.place;
    let step = step_at(Size::TWENTY, sheet, record as usize);
    let engine = engines_through(sheet, record);
    let lines = lines
        .with_word(b"record ")
        .with_number(record as u32)
        .with_word(b" (");
    with_name(lines, step, engine).with_word(b"): ")
}

// With a line of a text, without its newline. The lines are counted from 0, and each ends with a newline.
fn with_line(lines: Lines, text: &[u8], number: u8) -> Lines
    ensures { result ≡ with_bytes lines (line_of text.now number) }
{
    let mut lines = lines;
    let mut before = number;
    for &byte in text {
        if before == 0 {
            if byte == b'\n' {
                return lines;
            }
            lines = lines.with_byte(byte);
        } else if byte == b'\n' {
            before -= 1;
        }
    }
    lines
}

// What the refusal of that number means, a line each. Those of a sheet are 1 to 12 and 16 to 19, and the line of any other number is empty.
fn with_sentence(lines: Lines, number: u8) -> Lines
    ensures { Adds lines result (sentence number) 100 }
{
    with_line(
        lines,
        b"\n\
        the sheet is empty, not a whole number of records, or longer than 780 bytes\n\
        the record's kind is not 1, 2, 3, 5 or 6\n\
        the first record is no pollutant, a pollutant follows another kind, or a record follows the stop\n\
        the pollutant number is not 1 to 4, or not above the one before\n\
        the plan is not 1 to 5, or unlike the first pollutant's\n\
        the limit is not 1 to 9999999\n\
        the deviation is not 1 to 4000000 in plan 1, or not 0 in another plan\n\
        a measurement is not 1 to 9999999, or one of an undeclared pollutant is not 0\n\
        the cause is 0 for a gross emitter in plan 4, or not 0 for any other engine\n\
        there are more engines than the plan's last row\n\
        plan 4 knows no stop by the manufacturer\n\
        a byte that must be zero is not\n\
        \n\
        \n\
        \n\
        the small engine is a second one, is not straight after the pollutants, or is in plan 4\n\
        the date is no day of the years 1 to 9999\n\
        the particulate limit is not the one for the volume, speed and date: 250 or 150\n\
        the run-in record is a second one, follows an engine, or is in plan 4\n",
        number,
    )
}

// The line for the bytes of a sheet; none for one that is accepted.
pub fn explain(sheet: &[u8]) -> Lines
    ensures { Written result (explained sheet.now) }
{
    let Err(refusal) = check(Size::TWENTY, sheet) else {
        return Lines::nothing();
    };
    let lines = Lines::nothing().with_word(b"verdict: ");
    let lines = with_place(lines, sheet, refusal);
    with_sentence(lines, refusal.number).with_byte(b'\n')
}
