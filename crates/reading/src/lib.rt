// "A sheet under reading is the lent bytes and the number of the next record": a struct over the slice, with the size of its records, and few functions over it.
// Each takes the struct apart and leaves the work to a function on size, slice and number, which stays for itself: docs/PROVED.md names its promise.
#![tactic(auto)]

ghost use Rattle.std.specs.Prelude.{◌≡◌};
ghost use Rattle.reading.specs.Steps.{measurements_in, step_of, whole_records_lem, step_at_lem, left_at_lem, next_at, reader, advanced, turn_at_lem};

use layout::Size;
use pollutants::Each;
use record::small_engine::{date_of, speed_of, volume_of};
use record::{
    Kind, cause_of, deviation_of, kind_of, limit_of, measurement_of, number_of, plan_of, record_at,
};

// What stands at a number: a record of one of the five kinds, one of a kind that there is not, or the end of the whole records. All in one enum, no
// Result in an Option: a walk asks for each in one match.
#[derive(Clone, Copy, PartialEq, Eq)]
pub enum Step {
    Pollutant {
        number: u32,
        plan: u32,
        limit: u32,
        deviation: u32,
    },
    Engine {
        cause: u32,
        measurements: Each<u32>,
    },
    Stop,
    SmallEngine {
        volume: u32,
        speed: u32,
        date: u32,
    },
    RunIn {
        measurements: Each<u32>,
    },
    Other {
        kind: u32,
    },
    End,
}

// How many whole records so many bytes are; of a size that there is not, none.
#[tactic(auto, using(std::proofs::lemmas::Bool::Decides::nat_tests), unfolding(crate::specs::Steps::whole_records_lem))]
fn whole_records(size: usize, bytes: usize) -> usize
    ensures { result ≡ whole_records_lem size bytes }
{
    Size::try_from(size).map_or(0, |size| size.records_in(bytes))
}

// The measurements of an engine, or run-in values.
fn measurements_of(r: &[u8]) -> Each<u32>
    ensures { result ≡ measurements_in r.now }
{
    Each {
        co: measurement_of(r, 1),
        hc: measurement_of(r, 2),
        nox: measurement_of(r, 3),
        pm: measurement_of(r, 4),
        fifth: measurement_of(r, 5),
        sixth: measurement_of(r, 6),
    }
}

// What a record says, by its kind.
#[tactic(auto, using(std::proofs::lemmas::Bool::Decides::nat_tests), unfolding(crate::specs::Steps::step_of))]
fn step_of(r: &[u8]) -> Step
    ensures { result ≡ step_of r.now }
{
    let kind = kind_of(r);
    match Kind::try_from(kind) {
        Ok(Kind::Pollutant) => Step::Pollutant {
            number: number_of(r),
            plan: plan_of(r),
            limit: limit_of(r),
            deviation: deviation_of(r),
        },
        Ok(Kind::Engine) => Step::Engine {
            cause: cause_of(r),
            measurements: measurements_of(r),
        },
        Ok(Kind::Stop) => Step::Stop,
        Ok(Kind::SmallEngine) => Step::SmallEngine {
            volume: volume_of(r),
            speed: speed_of(r),
            date: date_of(r),
        },
        Ok(Kind::RunIn) => Step::RunIn {
            measurements: measurements_of(r),
        },
        Err(_) => Step::Other { kind },
    }
}

// What stands at a number of a sheet of records of that size. A record that is not whole is the end.
pub fn step_at(size: usize, bytes: &[u8], at: usize) -> Step
    ensures { result ≡ step_at_lem size bytes.now at }
{
    let Ok(size) = Size::try_from(size) else {
        return Step::End;
    };
    if size.records_in(bytes.len()) <= at {
        return Step::End;
    }
    step_of(record_at(size, bytes, at))
}

// How many whole records are left from the number on.
#[tactic(auto, using(crate::proofs::Counts::length_sized), unfolding(crate::specs::Steps::left_at_lem))]
pub fn left_at(size: usize, bytes: &[u8], at: usize) -> usize
    ensures { result ≡ left_at_lem size bytes.now at }
{
    whole_records(size, bytes.len()).saturating_sub(at)
}

// The number after a number. The end stays the end, so that no number is too large to have one after it.
#[tactic(auto, using(crate::proofs::Counts::length_sized), unfolding(crate::specs::Steps::next_at))]
pub fn next_at(size: usize, bytes: &[u8], at: usize) -> usize
    ensures { result ≡ next_at size bytes.now at }
{
    if at < whole_records(size, bytes.len()) {
        at + 1
    } else {
        at
    }
}

// A sheet under reading.
#[derive(Clone, Copy)]
pub struct SheetReader<'a> {
    pub size: usize,
    pub bytes: &'a [u8],
    pub next: usize,
}

impl<'a> SheetReader<'a> {
    // The reader that stands before record `next`.
    pub fn at(size: usize, bytes: &'a [u8], next: usize) -> SheetReader<'a>
        ensures { result ≡ reader size bytes.entry next }
    {
        SheetReader { size, bytes, next }
    }

    // What stands at the next number.
    pub fn read(self) -> Step
        ensures { result ≡ step_at_lem self.entry.size self.entry.bytes.now self.entry.next }
    {
        step_at(self.size, self.bytes, self.next)
    }

    // The reader behind that.
    pub fn advance(self) -> SheetReader<'a>
        ensures { result ≡ advanced self.entry }
    {
        SheetReader {
            next: next_at(self.size, self.bytes, self.next),
            ..self
        }
    }

    // How many records are left to read.
    pub fn left(self) -> usize
        ensures { result ≡ left_at_lem self.entry.size self.entry.bytes.now self.entry.next }
    {
        left_at(self.size, self.bytes, self.next)
    }
}

// One turn of a walk over a sheet: what stands at a number, the number after it, and how many whole records are left from it on.
#[derive(Clone, Copy, PartialEq, Eq)]
pub struct Turn {
    pub step: Step,
    pub next: usize,
    pub left: usize,
}

// A reader that stands at the number is read and moved on. Inlined, so that a walk which asks for no step reads none.
#[inline(always)]
pub fn turn_at(size: usize, bytes: &[u8], at: usize) -> Turn
    ensures { result ≡ turn_at_lem size bytes.now at }
{
    let reader = SheetReader::at(size, bytes, at);
    let step = reader.read();
    let left = reader.left();
    let behind = reader.advance();
    Turn {
        step,
        next: behind.next,
        left,
    }
}
