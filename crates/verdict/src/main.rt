// The program `verdict`: reads a sheet, writes its lines, and says what went wrong. Its input here is the example of document 01, "Series that stand on a line".
//
// No contract can say what a file gives or takes. What `judge` says is of a reader and a writer whose bytes are known, and it is proved for any of them.
#![tactic(auto)]

ghost use Rattle.std.specs.Prelude.{◌≡◌, ◌↔◌, length, is_ok, IfSome, IsTrue};
ghost use Rattle.rules.specs.Logarithm.{squarings};
ghost use Rattle.rules.specs.Sheet.{pollutants};
ghost use Rattle.rules.specs.Printed.{printed};
ghost use Rattle.lines.specs.Writing.{ascii, Kept, held};
ghost use Rattle.verdict.specs.Input.{Whole};
ghost use Rattle.verdict.specs.Output.{Answered};

use explaining::explain;
use layout::Size;
use lines::Lines;
use printing::print;
use std::env::{Env, FillError};
use std::fs::File;
use std::io::{Error, ErrorKind, Read, Write};
use std::time::Clock;
use std::{io, str};
use transfers::{Transfer, read_full, write_full};

// A sheet of 20-byte records leaves a byte free. An input that leaves none is longer than any such sheet, and is refused whatever follows.
const ROOM: usize = Size::LONGEST_OF_TWENTY + 1;

// The longest name of a file that Linux takes, and a byte more.
const NAME_ROOM: usize = 4096;

// Linux's number of a name that is too long: by it the error has the system's words.
const ENAMETOOLONG: i32 = 36;

// Where standard error takes no more, nobody is there to be told.
fn say<C: Clock, E: Write>(clock: &C, errors: &mut E, words: &[u8]) {
    let _ = write_full(clock, errors, words);
}

// An error's words. std ends those of the system's errors with a number, which is left out.
fn reason<'a>(error: &Error, room: &'a mut [u8]) -> &'a str {
    let size = room.len();
    let mut rest = &mut room[..];
    let _ = write!(rest, "{error}");
    let n = size.saturating_sub(rest.len());
    let text = str::from_utf8(&room[..n]).unwrap_or("");
    text.rsplit_once(" (os error ")
        .map_or(text, |(words, _)| words)
}

// What went wrong, and why, on standard error.
fn fail<C: Clock, E: Write>(clock: &C, errors: &mut E, what: &[u8], error: Error) {
    let mut room = [0u8; 256];
    let words = reason(&error, &mut room);
    say(clock, errors, b"verdict: ");
    say(clock, errors, what);
    say(clock, errors, b": ");
    say(clock, errors, words.as_bytes());
    say(clock, errors, b"\n");
}

fn usage<C: Clock, E: Write>(clock: &C, errors: &mut E) {
    say(
        clock,
        errors,
        b"usage: verdict [FILE]\n\
        Judges the test sheet in FILE, or on standard input where no file is named. Prints verdict,\n\
        engine and ground, and a line for each declared pollutant; for a refused sheet number and record.\n",
    );
}

// Writes all of the lines, unless it fails. A call that had bytes to write may take none of them: what is told then is why a call before failed, if one did.
fn write_lines<C: Clock, W: Write>(clock: &C, writer: &mut W, lines: Lines) -> io::Result<()>
    requires { Kept lines }
    ensures { Answered (is_ok result) (W.contents writer.old) (W.contents writer.new) (held lines) }
{
    match write_full(clock, writer, &lines.bytes[..lines.length])? {
        Transfer::Full(_) => Ok(()),
        Transfer::Ended { failed, .. } => {
            Err(failed.unwrap_or(Error::from(ErrorKind::WriteZero)))
        }
    }
}

// The lines of a sheet that was read whole, and for people why it is refused: true where the lines are written, which is what `Answered` speaks of. What was read is told, so that nobody can ask for the lines of a part.
fn answer<C: Clock, O: Write, E: Write>(
    clock: &C,
    output: &mut O,
    errors: &mut E,
    read: Transfer,
    sheet: &[u8],
) -> bool
    requires { Whole read (length sheet.now) }
    ensures { Answered result (O.contents output.old) (O.contents output.new) (printed pollutants squarings sheet.now) }
{
    let written = write_lines(clock, output, print(sheet));
    if let Err(error) = written {
        fail(clock, errors, b"standard output", error);
    }
    let _ = write_lines(clock, errors, explain(sheet));
    written.is_ok()
}

// Judges what there is to read, to its end: true where its lines are written.
fn judge<C: Clock, I: Read, O: Write, E: Write>(
    clock: &C,
    input: &mut I,
    output: &mut O,
    errors: &mut E,
    name: &[u8],
) -> bool
    ensures { IfSome (I.remaining input.old)
        (λ sheet. Answered result (O.contents output.old) (O.contents output.new) (printed pollutants squarings sheet)) }
{
    let mut buffer = [0u8; ROOM];
    let read = match read_full(clock, input, &mut buffer) {
        Ok(read) => read,
        Err(error) => {
            fail(clock, errors, name, error);
            return false;
        }
    };
    match read {
        Transfer::Ended { moved, .. } => answer(clock, output, errors, read, &buffer[..moved]),
        Transfer::Full(moved) => answer(clock, output, errors, read, &buffer[..moved]),
    }
}

fn is_help(word: &[u8]) -> bool
    ensures { IsTrue result ↔ (word.now ≡ ascii "--help") }
{
    word == b"--help".as_slice()
}

fn judge_file(rt: &HostRuntime, name: &[u8]) {
    let mut errors = rt.stderr();
    if is_help(name) {
        return usage(rt, &mut errors);
    }
    let Ok(path) = str::from_utf8(name) else {
        let error = Error::new(ErrorKind::InvalidFilename, "The name is not UTF-8");
        return fail(rt, &mut errors, name, error);
    };
    match File::open(rt, path) {
        Ok(mut file) => {
            judge(rt, &mut file, &mut rt.stdout(), &mut errors, name);
        }
        Err(error) => fail(rt, &mut errors, name, error),
    }
}

// Of no argument there is standard input to judge.
fn judge_argument(rt: &HostRuntime) {
    let mut errors = rt.stderr();
    let mut name = [0u8; NAME_ROOM];
    match rt.arg(1, &mut name) {
        Ok(n) => judge_file(rt, &name[..n]),
        Err(FillError::NotPresent) => {
            let mut output = rt.stdout();
            judge(
                rt,
                &mut rt.stdin(),
                &mut output,
                &mut errors,
                b"standard input",
            );
        }
        Err(FillError::TooLong) => {
            let error = Error::from_raw_os_error(ENAMETOOLONG);
            fail(rt, &mut errors, b"the name of the file", error)
        }
    }
}

// Judges the sheet on standard input, or in the file that the one argument names.
fn main(rt: HostRuntime) {
    match rt.arg(2, &mut [0u8; NAME_ROOM]) {
        Err(FillError::NotPresent) => judge_argument(&rt),
        _ => usage(&rt, &mut rt.stderr()),
    }
}
