// Reading and writing by calls of std's `Read` and `Write`, so that a call which fails is never taken for the end: one that may be made again is, and else the whole fails.
#![tactic(auto)]

ghost use Rattle.std.specs.Prelude.{◌≡◌, ℕ, length, take, IfOk, refl, ⊤};
ghost use Rattle.std.specs.Io.KnownBytes.{Consumes, Appends, IsAtEnd};
ghost use Rattle.std.proofs.KnownBytes.{Consumes-nil, Appends-nil};
ghost use Rattle.transfers.specs.Transfers.{pause_before, further, again, next, Place, Room, Over};
ghost use Rattle.transfers.specs.Bytes.{MovedOn, HasMoved, HasRead, HasWritten};

use std::io::{ErrorKind, Read, Write};
use std::ops::ControlFlow;
use std::time::{Clock, Duration};
use std::{io, thread};

// What a transfer came to that did not fail.
#[derive(Clone, Copy)]
pub enum Transfer {
    // A call met the end. Calls before may have failed and been made again: of the last of these it is told why.
    Ended {
        moved: usize,
        failed: Option<io::Error>,
    },
    // All bytes that there is room for are moved.
    Full(usize),
}

impl Transfer {
    // With pauses of a hundredth of a second, about ten seconds.
    pub const PATIENCE: usize = 1000;
}

// There is another call to make, after a pause or at once; as many more as `tries` may move nothing.
#[derive(Clone, Copy)]
struct Underway {
    moved: usize,
    tries: usize,
    pause: bool,
    // Why the last call that failed did.
    failed: Option<io::Error>,
}

// Whether there is a pause before a call is made again that failed so: a signal came before it moved a byte, or none can be moved yet. None: it failed for good.
fn pause_before(kind: ErrorKind) -> Option<bool>
    ensures { result ≡ pause_before kind }
{
    match kind {
        ErrorKind::Interrupted => Some(false),
        ErrorKind::WouldBlock => Some(true),
        _ => None,
    }
}

fn further(size: usize, moved: usize, failed: Option<io::Error>) -> ControlFlow<Transfer, Underway>
    ensures { result ≡ further size moved failed }
{
    if size <= moved {
        return ControlFlow::Break(Transfer::Full(moved));
    }
    ControlFlow::Continue(Underway {
        moved,
        tries: Transfer::PATIENCE,
        pause: false,
        failed,
    })
}

// Another try, while there are any.
fn again(so_far: Underway, pause: bool, error: io::Error) -> io::Result<Underway>
    ensures { result ≡ again so_far.moved so_far.tries pause error }
{
    let tries = so_far.tries.checked_sub(1).ok_or(error)?;
    Ok(Underway {
        tries,
        pause,
        failed: Some(error),
        ..so_far
    })
}

// What a call leads to.
fn after(
    size: usize,
    so_far: Underway,
    call: io::Result<usize>,
) -> io::Result<ControlFlow<Transfer, Underway>>
    requires { Room size so_far.moved call }
    ensures { result ≡ next size so_far.moved so_far.tries so_far.failed call }
{
    match call {
        Ok(0) => Ok(ControlFlow::Break(Transfer::Ended {
            moved: so_far.moved,
            failed: so_far.failed,
        })),
        Ok(n) => Ok(further(size, so_far.moved + n, so_far.failed)),
        Err(error) => match pause_before(error.kind()) {
            Some(pause) => Ok(ControlFlow::Continue(again(so_far, pause, error)?)),
            None => Err(error),
        },
    }
}

// Waits for a hundredth of a second.
fn wait(clock: &impl Clock) {
    thread::sleep(clock, Duration::from_millis(10));
}

// What a transfer moves bytes between: a reader and a buffer, or bytes and a writer.
trait Moves {
    // How many bytes there is room for, or are to be written.
    ghost size: { Self → ℕ };

    // On the way from one state to another the first so many bytes were moved.
    ghost Moved: { Self → Self → ℕ → Type 0 };

    // What is said of the end.
    ghost AtEnd: { Self → Type 0 };

    fn size(&self) -> usize
        ensures { result ≡ size self.now };

    // One call, for the bytes behind the first `moved`.
    fn call(&mut self, moved: usize) -> io::Result<usize>
        requires { Place moved (size self.old) }
        ensures kept { size self.new ≡ size self.old }
        ensures room { Room (size self.old) moved result }
        ensures moves { (first : Self) → Moved first self.old moved
            → MovedOn (Moved first self.new) (AtEnd self.new) (size self.old) moved result };

    ghost none_moved: { (state : Self) → Moved state state 0 };
}

// Makes one call after another, until one meets the end, or all bytes are moved, or one has failed.
fn move_all<C: Clock, M: Moves>(clock: &C, moves: &mut M) -> io::Result<Transfer>
    ensures over { IfOk result (λ t. Over t (M.size moves.old)) }
    ensures moved { HasMoved (M.Moved moves.old moves.new) (M.AtEnd moves.new) result }
{
    let size = moves.size();
    let mut transfer = further(size, 0, None);
    loop {
        let so_far = match transfer {
            ControlFlow::Continue(so_far) => so_far,
            ControlFlow::Break(over) => return Ok(over),
        };
        if so_far.pause {
            wait(clock);
        }
        let call = moves.call(so_far.moved);
        transfer = after(size, so_far, call)?;
    }
}

#[derive(Drop)]
struct Reading<'a, R> {
    reader: &'a mut R,
    buffer: &'a mut [u8],
}

impl<R: Read> Moves for Reading<'_, R> {
    ghost size = { λ it. length it.buffer.now };

    ghost Moved = { λ old new n. (new.reader.ghost_name ≡ old.reader.ghost_name) × (new.buffer.ghost_name ≡ old.buffer.ghost_name)
        × Consumes (R.remaining old.reader.now) (R.remaining new.reader.now) (take n new.buffer.now) };

    ghost AtEnd = { λ it. IsAtEnd (R.remaining it.reader.now) };

    ghost none_moved = { λ it. (refl, refl, Consumes-nil (R.remaining it.reader.now)) };

    fn size(&self) -> usize {
        self.buffer.len()
    }

    fn call(&mut self, moved: usize) -> io::Result<usize> {
        self.reader.read(&mut self.buffer[moved..])
    }
}

#[derive(Drop)]
struct Writing<'a, W> {
    writer: &'a mut W,
    bytes: &'a [u8],
}

impl<W: Write> Moves for Writing<'_, W> {
    ghost size = { λ it. length it.bytes.now };

    ghost Moved = { λ old new n. (new.writer.ghost_name ≡ old.writer.ghost_name) × (new.bytes ≡ old.bytes)
        × Appends (W.contents old.writer.now) (W.contents new.writer.now) (take n new.bytes.now) };

    ghost AtEnd = { λ _. ⊤ };

    ghost none_moved = { λ it. (refl, refl, Appends-nil (W.contents it.writer.now)) };

    fn size(&self) -> usize {
        self.bytes.len()
    }

    fn call(&mut self, moved: usize) -> io::Result<usize> {
        self.writer.write(&self.bytes[moved..])
    }
}

// Reads until the input ends or the buffer is full.
pub fn read_full<C: Clock, R: Read>(
    clock: &C,
    reader: &mut R,
    buffer: &mut [u8],
) -> io::Result<Transfer>
    ensures over { IfOk result (λ t. Over t (length buffer.old)) }
    ensures read { HasRead (R.remaining reader.old) (R.remaining reader.new) buffer.new result }
{
    move_all(clock, &mut Reading { reader, buffer })
}

// Writes all of the bytes and ends full, unless it fails, when some may have been written.
pub fn write_full<C: Clock, W: Write>(
    clock: &C,
    writer: &mut W,
    bytes: &[u8],
) -> io::Result<Transfer>
    ensures over { IfOk result (λ t. Over t (length bytes.now)) }
    ensures written { HasWritten (W.contents writer.old) (W.contents writer.new) bytes.now result }
{
    move_all(clock, &mut Writing { writer, bytes })
}
