// "12, another byte that must be zero". Every kind without measurements has zeros from byte 12 on: whether one of them is not zero is asked once, and is the `rest` of what a kind asks.
#![tactic(auto)]

ghost use Rattle.std.specs.Prelude.{◌≡◌};
ghost use Rattle.zeros.specs.Zeros.{unused_behind_lem, unused_from_twelve_lem, pollutant_unused_lem, stop_unused_lem, small_engine_unused_lem};

use layout::Size;
use numbers::{byte_at, u16_at, u32_at};

// Some byte behind the first 20 is not zero, which a record of 28 bytes alone has.
fn unused_behind(size: Size, r: &[u8]) -> bool
    ensures { result ≡ unused_behind_lem size r.now }
{
    match size {
        Size::Twenty => false,
        Size::TwentyEight => (u32_at(r, 20) != 0) | (u32_at(r, 24) != 0),
    }
}

// Some byte from 12 on is not zero. 02, F-10: "the new ones zero".
// One caller: with a call for each kind the compiler left it outside the check's loop, where each number asks for the record's length.
pub fn unused_from_twelve(size: Size, r: &[u8]) -> bool
    ensures { result ≡ unused_from_twelve_lem size r.now }
{
    (u32_at(r, 12) != 0) | (u32_at(r, 16) != 0) | unused_behind(size, r)
}

// "Byte 3 and bytes 12-19 are zero."
pub fn pollutant_unused(r: &[u8], rest: bool) -> bool
    ensures { result ≡ pollutant_unused_lem r.now rest }
{
    (byte_at(r, 3) != 0) | rest
}

// "bytes 1-19 zero"
pub fn stop_unused(r: &[u8], rest: bool) -> bool
    ensures { result ≡ stop_unused_lem r.now rest }
{
    (byte_at(r, 1) != 0) | (u16_at(r, 2) != 0) | (u32_at(r, 4) != 0) | (u32_at(r, 8) != 0) | rest
}

// 02, F-1: "the others zero under refusal 12"
pub fn small_engine_unused(r: &[u8], rest: bool) -> bool
    ensures { result ≡ small_engine_unused_lem r.now rest }
{
    (byte_at(r, 1) != 0) | (u16_at(r, 6) != 0) | rest
}
