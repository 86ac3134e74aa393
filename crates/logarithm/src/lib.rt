// Document 01, "The logarithm", with the twenty steps of 02, F-9: g of a limit or a measurement, in whole numbers alone, the same on every machine.
#![tactic(auto)]

ghost use Rattle.std.specs.Prelude.{◌≡◌};
ghost use Rattle.rules.specs.Logarithm.{g, squarings};
ghost use Rattle.logarithm.specs.Four.{Measured, FourRanges, logarithms_of};
ghost use Rattle.logarithm.specs.Squaring.{Fits, start_of, next_of};

use values::is_outside;

// 02, F-9: "Take twenty steps in place of sixteen": the number of squarings, `squarings` of the definitions.
const STEPS: u32 = 20;

// A logarithm in the making: the bits found so far, first bit highest, and the number that is squared next, M.
#[derive(Clone, Copy)]
struct Unfinished {
    bits: u32,
    scaled: u64,
}

// Before the first squaring: "M = m × 2^(31−e)", after the bits of e.
fn start(m: u32) -> Unfinished
    requires { Measured m }
    ensures { result ≡ start_of m }
{
    let zeros = m.leading_zeros();
    Unfinished {
        bits: 31 - zeros,
        scaled: u64::from(m) << zeros,
    }
}

// One squaring and its bit.
// There is no branch on the bit: it is as good as random, so a processor would guess it wrong half of the time.
fn squared(x: Unfinished) -> Unfinished
    requires { Fits x }
    ensures { result ≡ next_of x }
{
    let Unfinished { bits, scaled } = x;
    let square = scaled * scaled;
    let bit = (square >> 63) as u32;
    Unfinished {
        bits: bits * 2 + bit,
        scaled: square >> (31 + bit),
    }
}

// "For m from 1 to 9,999,999 .. Any other m gets 0": a whole number that is less than two below 1,048,576 times the logarithm of m to base 2.
#[tactic(auto, unfolding(rules::specs::Logarithm::g))]
pub fn log2(m: u32) -> u32
    ensures { result ≡ g squarings m }
{
    if is_outside(m) {
        return 0;
    }
    let mut x = start(m);
    for _ in 0..STEPS {
        x = squared(x);
    }
    x.bits
}

// g of each of four numbers, faster than one by one: a squaring waits for the one before it, but only of the same number.
// For a caller that has checked the four numbers: so it may require.
pub fn log2_four(m: [u32; 4]) -> [u32; 4]
    requires { FourRanges m }
    ensures { result ≡ logarithms_of m }
{
    let mut a = start(m[0]);
    let mut b = start(m[1]);
    let mut c = start(m[2]);
    let mut d = start(m[3]);
    for _ in 0..STEPS {
        a = squared(a);
        b = squared(b);
        c = squared(c);
        d = squared(d);
    }
    [a.bits, b.bits, c.bits, d.bits]
}
