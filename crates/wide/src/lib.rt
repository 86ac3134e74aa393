// Numbers of two words, for squares that exceed 64 bits: the whole product of two u64, and the order of two such numbers.
#![tactic(auto)]

ghost use Rattle.std.specs.Prelude.{◌≡◌, ◌+◌, ◌*◌, ◌^◌, nat_lt};

// hi * 2^64 + lo. The order that is derived goes by the upper words, and where those are equal by the lower. It isn't u128's order, because of
// 01: "The two-word comparison is shown correct for all widths of its words, then used."
#[derive(Clone, Copy, PartialEq, Eq, PartialOrd, Ord)]
pub struct Wide {
    pub hi: u64,
    pub lo: u64,
}

// The whole product.
pub fn product(a: u64, b: u64) -> Wide
    ensures { result.hi * 2 ^ 64 + result.lo ≡ a * b }
{
    let whole = (a as u128) * (b as u128);
    Wide {
        hi: (whole >> 64) as u64,
        lo: (whole % (1 << 64)) as u64,
    }
}

// Whether x is less than y.
pub fn less(x: Wide, y: Wide) -> bool
    ensures { result ≡ nat_lt (x.hi * 2 ^ 64 + x.lo) (y.hi * 2 ^ 64 + y.lo) }
{
    x < y
}
