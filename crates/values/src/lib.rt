// The range of values in thousandths: of limits and measurements, of what the logarithm is taken of, and of declared values and their tests.
#![tactic(auto)]

ghost use Rattle.std.specs.Prelude.{◌≡◌};
ghost use Rattle.rules.specs.Tools.{any};
ghost use Rattle.rules.specs.Logarithm.{outside};

// "1 to 9,999,999"
pub const GREATEST: u32 = 9_999_999;

// Whether a value is out of range.
pub fn is_outside(x: u32) -> bool
    ensures { result ≡ outside x }
{
    !(1..=GREATEST).contains(&x)
}

// Whether any of the values is.
pub fn any_outside(values: &[u32]) -> bool
    ensures { result ≡ any outside values.now }
{
    values.iter().any(|&x| is_outside(x))
}
