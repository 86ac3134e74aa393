// Whether a declared carbon dioxide value stands against its tests, and the approval value where it does not: document 02, F-4 (004, 6.5).
#![tactic(auto)]

ghost use Rattle.std.specs.Prelude.{◌≡◌, get_or};
ghost use Rattle.rules.specs.DeclaredValue as rules;
ghost use Rattle.declared_value.specs.Approvals.{approval_is};

use refusals::Reason;
use values::{any_outside, is_outside};

// "up to three tests of one vehicle"
const MOST_TESTS: usize = 3;

// "sum and count (declared value and 1 where it stands)"
#[derive(Clone, Copy, PartialEq, Eq)]
pub struct Approval {
    pub sum: u32,
    pub count: u32,
}

// Test i, counted from 0; 0 where there is none.
fn test_at(tests: &[u32], i: usize) -> u32
    ensures { result ≡ get_or tests.now i 0 }
{
    tests.get(i).copied().unwrap_or(0)
}

// "The declared value stands if the first test, else the mean of two, is at most 104/100 of it, compared exactly": by the first k tests.
fn stands(declared: u32, k: usize, tests: &[u32]) -> bool
    ensures { result ≡ rules.stands declared k tests.now }
{
    let value = u64::from(declared);
    let first = u64::from(test_at(tests, 0));
    let both = first + u64::from(test_at(tests, 1));
    ((1 <= k) & (100 * first <= 104 * value)) | ((2 <= k) & (100 * both <= 104 * (2 * value)))
}

// The answer for the declared value and the tests so far: "another test", where there is no value yet, or sum and count.
pub fn approve(declared: u32, tests: &[u32]) -> Result<Option<Approval>, Reason>
    ensures { approval_is result ≡ rules.approve declared tests.now }
{
    let count = tests.len();
    // "20, no tests or more than three"
    if !(1..=MOST_TESTS).contains(&count) {
        return Err(Reason::TestCount);
    }
    // "21, value out of range": "Values are whole thousandths of g/km, 1 to 9,999,999."
    if is_outside(declared) | any_outside(tests) {
        return Err(Reason::Value);
    }
    // "22, a test after the decision"
    if stands(declared, count - 1, tests) {
        return Err(Reason::TestAfterDecision);
    }
    if stands(declared, count, tests) {
        return Ok(Some(Approval {
            sum: declared,
            count: 1,
        }));
    }
    if count < MOST_TESTS {
        return Ok(None);
    }
    // "the approval value is the mean of three"
    Ok(Some(Approval {
        sum: test_at(tests, 0) + test_at(tests, 1) + test_at(tests, 2),
        count: MOST_TESTS as u32,
    }))
}
