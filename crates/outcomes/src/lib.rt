// What an operation that writes into lent memory comes to: done, or the refusal that append, report and the converter return.
#![tactic(auto)]

ghost use Rattle.std.specs.Prelude.{◌≡◌, Err};
ghost use Rattle.outcomes.specs.Outcomes.{outcome_is, check_is};

use checking::Refusal;
use summary::Summary;

// Refused with a number that names no record, whatever number: the operations give a `Reason` instead.
pub fn refused(number: u8) -> Result<(), Refusal>
    ensures { result ≡ Err (record { number = number; place = 0 }) }
{
    Err(Refusal::of_no_record(number))
}

// The check's answer without what an accepted sheet says.
pub fn checked_outcome(checked: Result<Summary, Refusal>) -> Result<(), Refusal>
    ensures { outcome_is result ≡ check_is checked }
{
    checked.map(|_| ())
}
