// The series: what judging answers for the bytes of a sheet, and its evidence.
#![tactic(auto)]

ghost use Rattle.std.specs.Prelude.{◌≡◌, ◌≤◌, [], length, take, MatchResult};
ghost use Rattle.rules.specs.Logarithm.{squarings};
ghost use Rattle.rules.specs.Refusals.{accepted, refused};
ghost use Rattle.rules.specs.Operations as rules;
ghost use Rattle.rules.specs.Sizes as sizes;
ghost use Rattle.layout.specs.Sizes.{width_is};
ghost use Rattle.tally.specs.Judgements.{six_pairs};
ghost use Rattle.series.specs.Answers.{judged_is, DeclaredIs};

use checking::sheet::AcceptedSheet;
use checking::{Refusal, check_sheet, why_refused};
use layout::Size;
use tally::{Judgement, judgement_of};

// Judges the bytes of a sheet of that size, whatever they are: a judgement, or the refusal of a sheet that the check does not accept.
pub fn judge_sheet(size: Size, bytes: &[u8]) -> Result<Judgement, Refusal>
    ensures result_value { judged_is result ≡ six_pairs (width_is size) (rules.judge (width_is size) squarings bytes.now) }
    ensures declared_is { DeclaredIs (width_is size) bytes.now result }
{
    let checked = check_sheet(size, bytes);
    let Ok(said) = checked else {
        return Err(why_refused(checked)); // "A sheet that the check refuses is refused by every other operation"
    };
    Ok(judgement_of(AcceptedSheet { size, bytes, said }))
}

// The same by the bytes of a record, as a caller names them.
pub fn judge(size: usize, bytes: &[u8]) -> Result<Judgement, Refusal>
    ensures result_value { judged_is result ≡ six_pairs (sizes.width size) (sizes.judge_sized size squarings bytes.now) }
    ensures declared_is { DeclaredIs (sizes.width size) bytes.now result }
{
    let size = Size::try_from(size)?;
    judge_sheet(size, bytes)
}

// How many bytes of an accepted sheet are its evidence: "through the deciding engine's record; the whole sheet where undecided, stopped or
// referred", and where held.
fn evidence_end(sheet: AcceptedSheet) -> usize
    ensures part { take result sheet.entry.bytes.now ≡ rules.evidence (width_is sheet.entry.size) squarings sheet.entry.bytes.now }
    ensures inside { result ≤ length sheet.entry.bytes.now }
{
    let judgement = judgement_of(sheet);
    match judgement.verdict.deciding() {
        Some(n) => sheet.size.bytes() * (sheet.said.head as usize + n as usize),
        None => sheet.bytes.len(),
    }
}

// "Evidence hands back the part of the sheet from its start"; a refusal "as judge", and then there is no part.
pub fn evidence(size: usize, bytes: &[u8]) -> Result<&[u8], Refusal>
    ensures part { MatchResult result (λ part. part.now ≡ sizes.evidence_sized size squarings bytes.now) (λ refusal. [] ≡ sizes.evidence_sized size squarings bytes.now) }
    ensures answer { MatchResult result (λ part. accepted ≡ sizes.check_sized size bytes.now) (λ refusal. refused refusal.number refusal.place ≡ sizes.check_sized size bytes.now) }
{
    let size = Size::try_from(size)?;
    let checked = check_sheet(size, bytes);
    let Ok(said) = checked else {
        return Err(why_refused(checked)); // "as judge"
    };
    let end = evidence_end(AcceptedSheet { size, bytes, said });
    Ok(&bytes[..end])
}
