// For tests alone: what of the library a program in C has no entry to, under the same contracts.
#![tactic(auto)]

ghost use Rattle.std.specs.Prelude.{◌≡◌, length};
ghost use Rattle.rules.specs.Logarithm.{squarings, g};
ghost use Rattle.rules.specs.Sheet.{pollutants};
ghost use Rattle.rules.specs.Operations as rules;
ghost use Rattle.rules.specs.Sizes.{check_sized, evidence_sized};
ghost use Rattle.rules.specs.Printed.{printed};
ghost use Rattle.reading.specs.Steps.{step_at_lem, left_at_lem};
ghost use Rattle.probe.specs.Entries.{reached, numbers_of_lem, placed};

use reading::{Step, turn_at};

// uint32_t probe_logarithm(uint32_t m)
#[unsafe(no_mangle)]
pub extern "C" fn probe_logarithm(m: u32) -> u32
    ensures { result ≡ g squarings m }
{
    logarithm::log2(m)
}

// How many bytes of the sheet are its evidence, and at code the refusal: size_t probe_evidence(size_t size, const uint8_t *sheet, size_t sheet_length, uint32_t *code)
#[unsafe(no_mangle)]
pub extern "C" fn probe_evidence(size: usize, sheet: &[u8], code: &mut u32) -> usize
    ensures value { result ≡ length (evidence_sized size squarings sheet.now) }
    ensures code_after { code.new ≡ rules.code (check_sized size sheet.now) }
{
    match series::evidence(size, sheet) {
        Ok(part) => {
            *code = 0;
            part.len()
        }
        Err(refusal) => {
            *code = refusal.code();
            0
        }
    }
}

// Writes the lines of the sheet, of 20-byte records, to the start of output if they fit, else nothing, and answers how many bytes they are:
// size_t probe_lines(const uint8_t *sheet, size_t sheet_length, uint8_t *output, size_t output_length)
#[unsafe(no_mangle)]
pub extern "C" fn probe_lines(sheet: &[u8], output: &mut [u8]) -> usize
    ensures value { result ≡ length (printed pollutants squarings sheet.now) }
    ensures output_after { output.new ≡ placed (printed pollutants squarings sheet.now) output.old }
{
    let lines = printing::print(sheet);
    let bytes = lines.bytes;
    let n = lines.length;
    if n <= output.len() {
        output[..n].copy_from_slice(&bytes[..n]);
    }
    n
}

// A reader that stands at the start is moved on k times, or to the end.
// By `while`: so the compiler works out where it stands, and with a `for` over the moves it goes through them.
fn walked(size: usize, sheet: &[u8], k: usize) -> usize
    ensures { result ≡ reached size sheet.now k }
{
    let mut at: usize = 0;
    while at < k {
        let turn = turn_at(size, sheet, at);
        if turn.left == 0 {
            return at;
        }
        at = turn.next;
    }
    at
}

// The record's kind, 100 for a kind that there is not and 101 for the end, and the fields.
fn numbers_of(step: Step) -> [u32; 8]
    ensures { result ≡ numbers_of_lem step }
{
    match step {
        Step::Pollutant {
            number,
            plan,
            limit,
            deviation,
        } => [1, number, plan, limit, deviation, 0, 0, 0],
        Step::Engine {
            cause,
            measurements,
        } => [
            2,
            cause,
            measurements.co,
            measurements.hc,
            measurements.nox,
            measurements.pm,
            measurements.fifth,
            measurements.sixth,
        ],
        Step::Stop => [3, 0, 0, 0, 0, 0, 0, 0],
        Step::SmallEngine {
            volume,
            speed,
            date,
        } => [5, volume, speed, date, 0, 0, 0, 0],
        Step::RunIn { measurements } => [
            6,
            0,
            measurements.co,
            measurements.hc,
            measurements.nox,
            measurements.pm,
            measurements.fifth,
            measurements.sixth,
        ],
        Step::Other { kind } => [100, kind, 0, 0, 0, 0, 0, 0],
        Step::End => [101, 0, 0, 0, 0, 0, 0, 0],
    }
}

// What a reader finds that was moved on k times: which step, and its fields, at numbers; and as the answer how many records are left there.
// size_t probe_step(size_t size, const uint8_t *sheet, size_t sheet_length, size_t k, uint32_t numbers[8])
#[unsafe(no_mangle)]
pub extern "C" fn probe_step(size: usize, sheet: &[u8], k: usize, numbers: &mut [u32; 8]) -> usize
    ensures value { result ≡ left_at_lem size sheet.now (reached size sheet.now k) }
    ensures numbers_after { numbers.new ≡ numbers_of_lem (step_at_lem size sheet.now (reached size sheet.now k)) }
{
    let turn = turn_at(size, sheet, walked(size, sheet, k));
    let step = turn.step;
    *numbers = numbers_of(step);
    turn.left
}
