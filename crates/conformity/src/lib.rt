// The entries for programs in C, answering number * 256 + record, 0 on success: append and report for the bench's control program, of
// 20-byte records and by the record size, the converter between the sizes, the finding that is entered for a vehicle, what is sure of
// measurements known within a range, and declared for type approval.
#![tactic(auto)]

ghost use Rattle.std.specs.Prelude.{◌≡◌};
ghost use Rattle.rules.specs.Logarithm.{squarings};
ghost use Rattle.rules.specs.Sheet.{pollutants};
ghost use Rattle.rules.specs.Operations as rules;
ghost use Rattle.rules.specs.Sizes.{append_sized, appended_sized, report_sized, reported_sized};
ghost use Rattle.rules.specs.Converter.{convert, converted, added_pollutants};
ghost use Rattle.rules.specs.Findings.{enter_sized, entered_sized};
ghost use Rattle.rules.specs.Ranges as ranges;
ghost use Rattle.rules.specs.DeclaredValue as approval;
ghost use Rattle.outcomes.specs.Outcomes.{outcome_is};

use checking::Refusal;
use declared_value::approve;
use judging_ranges::{Range, judge_range};
use layout::Size;

// "gets number × 256 + record"
fn code(outcome: Result<(), Refusal>) -> u32
    ensures { result ≡ rules.code (outcome_is outcome) }
{
    match outcome {
        Ok(()) => 0,
        Err(refusal) => refusal.code(),
    }
}

// uint32_t conformity_append(uint8_t *buffer, size_t buffer_length, size_t used, const uint8_t *record, size_t record_length)
#[tactic(auto, unfolding(rules::specs::Sizes::append_sized, rules::specs::Sizes::appended_sized))]
#[unsafe(no_mangle)]
pub extern "C" fn conformity_append(buffer: &mut [u8], used: usize, record: &[u8]) -> u32
    ensures value { result ≡ rules.code (rules.append pollutants buffer.old used «record».now) }
    ensures buffer_after { buffer.new ≡ rules.appended pollutants buffer.old used «record».now }
{
    code(appending::append(Size::TWENTY, buffer, used, record))
}

// uint32_t conformity_report(const uint8_t *sheet, size_t sheet_length, uint8_t *output, size_t output_length)
#[tactic(auto, unfolding(rules::specs::Sizes::report_sized, rules::specs::Sizes::reported_sized))]
#[unsafe(no_mangle)]
pub extern "C" fn conformity_report(sheet: &[u8], output: &mut [u8]) -> u32
    ensures value { result ≡ rules.code (rules.report pollutants sheet.now output.old) }
    ensures output_after { output.new ≡ rules.reported pollutants squarings sheet.now output.old }
{
    code(reporting::report(Size::TWENTY, sheet, output))
}

// uint32_t conformity_append_sized(size_t size, uint8_t *buffer, size_t buffer_length, size_t used, const uint8_t *record, size_t record_length)
#[unsafe(no_mangle)]
pub extern "C" fn conformity_append_sized(
    size: usize,
    buffer: &mut [u8],
    used: usize,
    record: &[u8],
) -> u32
    ensures value { result ≡ rules.code (append_sized size buffer.old used «record».now) }
    ensures buffer_after { buffer.new ≡ appended_sized size buffer.old used «record».now }
{
    code(appending::append(size, buffer, used, record))
}

// uint32_t conformity_report_sized(size_t size, const uint8_t *sheet, size_t sheet_length, uint8_t *output, size_t output_length)
#[unsafe(no_mangle)]
pub extern "C" fn conformity_report_sized(size: usize, sheet: &[u8], output: &mut [u8]) -> u32
    ensures value { result ≡ rules.code (report_sized size sheet.now output.old) }
    ensures output_after { output.new ≡ reported_sized size squarings sheet.now output.old }
{
    code(reporting::report(size, sheet, output))
}

// uint32_t conformity_convert(size_t size, const uint8_t *sheet, size_t sheet_length, uint8_t *output, size_t output_length)
#[unsafe(no_mangle)]
pub extern "C" fn conformity_convert(size: usize, sheet: &[u8], output: &mut [u8]) -> u32
    ensures value { result ≡ rules.code (convert pollutants added_pollutants size sheet.now output.old) }
    ensures output_after { output.new ≡ converted pollutants added_pollutants size sheet.now output.old }
{
    code(converting::convert(size, sheet, output))
}

// uint32_t conformity_finding(size_t size, uint8_t *sheet, size_t sheet_length, uint32_t engine, uint32_t finding)
#[unsafe(no_mangle)]
pub extern "C" fn conformity_finding(
    size: usize,
    sheet: &mut [u8],
    engine: u32,
    finding: u32,
) -> u32
    ensures value { result ≡ rules.code (enter_sized size sheet.old engine finding) }
    ensures sheet_after { sheet.new ≡ entered_sized size sheet.old engine finding }
{
    code(entering::enter(size, sheet, engine, finding))
}

// uint32_t conformity_range(size_t size, const uint8_t *low, size_t low_length, const uint8_t *high, size_t high_length, uint32_t *answer, uint32_t *engine)
#[unsafe(no_mangle)]
pub extern "C" fn conformity_range(
    size: usize,
    low: &[u8],
    high: &[u8],
    answer: &mut u32,
    engine: &mut u32,
) -> u32
    ensures value { result ≡ rules.code (ranges.outcome (ranges.range_sized size squarings low.now high.now)) }
    ensures answer_after { answer.new ≡ ranges.answer_after_lem (ranges.range_sized size squarings low.now high.now) answer.old }
    ensures engine_after { engine.new ≡ ranges.engine_after_lem (ranges.range_sized size squarings low.now high.now) engine.old }
{
    match judge_range(size, low, high) {
        Ok(Range::PassesSurely(n)) => {
            *answer = 1;
            *engine = n as u32;
            0
        }
        Ok(Range::FailsSurely(n)) => {
            *answer = 2;
            *engine = n as u32;
            0
        }
        Ok(Range::Depends) => {
            *answer = 0;
            *engine = 0;
            0
        }
        Err(refused) => refused.code(),
    }
}

// uint32_t conformity_declared(uint32_t declared, const uint32_t *tests, size_t count, uint32_t *sum, uint32_t *divisor)
#[unsafe(no_mangle)]
pub extern "C" fn conformity_declared(
    declared: u32,
    tests: &[u32],
    sum: &mut u32,
    divisor: &mut u32,
) -> u32
    ensures value { result ≡ rules.code (approval.outcome (approval.approve declared tests.now)) }
    ensures sum_after { sum.new ≡ approval.sum_after_lem (approval.approve declared tests.now) sum.old }
    ensures divisor_after { divisor.new ≡ approval.divisor_after_lem (approval.approve declared tests.now) divisor.old }
{
    match approve(declared, tests) {
        Ok(None) => {
            *sum = 0;
            *divisor = 0;
            0
        }
        Ok(Some(value)) => {
            *sum = value.sum;
            *divisor = value.count;
            0
        }
        Err(reason) => Refusal::from(reason).code(),
    }
}
