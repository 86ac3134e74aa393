// Why something is refused, each reason with its number in document 01 or 02.
#![tactic(auto)]

ghost use Rattle.std.specs.Prelude.{◌≡◌};
ghost use Rattle.refusals.specs.Numbers.{number_is};

#[derive(Clone, Copy, PartialEq, Eq)]
pub enum Reason {
    // "1, no bytes, a length not a multiple of 20, or over"
    Length = 1,
    // "2, kind not 1 to 3"
    Kind = 2,
    // "3, first record not kind 1, kind 1 after another kind, or anything after kind 3"
    Order = 3,
    // "4, pollutant number not 1 to 4 or not above the one before"
    PollutantNumber = 4,
    // "5, plan not 1 to 4 or unlike the first"
    Plan = 5,
    // "6, limit out of range"
    Limit = 6,
    // "7, deviation"
    Deviation = 7,
    // "8, measurement"
    Measurement = 8,
    // "9, cause"
    Cause = 9,
    // "10, more engines than the last row"
    TooManyEngines = 10,
    // "11, stop in plan 4"
    Stop = 11,
    // "12, another byte that must be zero"
    UnusedByte = 12,
    // "13, fewer than 20 bytes after u, or u beyond the buffer"
    NoRoom = 13,
    // "14, record not 20 bytes"
    RecordLength = 14,
    // "15, output under 20 bytes"
    OutputLength = 15,
    // "16, a second kind 5, one elsewhere or in plan 4"
    SmallEngine = 16,
    // "17, date not in the Gregorian calendar of years 1 to 9999"
    Date = 17,
    // "18, .. a declared particulate limit not the rule's"
    ParticulateLimit = 18,
    // "19, a second kind 6, one after an engine or in plan 4"
    RunIn = 19,
    // "20, no tests or more than three"
    TestCount = 20,
    // "21, value out of range"
    Value = 21,
    // "22, a test after the decision"
    TestAfterDecision = 22,
    // "23, no pending vehicle at that engine"
    NotPending = 23,
    // "24, finding not 1 to 65,534"
    Finding = 24,
    // "27, sheets differ elsewhere, or in the first engine of a run-in sheet"
    SheetsDiffer = 27,
    // "28, a low above its high"
    LowAboveHigh = 28,
    // "29, another plan"
    OtherPlan = 29,
    // "30, size not 20 or 28"
    Size = 30,
    // "31, narrowing a sheet that declares pollutant 5 or 6"
    Narrowing = 31,
    // "32, converter output too short"
    ConverterOutput = 32,
}

impl Reason {
    // "refused with a number"
    pub fn number(self) -> u8
        ensures { result ≡ number_is self }
    {
        self as u8
    }
}
