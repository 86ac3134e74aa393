// The plans of documents 01 and 02, each with its number and its last row.
#![tactic(auto)]

ghost use Rattle.std.specs.Prelude.{◌≡◌};
ghost use Rattle.rules.specs.Plans.{plan_of, last_row_lem};
ghost use Rattle.plan.specs.Plan.{plan_is, plan_named};

use refusals::Reason;

// By which plan a sheet is judged, with its number on a sheet.
#[derive(Clone, Copy, PartialEq, Eq)]
pub enum Plan {
    KnownDeviation = 1,
    UnknownDeviation = 2,
    Attributes = 3,
    InService = 4,
    // Unknown deviation, the corrected sheet (02, F-6).
    Corrected = 5,
}

// "5, plan not 1 to 4"; 02, F-6: "Refusal 5 admits plan 5."
impl TryFrom<u32> for Plan {
    type Error = Reason;

    ghost try_from_gives = { λ number r. r ≡ plan_named number };

    fn try_from(number: u32) -> Result<Plan, Reason> {
        match number {
            1 => Ok(Plan::KnownDeviation),
            2 => Ok(Plan::UnknownDeviation),
            3 => Ok(Plan::Attributes),
            4 => Ok(Plan::InService),
            5 => Ok(Plan::Corrected),
            _ => Err(Reason::Plan),
        }
    }
}

impl Plan {
    // The last row of each.
    pub const KNOWN_DEVIATION_LAST_ROW: u32 = 32;

    pub const UNKNOWN_DEVIATION_LAST_ROW: u32 = 32;

    pub const ATTRIBUTES_LAST_ROW: u32 = 19;

    pub const IN_SERVICE_LAST_ROW: u32 = 15;

    pub const CORRECTED_LAST_ROW: u32 = 32;

    // The plan of a number that the check lets pass, 1 to 5: of any other, plan 1, as the definition has it.
    pub fn of(number: u32) -> Plan
        ensures { plan_is result ≡ plan_of number }
    {
        Plan::try_from(number).unwrap_or(Plan::KnownDeviation)
    }

    // "The last row belongs to the plan".
    pub fn last_row(self) -> u32
        ensures { result ≡ last_row_lem (plan_is self) }
    {
        match self {
            Plan::KnownDeviation => Plan::KNOWN_DEVIATION_LAST_ROW,
            Plan::UnknownDeviation => Plan::UNKNOWN_DEVIATION_LAST_ROW,
            Plan::Attributes => Plan::ATTRIBUTES_LAST_ROW,
            Plan::InService => Plan::IN_SERVICE_LAST_ROW,
            Plan::Corrected => Plan::CORRECTED_LAST_ROW,
        }
    }
}
