// The printed tables of the plans: each row of print on a line, its signs as printed, with its number behind it.
#![tactic(auto)]

ghost use Rattle.std.specs.Prelude.{◌≡◌, IfSome, option_map};
ghost use Rattle.plan.specs.Plan.{plan_is};
ghost use Rattle.tables.specs.Tables.{table_named, PassNumbers, FailNumbers};

pub mod table;

use plan::Plan;
use table::PlanTable;

// Plan 1: 001, Appendix 1, Table I.1.5. A and B in thousandths.
static PLAN_1: [[i32; 2]; 30] = [
    [3327, -4724], // 3
    [3261, -4790], // 4
    [3195, -4856], // 5
    [3129, -4922], // 6
    [3063, -4988], // 7
    [2997, -5054], // 8
    [2931, -5120], // 9
    [2865, -5185], // 10
    [2799, -5251], // 11
    [2733, -5317], // 12
    [2667, -5383], // 13
    [2601, -5449], // 14
    [2535, -5515], // 15
    [2469, -5581], // 16
    [2403, -5647], // 17
    [2337, -5713], // 18
    [2271, -5779], // 19
    [2205, -5845], // 20
    [2139, -5911], // 21
    [2073, -5977], // 22
    [2007, -6043], // 23
    [1941, -6109], // 24
    [1875, -6175], // 25
    [1809, -6241], // 26
    [1743, -6307], // 27
    [1677, -6373], // 28
    [1611, -6439], // 29
    [1545, -6505], // 30
    [1479, -6571], // 31
    [-2112, -2112], // 32
];

// Plan 2: 001, Appendix 2, Table I.2.5. A and B in hundred-thousandths.
static PLAN_2: [[i32; 2]; 30] = [
    [-80381, 1664743], // 3
    [-76339, 768627], // 4
    [-72982, 467136], // 5
    [-69962, 325573], // 6
    [-67129, 245431], // 7
    [-64406, 194369], // 8
    [-61750, 159105], // 9
    [-59135, 133295], // 10
    [-56542, 113566], // 11
    [-53960, 97970], // 12
    [-51379, 85307], // 13
    [-48791, 74801], // 14
    [-46191, 65928], // 15
    [-43573, 58321], // 16
    [-40933, 51718], // 17
    [-38266, 45922], // 18
    [-35570, 40788], // 19
    [-32840, 36203], // 20
    [-30072, 32078], // 21
    [-27263, 28343], // 22
    [-24410, 24943], // 23
    [-21509, 21831], // 24
    [-18557, 18970], // 25
    [-15550, 16328], // 26
    [-12483, 13880], // 27
    [-9354, 11603], // 28
    [-6159, 9480], // 29
    [-2892, 7493], // 30
    [-449, 5629], // 31
    // document 01 has no B here
    [-3876, 0], // 32
];

// Plan 3: 001, Appendix 3, Table I.3.5. Row 3 has no pass number: that column begins with row 4.
// Row                         4  5  6  7  8  9 10 11 12 13 14 15 16 17 18 19
static PLAN_3_PASS: [u8; 16] = [0, 0, 1, 1, 2, 2, 3, 3, 4, 4, 5, 5, 6, 6, 7, 8];

// Row                         3  4  5  6  7  8  9 10 11 12 13 14 15  16  17  18 19
static PLAN_3_FAIL: [u8; 17] = [3, 4, 4, 5, 5, 6, 6, 7, 7, 8, 8, 9, 9, 10, 10, 11, 9];

// Plan 4: 000, Appendix 1, Table 1, "Rows as plan 2 up to 14; at 15, A is 15474."
static PLAN_4: [[i32; 2]; 13] = [
    [-80381, 1664743], // 3
    [-76339, 768627], // 4
    [-72982, 467136], // 5
    [-69962, 325573], // 6
    [-67129, 245431], // 7
    [-64406, 194369], // 8
    [-61750, 159105], // 9
    [-59135, 133295], // 10
    [-56542, 113566], // 11
    [-53960, 97970], // 12
    [-51379, 85307], // 13
    [-48791, 74801], // 14
    // document 01 has no B here
    [15474, 0], // 15
];

// Plan 5: the corrected sheet of 02, F-6: "A is 449 at 31, A and B are 3876 at 32", "otherwise as plan 2". 004 prints the same numbers, Table I/-/9.3.5.
static PLAN_5: [[i32; 2]; 30] = [
    [-80381, 1664743], // 3
    [-76339, 768627], // 4
    [-72982, 467136], // 5
    [-69962, 325573], // 6
    [-67129, 245431], // 7
    [-64406, 194369], // 8
    [-61750, 159105], // 9
    [-59135, 133295], // 10
    [-56542, 113566], // 11
    [-53960, 97970], // 12
    [-51379, 85307], // 13
    [-48791, 74801], // 14
    [-46191, 65928], // 15
    [-43573, 58321], // 16
    [-40933, 51718], // 17
    [-38266, 45922], // 18
    [-35570, 40788], // 19
    [-32840, 36203], // 20
    [-30072, 32078], // 21
    [-27263, 28343], // 22
    [-24410, 24943], // 23
    [-21509, 21831], // 24
    [-18557, 18970], // 25
    [-15550, 16328], // 26
    [-12483, 13880], // 27
    [-9354, 11603], // 28
    [-6159, 9480], // 29
    [-2892, 7493], // 30
    [449, 5629], // 31
    [3876, 3876], // 32
];

// The table of a plan: plan 3 has none, its pass and fail numbers are below.
#[tactic(auto, unfolding(rules::specs::Plans::unknown_numbers, rules::specs::Plans::in_service_numbers, rules::specs::Plans::corrected_numbers))]
pub fn table_of(plan: Plan) -> Option<PlanTable<'static>>
    ensures plan { IfSome result (λ t. t.plan ≡ plan) }
    ensures rows { option_map (λ t. t.rows.now) result ≡ table_named (plan_is plan) }
{
    let rows: &'static [[i32; 2]] = match plan {
        Plan::KnownDeviation => &PLAN_1,
        Plan::UnknownDeviation => &PLAN_2,
        Plan::Attributes => {
            return None;
        }
        Plan::InService => &PLAN_4,
        Plan::Corrected => &PLAN_5,
    };
    Some(PlanTable { plan, rows })
}

// Plan 3's pass numbers, of the rows 4 to 19.
pub fn pass_numbers() -> &'static [u8; 16]
    ensures { PassNumbers result.now }
{
    &PLAN_3_PASS
}

// Plan 3's fail numbers, of the rows 3 to 19.
pub fn fail_numbers() -> &'static [u8; 17]
    ensures { FailNumbers result.now }
{
    &PLAN_3_FAIL
}
