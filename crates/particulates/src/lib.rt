// The particulate limit of production, which depends on an engine's size and on the date of the test: document 02, F-1.
#![tactic(auto)]

ghost use Rattle.std.specs.Prelude.{◌≡◌};
ghost use Rattle.rules.specs.Refusals.{particulate_limit_lem};

// "Under 700 cm³ and above 3000 per minute, the particulate limit of production is 250 through 19980930 and 150 after ..; every other engine has 150."
#[tactic(auto, unfolding(rules::specs::Refusals::particulate_limit_lem))]
pub fn particulate_limit(volume: u32, speed: u32, date: u32) -> u32
    ensures { result ≡ particulate_limit_lem volume speed date }
{
    if (volume < 700) & (3000 < speed) & (date <= 19_980_930) {
        250
    } else {
        150
    }
}
