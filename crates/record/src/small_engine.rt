// The fields of a record of kind 5, by document 02, F-1.
ghost use Rattle.std.specs.Prelude.{◌≡◌, ◌<◌};
ghost use Rattle.rules.specs.Sheet.{volume, speed, date};

use numbers::{u16_at, u32_at};

// "bytes 2-3 swept volume per cylinder in cm³"
#[tactic(auto, unfolding(rules::specs::Sheet::volume))]
pub fn volume_of(r: &[u8]) -> u32
    ensures { (result ≡ volume r.now) × (result < 65536) }
{
    u16_at(r, 2)
}

// "bytes 4-5 rated speed per minute"
#[tactic(auto, unfolding(rules::specs::Sheet::speed))]
pub fn speed_of(r: &[u8]) -> u32
    ensures { (result ≡ speed r.now) × (result < 65536) }
{
    u16_at(r, 4)
}

// "bytes 8-11 test date"
#[tactic(auto, unfolding(rules::specs::Sheet::date))]
pub fn date_of(r: &[u8]) -> u32
    ensures { result ≡ date r.now }
{
    u32_at(r, 8)
}
