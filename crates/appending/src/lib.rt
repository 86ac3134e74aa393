// Append adds a record to the sheet in a lent buffer.
#![tactic(auto)]

ghost use Rattle.std.specs.Prelude.{◌≡◌};
ghost use Rattle.rules.specs.Sizes.{append_sized, appended_sized};
ghost use Rattle.outcomes.specs.Outcomes.{outcome_is};

use checking::{Refusal, check_joined};
use layout::Size;
use outcomes::checked_outcome;
use refusals::Reason;

// "Append adds a record to the sheet in the first u bytes of a lent buffer."
pub fn append(size: usize, buffer: &mut [u8], used: usize, added: &[u8]) -> Result<(), Refusal>
    ensures result_value { outcome_is result ≡ append_sized size buffer.old used added.now }
    ensures buffer_after { buffer.new ≡ appended_sized size buffer.old used added.now }
{
    // "30, size not 20 or 28, before every other"
    let size = Size::try_from(size)?;
    // "14, record not 20 bytes"; 02, F-10: "13 to 15 count 28 bytes for the new size"
    if added.len() != size.bytes() {
        return Err(Reason::RecordLength.into());
    }
    // "13, fewer than 20 bytes after u, or u beyond the buffer"
    if buffer.len() < used {
        return Err(Reason::NoRoom.into());
    }
    if buffer.len() - used < size.bytes() {
        return Err(Reason::NoRoom.into());
    }
    let checked = check_joined(size, &buffer[..used], added);
    let Ok(_) = checked else {
        return checked_outcome(checked);
    };
    buffer[used..used + added.len()].copy_from_slice(added);
    Ok(())
}
