// Numbers of one, two and four bytes, the lowest byte first. In the functions that ask for the length a byte past the end counts as 0.
#![tactic(auto)]

ghost use Rattle.std.specs.Prelude.{◌≡◌, ◌<◌, length};
ghost use Rattle.rules.specs.Tools.{byte, two, four};
ghost use Rattle.numbers.specs.Ranges.{ByteRange, PlaceRange};

// The number in the four bytes from i on, of bytes that have them. For this crate, `record` and `statistics`, which read where the sheet lies: so it may require.
pub fn u32_present(r: &[u8], i: usize) -> u32
    requires { ByteRange i 4 (length r.now) }
    ensures { result ≡ four r.now i }
{
    u32::from_le_bytes([r[i], r[i + 1], r[i + 2], r[i + 3]])
}

// Byte i of a record, for the fields of one byte and for the bytes that must be zero.
pub fn byte_at(r: &[u8], i: usize) -> u32
    ensures { (result ≡ byte r.now i) × (result < 256) }
{
    r.get(i).map_or(0, |b| u32::from(*b))
}

// The number in bytes i and i + 1. One question for both, so that they are read together.
// For this crate, `record` and `zeros`, with places far below the greatest, so that i + 1 is a place too: so it may require.
pub fn u16_at(r: &[u8], i: usize) -> u32
    requires { PlaceRange i 41 }
    ensures { (result ≡ two r.now i) × (result < 65536) }
{
    if i + 1 < r.len() {
        u32::from(u16::from_le_bytes([r[i], r[i + 1]]))
    } else {
        byte_at(r, i)
    }
}

// The number in the four bytes from i on. One question for all of them, so that they are read together.
// For this crate, `record` and `zeros`, with places far below the greatest, so that i + 3 is a place too: so it may require.
pub fn u32_at(r: &[u8], i: usize) -> u32
    requires { PlaceRange i 40 }
    ensures { result ≡ four r.now i }
{
    if i + 3 < r.len() {
        u32_present(r, i)
    } else {
        u16_at(r, i) + 65536 * u16_at(r, i + 2)
    }
}
