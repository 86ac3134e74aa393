// The text of a program's answer in the making: lines of bytes, written one behind another.
#![tactic(auto)]

ghost use Rattle.std.specs.Prelude.{◌≡◌};
ghost use Rattle.rules.specs.Printed.{decimal};
ghost use Rattle.lines.specs.Writing.{nothing, with_byte_lem, with_bytes, Adds};

// What has been written: the first `length` of the bytes. What finds no room is left out; each contract over lines says that there is room.
// An array and a length, for there is no heap. No invariant holds the length within the room: what each function promises, it promises of lines of any length.
#[derive(Clone, Copy)]
pub struct Lines {
    pub bytes: [u8; 256],
    pub length: usize,
}

impl Lines {
    // How many bytes there is room for.
    pub const ROOM: usize = 256;

    // No bytes yet.
    #[tactic(auto, unfolding(crate::specs::Writing::nothing))]
    pub fn nothing() -> Lines
        ensures { result ≡ nothing }
    {
        Lines {
            bytes: [0; Lines::ROOM],
            length: 0,
        }
    }

    // With one byte more.
    #[tactic(auto, unfolding(crate::specs::Writing::with_byte_lem))]
    pub fn with_byte(mut self, b: u8) -> Lines
        ensures { result ≡ with_byte_lem self b }
    {
        if self.length < Lines::ROOM {
            self.bytes[self.length] = b;
            self.length += 1;
        }
        self
    }

    // With the bytes of a word.
    #[tactic(auto, unfolding(crate::specs::Writing::with_bytes))]
    pub fn with_word(mut self, word: &[u8]) -> Lines
        ensures { result ≡ with_bytes self word.now }
    {
        for &b in word {
            self = self.with_byte(b);
        }
        self
    }

    // In decimal, without leading zeros: at most ten digits. Not by `write!`, which asks for a `fmt::Write` whose calls may fail: no call here does.
    pub fn with_number(self, n: u32) -> Lines
        ensures { Adds self result (decimal n) 10 }
    {
        if n < 10 {
            self.with_byte(b'0' + n as u8)
        } else {
            self.with_number(n / 10).with_byte(b'0' + (n % 10) as u8)
        }
    }
}
