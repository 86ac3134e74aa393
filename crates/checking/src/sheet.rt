// A sheet that the check accepts.
ghost use Rattle.checking.specs.Check.{Valid};

use layout::Size;
use summary::Summary;

// Its bytes, by the size of its records, and what it says. That the check accepts it is part of the type: so a function that takes one requires nothing more.
#[derive(Clone, Copy)]
pub struct AcceptedSheet<'a> {
    pub size: Size,
    pub bytes: &'a [u8],
    pub said: Summary,
    pub ghost valid: { Valid size bytes.now said },
}
