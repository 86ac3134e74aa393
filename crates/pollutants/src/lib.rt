// What there is of each pollutant, "carbon monoxide, hydrocarbons, nitrogen oxides, particulates", and of the two more that 02, F-10, does not name.
#![tactic(auto)]

ghost use Rattle.std.specs.Prelude.{◌≡◌, cond};
ghost use Rattle.pollutants.specs.Each.{all_lem, with_lem};

#[derive(Clone, Copy, PartialEq, Eq)]
pub struct Each<T> {
    pub co: T,
    pub hc: T,
    pub nox: T,
    pub pm: T,
    pub fifth: T,
    pub sixth: T,
}

fn chosen<T: Copy>(test: bool, a: T, b: T) -> T
    ensures { result ≡ cond test a b }
{
    if test { a } else { b }
}

impl<T: Copy> Each<T> {
    // The same of each.
    pub fn all(x: T) -> Each<T>
        ensures { result ≡ all_lem x }
    {
        Each {
            co: x,
            hc: x,
            nox: x,
            pm: x,
            fifth: x,
            sixth: x,
        }
    }

    // These, but x of pollutant p.
    pub fn with(self, p: u32, x: T) -> Each<T>
        ensures { result ≡ with_lem self p x }
    {
        // A sheet of 20-byte records never goes in here.
        if 4 < p {
            return Each {
                fifth: chosen(p == 5, x, self.fifth),
                sixth: chosen(p == 6, x, self.sixth),
                ..self
            };
        }
        Each {
            co: chosen(p == 1, x, self.co),
            hc: chosen(p == 2, x, self.hc),
            nox: chosen(p == 3, x, self.nox),
            pm: chosen(p == 4, x, self.pm),
            ..self
        }
    }
}
