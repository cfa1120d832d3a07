// The dice: a generator of random numbers, and the throws of one state of it. A throw is told from the others by its number.

ghost use Rattle.std.specs.Prelude.{◌≤◌};

// A state of the generator, a shift register of 64 bits.
#[derive(Clone, Copy)]
pub(crate) struct Dice {
    pub(crate) seed: u64,
}

// The halves of a number, each multiplied and laid over the other.
fn stir(x: u64) -> u64 {
    let low = x % 4294967296 * 2654435769;
    let high = x / 4294967296 * 2246822519;
    low ^ (low >> 29) ^ (high << 32) ^ (high >> 32)
}

impl Dice {
    // The next state of the generator.
    pub(crate) fn next(self) -> Self {
        let a = self.seed ^ (self.seed << 13);
        let b = a ^ (a >> 7);
        Dice {
            seed: b ^ (b << 17),
        }
    }

    // Other dice of the same state.
    pub(crate) fn stirred(self) -> Self {
        Dice {
            seed: stir(self.seed),
        }
    }

    // Throw number `throw`: a number below `below`, or 0 where that is 0.
    pub(crate) fn wide(self, throw: u64, below: u64) -> u64
        ensures { result ≤ below }
    {
        if below == 0 {
            return 0;
        }
        stir(stir(self.seed.wrapping_add(throw)).wrapping_add(self.seed)) % below
    }

    // The same of 16 bits.
    pub(crate) fn roll(self, throw: u64, below: u16) -> u16 {
        self.wide(throw, u64::from(below)) as u16
    }
}
