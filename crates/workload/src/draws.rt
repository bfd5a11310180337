// Drawn figures. Each call has a seed, and each figure of the call a key: the same seed and key give the same figure on every run.
ghost use Rattle.std.specs.Prelude.{◌<◌, ◌^◌};
ghost use Rattle.workload.specs.declared.draws.TheConstants.{PRIME};

const PRIME: u64 = 2_147_483_647;

// The figures of one call.
#[derive(Clone, Copy)]
pub struct Draws {
    seed: u64,
    // What keys are counted from.
    start: u64,
    ghost seed_is_reduced: { seed < PRIME },
}

impl Draws {
    pub fn new(seed: u64) -> Draws {
        Draws {
            seed: seed % PRIME,
            start: 0,
        }
    }

    // Those of the next call, by Lehmer's generator.
    pub fn next(self) -> Draws {
        Draws {
            seed: self.seed * 48_271 % PRIME,
            start: 0,
        }
    }

    // The same with keys counted from this one on.
    pub fn at(self, key: u64) -> Draws {
        Draws {
            seed: self.seed,
            start: self.start.saturating_add(key),
        }
    }

    // A figure from 0 up to `end` and not `end`; 0 where `end` is 0.
    pub fn draw(self, key: u64, end: u64) -> u64
        ensures within { result < 2 ^ 27 }
        ensures below { 0 < end → result < end }
    {
        if end == 0 {
            return 0;
        }
        let key = self.start.saturating_add(key) % PRIME;
        let first = scrambled(self.seed * 16_807 + key * 69_621);
        let second = scrambled(first * 40_692 + key);
        second / 16 % end
    }

    // One of so many draws. A count of 0 is as 1.
    pub fn rarely(self, key: u64, count: u64) -> bool {
        self.draw(key, count) == 0
    }
}

fn scrambled(x: u64) -> u64
    ensures { result < PRIME }
{
    let rest = x % PRIME;
    (rest * rest % PRIME + 12_345) % PRIME
}
