ghost use Rattle.std.specs.Prelude.{◌≡◌};
ghost use Rattle.slot_arena.specs.Serials.{number_in, wide_of};

/// A number below 2^128 in two halves. It lies at any eighth byte, where a `u128` lies at a sixteenth alone.
#[derive(Clone, Copy, Debug, PartialEq, Eq)]
pub(crate) struct Wide {
    high: u64,
    low: u64,
}

impl Wide {
    pub(crate) fn of(number: u128) -> Wide
        ensures { result ≡ wide_of number }
    {
        Wide {
            high: (number >> 64) as u64,
            low: (number % (1 << 64)) as u64,
        }
    }

    pub(crate) fn number(self) -> u128
        ensures { result ≡ number_in self }
    {
        self.high as u128 * (1 << 64) + self.low as u128
    }
}
