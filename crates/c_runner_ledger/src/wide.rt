use std::marker::Model;

/// A number in two halves. It lies at any eighth byte, where a `u128` takes up to eight bytes more before it.
#[derive(Drop)]
pub(crate) struct Wide {
    high: u64,
    low: u64,
}

impl Model for Wide {
    ghost use Rattle.std.specs.Prelude.{ℕ, ◌+◌, ◌*◌, ◌^◌};

    ghost Value = { ℕ };

    ghost view = { λ wide. wide.high * 2 ^ 64 + wide.low };
}

impl Wide {
    ghost use Rattle.std.specs.Prelude.{◌≡◌};

    pub fn of(number: u128) -> Wide
        ensures { result ≡ number }
    {
        Wide {
            high: (number >> 64) as u64,
            low: (number % (1 << 64)) as u64,
        }
    }

    pub fn number(&self) -> u128
        ensures { result ≡ self.now }
    {
        self.high as u128 * (1 << 64) + self.low as u128
    }
}
