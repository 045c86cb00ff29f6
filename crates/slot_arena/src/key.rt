ghost use Rattle.std.specs.Prelude.{◌≡◌};
ghost use Rattle.slot_arena.specs.Serials.{serial_of, key_with};

use crate::wide::Wide;

/// The name of a stored value: the slot in which it lies, and how many inserts there were before its own.
///
/// No two inserts into an arena have the same serial, so a key never comes again.
#[derive(Clone, Copy, Debug, PartialEq, Eq)]
pub struct Key {
    pub(crate) slot: usize,
    // In two halves, so that a key takes three words of memory and not four.
    serial: Wide,
}

impl Key {
    pub(crate) fn new(slot: usize, serial: u128) -> Key
        ensures { result ≡ key_with slot serial }
    {
        Key {
            slot,
            serial: Wide::of(serial),
        }
    }

    /// How many inserts there were before its own.
    pub fn serial(self) -> u128
        ensures { result ≡ serial_of self }
    {
        self.serial.number()
    }
}
