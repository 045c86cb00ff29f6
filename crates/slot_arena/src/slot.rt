//! One place of an arena.
ghost use Rattle.std.specs.Prelude.{◌≡◌, IsSome, Some, option_copied};
ghost use Rattle.std.specs.Borrow.{sem};
ghost use Rattle.slot_arena.specs.Slot.{live_serial, value_under, stored_value, condemned_slot};

/// One place of an arena.
#[derive(Drop)]
pub(crate) enum Slot<T> {
    /// Free, with the next free slot.
    Free(Option<usize>),
    /// Holds the value that was inserted after `serial` others.
    Full {
        standing: Standing,
        serial: u128,
        value: T,
    },
}

/// Whether a stored value is still in the map.
#[derive(Drop)]
pub(crate) enum Standing {
    Live,
    /// Out of the map and not yet taken off, with the next condemned slot.
    Condemned(Option<usize>),
}

impl<T> Slot<T> {
    ghost use Rattle.slot_arena.specs.Lends.{LendsStored};

    /// The serial, where the slot has its value in the map.
    pub(crate) fn live_serial(&self) -> Option<u128>
        ensures { result ≡ live_serial self.now }
    {
        match self {
            Slot::Full {
                standing: Standing::Live,
                serial,
                value: _,
            } => Some(*serial),
            _ => None,
        }
    }

    /// The value, where the slot has it in the map under this serial.
    pub(crate) fn value(&self, wanted: u128) -> Option<&T>
        ensures { option_copied result ≡ value_under wanted self.now }
    {
        match self {
            Slot::Full {
                standing: Standing::Live,
                serial,
                value,
            } => { if *serial == wanted { Some(value) } else { None } }
            _ => None,
        }
    }

    /// The value of a slot that is not free, for writing.
    pub(crate) fn value_mut(&mut self) -> &mut T
        requires { IsSome (stored_value self.old) }
        ensures* writes_back { sem 𝓛 (LendsStored T.row self.entry result) }
        ensures value { stored_value self.old ≡ Some result.now }
    {
        match self {
            Slot::Full {
                standing: _,
                serial: _,
                value,
            } => value,
            Slot::Free(_) => unreachable!(),
        }
    }

    /// Condemns the value, before the condemned slot `next`.
    pub(crate) fn condemn(&mut self, next: Option<usize>)
        ensures { self.new ≡ condemned_slot next self.old }
    {
        if let Slot::Full {
            standing,
            serial: _,
            value: _,
        } = self
        {
            *standing = Standing::Condemned(next);
        }
    }
}
