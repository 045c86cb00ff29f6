ghost use Rattle.std.specs.Prelude.{◌≡◌, option_to_list};
ghost use Rattle.std.specs.Option.{option_map};
ghost use Rattle.c_core.specs.Machine.{refs_of};
ghost use Rattle.cell_heap.specs.Contents.{name_of, number_of, word_named, word_of};

use slot_arena::Key;

/// What a variable, a global or a place of a container holds (mypyc's developer guide, "Value representation").
/// `specs/Contents.antt` says which word of the machine it is.
#[derive(Clone, Copy, Debug, PartialEq, Eq)]
pub enum Word {
    /// An `int` that needs no cell.
    Short(i64),
    /// An `int` that has a cell.
    Big(Key),
    /// The error value of an `int`.
    TagError,
    /// A native integer of 64 bits.
    I64(i64),
    /// A `char`.
    Char(u8),
    PyNone,
    PyTrue,
    PyFalse,
    /// An object that has a cell.
    Cell(Key),
    /// The error value of an object.
    Null,
}

impl Word {
    /// The key of the cell that it refers to, if it refers to one.
    pub fn key(self) -> Option<Key>
        ensures name { option_to_list (option_map name_of result) ≡ refs_of (word_named self) }
        ensures number { option_to_list (option_map number_of result) ≡ refs_of (word_of self) }
    {
        match self {
            Word::Big(key) | Word::Cell(key) => Some(key),
            _ => None,
        }
    }
}
