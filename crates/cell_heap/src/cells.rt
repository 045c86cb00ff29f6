//! Cells in an arena, each under its key.
ghost use Rattle.std.specs.Prelude.{◌≡◌};
ghost use Rattle.std.specs.Borrow.{sem};
ghost use Rattle.std.specs.Option.{option_copied, option_copied_mut};
ghost use Rattle.slot_arena.specs.Contents.{value_at};
ghost use Rattle.cell_heap.specs.Held.{IsNamed};
ghost use Rattle.cell_heap.specs.Lends.{LendsCell};

use crate::content::Content;
use slot_arena::{Arena, Key};

/// A cell that is there: how many references there are to it, and what it holds.
#[derive(Drop)]
pub(crate) struct CountedCell {
    pub count: u128,
    pub content: Content,
}

/// The cell of a key, if the key is in the map.
pub(crate) fn lookup(cells: &Arena<CountedCell>, key: Key) -> Option<&CountedCell>
    ensures cell { option_copied result ≡ value_at cells.now key }
    ensures named { IsNamed key }
{
    cells.get(key)
}

/// The cell of a key, for a change, if the key is in the map.
pub(crate) fn lookup_mut(cells: &mut Arena<CountedCell>, key: Key) -> Option<&mut CountedCell>
    ensures* writes_back { sem 𝓛 (LendsCell cells.entry key result) }
    ensures cell { option_copied_mut result ≡ value_at cells.old key }
    ensures named { IsNamed key }
{
    cells.get_mut(key)
}
