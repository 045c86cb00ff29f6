ghost use Rattle.std.specs.Prelude.{◌≡◌, position, IfOk};
ghost use Rattle.value_core.specs.Items.{is_line_feed};
ghost use Rattle.c_runner_lines.specs.Held.{EndsLine};
ghost use Rattle.c_runner_lines.specs.Steps.{item_of};

use crate::item::Item;
use std::alloc::Global;
use std::str;
use value_core::{Memory, Text};

/// The byte that ends a line.
const LINE_FEED: u8 = b'\n';

fn place_of_feed(bytes: &[u8]) -> Option<usize>
    ensures { result ≡ position is_line_feed bytes.now }
{
    bytes.iter().position(|b| *b == LINE_FEED)
}

/// Where the first line feed stands.
pub(crate) fn first_feed(bytes: &[u8]) -> Option<usize>
    ensures { EndsLine bytes.now result }
{
    place_of_feed(bytes)
}

/// The item of a line, whose bytes are copied.
pub(crate) fn line_item(alloc: Global, line: &[u8]) -> Result<Item, Memory>
    ensures { IfOk result (λ item. item ≡ item_of line.now) }
{
    match str::from_utf8(line) {
        Ok(text) => Ok(Item::Line(Text::from_str(alloc, text)?)),
        Err(_) => Ok(Item::Bad),
    }
}
