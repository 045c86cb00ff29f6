ghost use Rattle.std.specs.Prelude.{◌≡◌, IfOk};
ghost use Rattle.std.specs.Fmt.{signed_decimal};

use crate::memory::Memory;
use crate::text::Text;
use itoa::Buffer;
use std::alloc::Global;

/// The decimal text of a number, as `str(a)` gives it.
pub fn number_text(alloc: Global, a: i128) -> Result<Text, Memory>
    ensures { IfOk result (λ text. text ≡ signed_decimal a) }
{
    let mut buffer = Buffer::new();
    Text::from_str(alloc, buffer.format(a))
}
