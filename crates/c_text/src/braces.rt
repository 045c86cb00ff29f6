//! Lists in braces, as they stand in the lines of classes: items with a comma and a space between each two.
ghost use Rattle.std.specs.Prelude.{◌≡◌, ◌++◌, ◌∷◌, ◌<◌, ◌≤◌, ℕ, Bool, List, None, length, map, IsTrue, IfOk, IfSome};
ghost use Rattle.std.specs.List.{flat_map, list_all};
ghost use Rattle.c_core.specs.Text.{braced, comma};
ghost use Rattle.c_text.specs.Braces.{EndsItem, FindsFront, next_item, next_list};
ghost use Rattle.c_text.specs.Writing.{Wrote};

use crate::word::past;
use crate::written::write_word;
use outside_core::{Sink, WriteFault};
use std::alloc::Global;
use value_core::{Many, Memory};

/// What stands in a list in braces.
pub(crate) trait Item: Drop + Sized {
    /// How it is written.
    ghost shown: { Self → List ℕ };

    /// Whether a spelled class may have it.
    ghost spelled: { Self → Bool };

    /// The item at the front of a text, and what stands behind it. At a closing brace there is none.
    fn read(alloc: Global, text: &[u8]) -> Result<Option<(Self, &[u8])>, Memory>
        ensures finds { (item : Self) (rest : List ℕ) → IsTrue (spelled item) → EndsItem rest → shown item ++ rest ≡ text.now →
            IfOk result (λ found. FindsFront found item rest) }
        ensures closes { (rest : List ℕ) → 125 ∷ rest ≡ text.now → IfOk result (λ found. found ≡ None) }
        ensures spelled { IfOk result (λ found. IfSome found (λ p. IsTrue (spelled p.0))) }
        ensures shorter { IfOk result (λ found. IfSome found (λ p. length p.1.now < length text.now)) };

    /// Writes it behind what separates it from what stands before.
    fn write<O: Sink>(&self, separator: &[u8], out: &mut O) -> Result<(), WriteFault>
        ensures { Wrote result O.tells (O.faults out.old) (O.faults out.new) (O.taken out.old) (O.taken out.new)
            (separator.now ++ shown self.now) };
}

/// A list that stands behind a comma and a space, as far as there is one, and what stands behind it.
pub(crate) fn next_items<P: Item>(alloc: Global, text: &[u8]) -> Result<(Many<P>, &[u8]), Memory>
    ensures finds { (items : List P) (rest : List ℕ) → IsTrue (list_all P.spelled items) → next_list P.shown items rest ≡ text.now →
        IfOk result (λ p. (p.0 ≡ items) × (p.1.now ≡ rest)) }
    ensures spelled { IfOk result (λ p. IsTrue (list_all P.spelled p.0)) }
    ensures within { IfOk result (λ p. length p.1.now ≤ length text.now) }
{
    let mut items = Many::new(alloc);
    let mut rest = past(text, b", {");
    while let Some((item, after)) = P::read(alloc, rest)? {
        items.push(item)?;
        rest = past(after, b", ");
    }
    Ok((items, past(rest, b"}")))
}

/// Writes a list behind a comma and a space.
pub(crate) fn write_next_items<P: Item, O: Sink>(
    items: &Many<P>,
    out: &mut O,
) -> Result<(), WriteFault>
    ensures { Wrote result O.tells (O.faults out.old) (O.faults out.new) (O.taken out.old) (O.taken out.new)
        (comma ++ braced (map P.shown items.now)) }
{
    let [first, others @ ..] = items.as_slice() else {
        return write_word(b", {}", out);
    };
    first.write(b", {", out)?;
    write_other_items(others, out)?;
    write_word(b"}", out)
}

fn write_other_items<P: Item, O: Sink>(others: &[P], out: &mut O) -> Result<(), WriteFault>
    ensures { Wrote result O.tells (O.faults out.old) (O.faults out.new) (O.taken out.old) (O.taken out.new)
        (flat_map (next_item P.shown) others.now) }
{
    for other in others {
        other.write(b", ", out)?;
    }
    Ok(())
}
