//! Which register is read again. Of each block, or piece of one, there is a row of the registers that are read again at its
//! start: for one register after the other the blocks are marked that read it before they write it, and then, against the
//! jumps, those that lead to a marked one and do not write it.
ghost use Rattle.std.specs.Prelude.{◌≡◌, ◌≤◌, ◌<◌, ◌+◌, ◌↔◌, ℕ, [], true, false, Some, length, get_or, IfOk, OnOk};
ghost use Rattle.std.specs.List.{list_any};
ghost use Rattle.ir_core.specs.Bare.{bare};
ghost use Rattle.liveness.specs.Paths.{is_among, targets};
ghost use Rattle.liveness.specs.Rising.{IsRising, AreAtMost, has};
ghost use Rattle.liveness.specs.Places.{is_read, reads_first, touch_from, AreTouches};
ghost use Rattle.liveness.specs.Rows.{AreBelow, IsLiveRow, Found, AreFound};
ghost use Rattle.liveness.specs.Tables.{live_in, live_by};
ghost use Rattle.liveness.specs.Liveness.{says_live, starts_of, IsLiveTable, AreStarts};

use crate::apart::{Home, kept_pieces, layout_of, whole};
use crate::flood::{Stop, flood, numbers_of};
use crate::places::{Span, Touch, Touches, readers, reads_first, sources, touch_from, touches_of};
use crate::rising::{Rising, empty_rows, mark, stands};
use crate::step::{Steps, kept_blocks};
use ir_core::{Func, Last, Reg};
use std::alloc::Global;
use value_core::{Many, Memory};

/// Which registers are read again at each place of a function.
#[derive(Drop)]
pub struct LiveTable {
    homes: Many<Home>,
    touches: Touches,
    rows: Many<Rising>,
}

/// Marks the blocks that read a register before they write it, among those that read it, and tells where the edges of the
/// marked ones end.
fn exposed(
    alloc: Global,
    touches: &Touches,
    readers: &[usize],
    edges: &[Many<usize>],
    rows: &mut [Rising],
    r: usize,
) -> Result<Vec<usize>, Memory>
    requires most { AreAtMost r rows.old }
    requires fresh { (t : ℕ) → has rows.old r t ≡ false }
    ensures most { OnOk result (AreAtMost r rows.new) }
    ensures others { OnOk result ((n t : ℕ) → (n ≡ r → ⊥) → has rows.new n t ≡ has rows.old n t) }
    ensures sound { OnOk result ((t : ℕ) → has rows.new r t ≡ true → (is_among readers.now t ≡ true) × (reads_first touches.now r t ≡ true)) }
    ensures marks { OnOk result ((t : ℕ) → is_among readers.now t ≡ true → reads_first touches.now r t ≡ true → t < length rows.old → has rows.new r t ≡ true) }
    ensures waits { IfOk result (λ work. (b t : ℕ) → has rows.new r b ≡ true → is_among (get_or edges.now b []) t ≡ true → is_among work.items t ≡ true) }
    ensures comes { IfOk result (λ work. (t : ℕ) → is_among work.items t ≡ true → (b : ℕ) × (has rows.new r b ≡ true) × (is_among (get_or edges.now b []) t ≡ true)) }
{
    let mut work = Vec::new(alloc);
    for b in readers {
        if reads_first(touches, r, *b) && mark(rows, r, *b)? {
            work.extend_from_slice(numbers_of(edges, *b))?;
        }
    }
    Ok(work)
}

/// Marks the blocks at whose start a register is read again.
fn live_row(
    alloc: Global,
    touches: &Touches,
    readers: &[usize],
    edges: &[Many<usize>],
    rows: &mut [Rising],
    r: usize,
) -> Result<(), Memory>
    requires size { length edges.now ≡ length rows.old }
    requires below { AreBelow r rows.old }
    ensures below { OnOk result (AreBelow (r + 1) rows.new) }
    ensures others { OnOk result ((n t : ℕ) → n < r → has rows.new n t ≡ has rows.old n t) }
    ensures finds { OnOk result ((t : ℕ) → t < length rows.old → (has rows.new r t ≡ true) ↔ Found touches.now readers.now edges.now r t) }
{
    let work = exposed(alloc, touches, readers, edges, rows, r)?;
    flood(touches, Stop::Before, edges, rows, r, work)?;
    Ok(())
}

fn live_rows(
    alloc: Global,
    touches: &Touches,
    readers: &[Many<usize>],
    edges: &[Many<usize>],
    rows: &mut [Rising],
) -> Result<(), Memory>
    requires size { length edges.now ≡ length rows.old }
    requires empty { (t : ℕ) → get_or rows.old t [] ≡ [] }
    ensures { OnOk result (AreFound touches.now readers.now edges.now (length readers.now) rows.new) }
{
    for (r, readers) in readers.iter().enumerate() {
        live_row(alloc, touches, readers.as_slice(), edges, rows, r)?;
    }
    Ok(())
}

/// Of each block the registers that are read again at its start.
fn marked_rows(
    alloc: Global,
    blocks: &[Steps],
    touches: &Touches,
    count: usize,
) -> Result<Many<Rising>, Memory>
    requires { AreTouches blocks.now count touches.now }
    ensures { IfOk result (λ rows. (r : ℕ) → r < count → IsLiveRow blocks.now r (has rows r)) }
{
    let readers = readers(alloc, blocks, count)?;
    let sources = sources(alloc, blocks)?;
    let mut rows = empty_rows(alloc, blocks.len())?;
    live_rows(
        alloc,
        touches,
        readers.as_slice(),
        sources.as_slice(),
        rows.as_mut_slice(),
    )?;
    Ok(Many::from_vec(rows))
}

/// The table of pieces, whose paths go over their ends alone.
fn table_of(
    alloc: Global,
    homes: Many<Home>,
    pieces: &[Steps],
    count: usize,
) -> Result<LiveTable, Memory>
    ensures homes { IfOk result (λ table. table.homes ≡ homes) }
    ensures touches { IfOk result (λ table. AreTouches pieces.now count table.touches) }
    ensures rows { IfOk result (λ table. (r : ℕ) → r < count → IsLiveRow pieces.now r (has table.rows r)) }
{
    let touches = touches_of(alloc, pieces, count)?;
    let rows = marked_rows(alloc, pieces, &touches, count)?;
    Ok(LiveTable {
        homes,
        touches,
        rows,
    })
}

/// The table of a function.
pub fn live(alloc: Global, f: &Func) -> Result<LiveTable, Memory>
    ensures exact { IfOk result (λ table. IsLiveTable f.now table) }
    ensures starts { IfOk result (λ table. AreStarts f.now table) }
{
    let layout = layout_of(alloc, f.blocks.as_slice())?;
    let pieces = kept_pieces(alloc, f, &layout)?;
    let table = table_of(alloc, layout.homes, pieces.as_slice(), f.regs.len())?;
    Ok(table)
}

/// The table of a function whose handlers are passed over, as they may be where the failure of each operation goes over its
/// edge.
pub fn live_bare(alloc: Global, f: &Func) -> Result<LiveTable, Memory>
    ensures exact { IfOk result (λ table. IsLiveTable (bare f.now) table) }
    ensures starts { IfOk result (λ table. AreStarts (bare f.now) table) }
{
    let blocks = kept_blocks(alloc, f.blocks.as_slice())?;
    let homes = whole(alloc, blocks.len())?;
    let table = table_of(alloc, homes, blocks.as_slice(), f.regs.len())?;
    Ok(table)
}

fn goes_to_marked(rows: &[Rising], last: Last, r: usize) -> bool
    ensures { result ≡ list_any (has rows.now r) (targets last) }
{
    match last {
        Last::Goto(t) => stands(rows, r, t),
        Last::If(_, a, b) | Last::IfError(_, a, b, _) => stands(rows, r, a) || stands(rows, r, b),
        Last::Return(_) | Last::Unreachable => false,
    }
}

/// Whether a register is read again from a place of a piece on.
fn live_in(touches: &Touches, rows: &[Rising], span: Span, place: usize, r: usize) -> bool
    ensures { result ≡ live_in touches.now rows.now (Some span) place r }
{
    if place >= span.behind.saturating_sub(span.first) {
        return false;
    }
    match touch_from(touches, span, span.first + place, r) {
        Touch::Read => true,
        Touch::Written => false,
        Touch::Neither => goes_to_marked(rows, span.last, r),
    }
}

fn live_by(touches: &Touches, rows: &[Rising], piece: usize, place: usize, r: usize) -> bool
    ensures { result ≡ live_by touches.now rows.now piece place r }
{
    match touches.spans.get(piece) {
        Some(span) => live_in(touches, rows, *span, place, r),
        None => false,
    }
}

/// The numbers of a row, which are none where there is no such row.
fn row_of(rows: &[Rising], t: usize) -> &[usize]
    ensures numbers { result.now ≡ get_or rows.now t [] }
    ensures rising { IsRising result.now }
{
    match rows.get(t) {
        Some(row) => row.as_slice(),
        None => &[],
    }
}

impl LiveTable {
    /// Whether some path from a place of a block reads a register before it writes it. A place is the number of an
    /// operation, before which it stands; the number of the operations is the place before the end.
    pub fn is_live(&self, block: usize, place: usize, r: Reg) -> bool
        ensures { result ≡ says_live self.now block place r.0 }
    {
        match self.homes.get(block) {
            Some(home) => {
                let rows = self.rows.as_slice();
                live_by(
                    &self.touches,
                    rows,
                    home.piece(place),
                    home.place(place),
                    r.0,
                )
            }
            None => false,
        }
    }

    /// The registers that are read again at the start of a block, in the order of their numbers.
    pub fn at_start(&self, block: usize) -> &[usize]
        ensures numbers { result.now ≡ starts_of self.now block }
        ensures rising { IsRising result.now }
    {
        match self.homes.get(block) {
            Some(home) => row_of(self.rows.as_slice(), home.first()),
            None => &[],
        }
    }

    /// Whether a register is among them.
    pub fn is_live_at_start(&self, block: usize, r: Reg) -> bool
        ensures { result ≡ is_among (starts_of self.now block) r.0 }
    {
        match self.homes.get(block) {
            Some(home) => stands(self.rows.as_slice(), r.0, home.first()),
            None => false,
        }
    }
}
