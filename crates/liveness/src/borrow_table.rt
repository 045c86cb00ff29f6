//! Which register is only lent. It is told of each block whether a path comes to it, and there is a row of the registers
//! that are owned when it is entered: for one register after the other the blocks are marked that one comes to from those
//! that write it last by what does not only lend, past those that do not write it. Inside a block the last write decides. There
//! is a row for each parameter and each register that some operation lends to; any other is owned wherever a path comes.
ghost use Rattle.std.specs.Prelude.{◌≡◌, ◌<◌, ◌+◌, ◌↔◌, ◌∷◌, [], ℕ, true, false, length, map, get_or, Some, IfOk, OnOk};
ghost use Rattle.std.specs.List.{list_any};
ghost use Rattle.liveness.specs.Paths.{is_among};
ghost use Rattle.liveness.specs.Rising.{next_from, last_below, has};
ghost use Rattle.liveness.specs.Places.{lets_by, lends_step, lends_some, targets_of};
ghost use Rattle.liveness.specs.Flood.{Comes, entered, onto};
ghost use Rattle.liveness.specs.Rows.{AreBelow, IsMetRow, IsOwnedRow};
ghost use Rattle.liveness.specs.Tables.{by_last, is_there, is_told, owned_in, owned_by, borrowed_by};
ghost use Rattle.liveness.specs.Spread.{gives, AreTried, Spread, AreSpread, IsKnown};
ghost use Rattle.ir_core.specs.Bare.{bare};
ghost use Rattle.liveness.specs.Liveness.{says_borrowed, known_count, AreMarked, IsBorrowTable};

use crate::apart::{Home, kept_pieces, layout_of, whole};
use crate::flood::{Stop, flood, next_in, numbers_of};
use crate::places::{Asked, Span, Touches, block_targets, touches_of, writers, writing_places};
use crate::rising::{Rising, empty_rows, stands};
use crate::step::{Steps, kept_blocks};
use ir_core::{Func, Reg};
use std::alloc::Global;
use value_core::{Many, Memory};

/// What is known of the pieces of a function: how many of its registers are parameters, where the pieces stand, under each
/// register the places that write it and those of them that only lend to it, and to which pieces paths come.
#[derive(Drop)]
pub struct Known {
    params: usize,
    touches: Touches,
    lends: Many<Rising>,
    met: Many<bool>,
}

/// Which registers are only lent at each place of a function.
#[derive(Drop)]
pub struct BorrowTable {
    homes: Many<Home>,
    known: Known,
    rows: Many<Rising>,
}

fn is_set(marks: &[bool], b: usize) -> bool
    ensures { result ≡ get_or marks.now b false }
{
    marks.get(b).copied().unwrap_or(false)
}

/// The last number of a row that is below a bound.
fn last_in(rows: &[Rising], t: usize, bound: usize) -> Option<usize>
    ensures { result ≡ last_below (get_or rows.now t []) bound }
{
    match rows.get(t) {
        Some(row) => row.last_below(bound),
        None => None,
    }
}

impl Known {
    /// Whether there is a row for a register.
    fn is_told(&self, r: usize) -> bool
        ensures { result ≡ is_told self.now r }
    {
        if r < self.params {
            return true;
        }
        match next_in(self.lends.as_slice(), r, 0) {
            Some(_) => true,
            None => false,
        }
    }

    /// Whether a register is owned at a place of a piece, by whether it is so at the piece's start.
    fn is_owned_in(&self, at_start: bool, span: Span, place: usize, r: usize) -> bool
        ensures { result ≡ owned_in (get_or self.now.touches.writes r []) (get_or self.now.lends r []) at_start (Some span) place }
    {
        let size = span.behind.saturating_sub(span.first);
        let bound = span.first + place.min(size);
        match last_in(self.touches.writes.as_slice(), r, bound) {
            Some(last) => {
                if last < span.first {
                    at_start
                } else {
                    !stands(self.lends.as_slice(), last, r)
                }
            }
            None => at_start,
        }
    }

    fn is_owned(&self, at_start: bool, b: usize, place: usize, r: usize) -> bool
        ensures { result ≡ owned_by self.now at_start b place r }
    {
        match self.touches.spans.get(b) {
            Some(span) => self.is_owned_in(at_start, *span, place, r),
            None => false,
        }
    }

    /// Whether a path comes to a piece and the last write of a register there does not only lend.
    fn gives(&self, r: usize, b: usize) -> bool
        ensures { result ≡ gives self.now r b }
    {
        if !is_set(self.met.as_slice(), b) {
            return false;
        }
        match self.touches.spans.get(b) {
            Some(span) => self.is_owned_in(false, *span, span.behind, r),
            None => false,
        }
    }
}

/// Whether the number 0 stands in each row.
fn marks(alloc: Global, rows: &[Rising]) -> Result<Many<bool>, Memory>
    ensures { IfOk result (λ marks. marks ≡ map (λ row. is_among row 0) rows.now) }
{
    let mut marks = Vec::new(alloc);
    for row in rows {
        marks.push(row.contains(0))?;
    }
    Ok(Many::from_vec(marks))
}

/// To which blocks a path comes from the entry.
fn met(alloc: Global, touches: &Touches, edges: &[Many<usize>]) -> Result<Many<bool>, Memory>
    ensures { IfOk result (λ met. (t : ℕ) → t < length edges.now → (get_or met t false ≡ true) ↔ Comes (onto Stop.Nowhere (lets_by touches.now 0) edges.now) (entered Stop.Nowhere (lets_by touches.now 0)) (0 ∷ []) t) }
{
    let mut rows = empty_rows(alloc, edges.len())?;
    let mut work = Vec::new(alloc);
    work.push(0)?;
    flood(touches, Stop::Nowhere, edges, rows.as_mut_slice(), 0, work)?;
    marks(alloc, rows.as_slice())
}

/// What is known of pieces, for the registers below a count.
fn known_of(
    alloc: Global,
    pieces: &[Steps],
    edges: &[Many<usize>],
    params: usize,
    count: usize,
) -> Result<Known, Memory>
    requires { edges.now ≡ map targets_of pieces.now }
    ensures { IfOk result (λ known. IsKnown pieces.now params count known) }
{
    let touches = touches_of(alloc, pieces, count)?;
    let lends = writing_places(alloc, pieces, count, Asked::LendingWrites)?;
    let met = met(alloc, &touches, edges)?;
    Ok(Known {
        params,
        touches,
        lends,
        met,
    })
}

/// The blocks to begin with: the entry for a register that is no parameter, and those that the blocks go to which give it.
fn tried(
    alloc: Global,
    known: &Known,
    writers: &[usize],
    edges: &[Many<usize>],
    r: usize,
) -> Result<Vec<usize>, Memory>
    ensures { IfOk result (λ work. AreTried known.now edges.now r writers.now work.items) }
{
    let mut work = Vec::new(alloc);
    if r >= known.params {
        work.push(0)?;
    }
    for b in writers {
        if known.gives(r, *b) {
            work.extend_from_slice(numbers_of(edges, *b))?;
        }
    }
    Ok(work)
}

/// Marks the blocks at whose start a register is owned, where it has a row.
fn owned_row(
    alloc: Global,
    known: &Known,
    writers: &[usize],
    edges: &[Many<usize>],
    rows: &mut [Rising],
    r: usize,
) -> Result<(), Memory>
    requires size { length edges.now ≡ length rows.old }
    requires below { AreBelow r rows.old }
    ensures below { OnOk result (AreBelow (r + 1) rows.new) }
    ensures others { OnOk result ((n t : ℕ) → n < r → has rows.new n t ≡ has rows.old n t) }
    ensures spreads { OnOk result ((t : ℕ) → is_told known.now r ≡ true → t < length rows.old → (has rows.new r t ≡ true) ↔ Spread known.now writers.now edges.now r t) }
{
    if !known.is_told(r) {
        return Ok(());
    }
    let work = tried(alloc, known, writers, edges, r)?;
    flood(&known.touches, Stop::Behind, edges, rows, r, work)?;
    Ok(())
}

fn owned_rows(
    alloc: Global,
    known: &Known,
    writers: &[Many<usize>],
    edges: &[Many<usize>],
    rows: &mut [Rising],
) -> Result<(), Memory>
    requires size { length edges.now ≡ length rows.old }
    requires empty { (t : ℕ) → get_or rows.old t [] ≡ [] }
    ensures { OnOk result (AreSpread known.now writers.now edges.now (length writers.now) rows.new) }
{
    for (r, writers) in writers.iter().enumerate() {
        owned_row(alloc, known, writers.as_slice(), edges, rows, r)?;
    }
    Ok(())
}

/// Of each block the registers that have a row and are owned at its start.
fn marked_rows(
    alloc: Global,
    pieces: &[Steps],
    known: &Known,
    edges: &[Many<usize>],
    count: usize,
) -> Result<Many<Rising>, Memory>
    requires known { IsKnown pieces.now known.now.params count known.now }
    requires edges { edges.now ≡ map targets_of pieces.now }
    ensures { IfOk result (λ rows. (r : ℕ) → r < count → is_told known.now r ≡ true → IsOwnedRow pieces.now known.now.params r (has rows r)) }
{
    let writers = writers(alloc, pieces, count)?;
    let mut rows = empty_rows(alloc, edges.len())?;
    owned_rows(alloc, known, writers.as_slice(), edges, rows.as_mut_slice())?;
    Ok(Many::from_vec(rows))
}

fn lends_in_block(block: &Steps) -> bool
    ensures { result ≡ lends_some block.now }
{
    block.steps.as_slice().iter().any(|step| step.lends)
}

fn lends_in_pieces(pieces: &[Steps]) -> bool
    ensures { result ≡ list_any lends_some pieces.now }
{
    pieces.iter().any(|piece| lends_in_block(piece))
}

/// How many registers a table of pieces knows the writes of: all of them where some operation lends, else the parameters.
fn known_count(pieces: &[Steps], params: usize, regs: usize) -> usize
    ensures { result ≡ known_count pieces.now params regs }
{
    if lends_in_pieces(pieces) {
        regs
    } else {
        params.min(regs)
    }
}

/// The table of pieces, whose paths go over their ends alone, with so many parameters among so many registers.
fn table_of(
    alloc: Global,
    homes: Many<Home>,
    pieces: &[Steps],
    params: usize,
    regs: usize,
) -> Result<BorrowTable, Memory>
    ensures homes { IfOk result (λ table. table.homes ≡ homes) }
    ensures marked { IfOk result (λ table. AreMarked pieces.now params (known_count pieces.now params regs) table) }
{
    let count = known_count(pieces, params, regs);
    let edges = block_targets(alloc, pieces)?;
    let known = known_of(alloc, pieces, edges.as_slice(), params, count)?;
    let rows = marked_rows(alloc, pieces, &known, edges.as_slice(), count)?;
    Ok(BorrowTable { homes, known, rows })
}

/// The table of a function.
pub fn borrowed(alloc: Global, f: &Func) -> Result<BorrowTable, Memory>
    ensures { IfOk result (λ table. IsBorrowTable f.now table) }
{
    let layout = layout_of(alloc, f.blocks.as_slice())?;
    let pieces = kept_pieces(alloc, f, &layout)?;
    let regs = f.regs.len();
    let table = table_of(alloc, layout.homes, pieces.as_slice(), f.params, regs)?;
    Ok(table)
}

/// The table of a function whose handlers are passed over, as they may be where the failure of each operation goes over its
/// edge.
pub fn borrowed_bare(alloc: Global, f: &Func) -> Result<BorrowTable, Memory>
    ensures { IfOk result (λ table. IsBorrowTable (bare f.now) table) }
{
    let blocks = kept_blocks(alloc, f.blocks.as_slice())?;
    let homes = whole(alloc, blocks.len())?;
    let table = table_of(alloc, homes, blocks.as_slice(), f.params, f.regs.len())?;
    Ok(table)
}

impl BorrowTable {
    /// Whether a register is only lent at a place of a piece.
    fn is_lent(&self, piece: usize, place: usize, r: usize) -> bool
        ensures { result ≡ borrowed_by self.now piece place r }
    {
        if !is_set(self.known.met.as_slice(), piece) {
            return true;
        }
        if !self.known.is_told(r) {
            return false;
        }
        let at_start = stands(self.rows.as_slice(), r, piece);
        !self.known.is_owned(at_start, piece, place, r)
    }

    /// Whether, by whichever path a run came to a place of a block, a register was written last by a primitive whose
    /// result is only lent, or is a parameter that was never written. A place is the number of an operation, before which it
    /// stands; the number of the operations is the place before the end.
    pub fn is_borrowed(&self, block: usize, place: usize, r: Reg) -> bool
        ensures { result ≡ says_borrowed self.now block place r.0 }
    {
        match self.homes.get(block) {
            Some(home) => self.is_lent(home.piece(place), home.place(place), r.0),
            None => true,
        }
    }
}
