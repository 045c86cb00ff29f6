//! The places of a function, counted through, and which of them touch a register.
ghost use Rattle.std.specs.Prelude.{◌≡◌, ◌++◌, ◌∷◌, ℕ, [], Some, length, map, get_or, IfOk, OnOk};
ghost use Rattle.std.specs.Option.{option_to_list};
ghost use Rattle.liveness.specs.Paths.{reads_of_last, targets};
ghost use Rattle.liveness.specs.Rising.{next_from, IsInverse};
ghost use Rattle.liveness.specs.Places.{places_of, places, spans_from, reads_in, asked_in, reads_of_block, writes_of_block, targets_of, is_below, first_of, touch_from, is_read, reads_first, AreTouches};

use crate::flood::{is_before, next_in};
use crate::rising::{Rising, as_rows, inverse};
use crate::step::{Step, Steps, one};
use ir_core::Last;
use std::alloc::Global;
use value_core::{Many, Memory};

/// Where a block stands among the places of its function: the number of its first place, the number behind its last one,
/// and its end.
#[derive(Clone, Copy)]
pub struct Span {
    pub first: usize,
    pub behind: usize,
    pub last: Last,
}

/// Where the blocks of a function stand, and under each register the places that read it and those that write it.
#[derive(Drop)]
pub struct Touches {
    pub spans: Many<Span>,
    pub reads: Many<Rising>,
    pub writes: Many<Rising>,
}

/// Which writes are asked for: all of them, or those that only lend.
#[derive(Clone, Copy)]
pub(crate) enum Asked {
    AllWrites,
    LendingWrites,
}

/// How what is left of a block touches a register first.
#[derive(Clone, Copy)]
pub enum Touch {
    Read,
    Written,
    Neither,
}

/// The blocks with what each of their places reads.
#[derive(Drop)]
struct Laid {
    spans: Many<Span>,
    reads: Many<Many<usize>>,
}

fn last_reads(alloc: Global, last: Last) -> Result<Many<usize>, Memory>
    ensures { IfOk result (λ reads. reads ≡ reads_of_last last) }
{
    match last {
        Last::If(r, _, _) | Last::IfError(r, _, _, _) | Last::Return(r) => one(alloc, r),
        Last::Goto(_) | Last::Unreachable => Ok(Many::new(alloc)),
    }
}

fn push_reads(alloc: Global, rows: &mut Vec<Many<usize>>, block: &Steps) -> Result<(), Memory>
    ensures { OnOk result (rows.new.items ≡ rows.old.items ++ map reads_in (places_of block.now)) }
{
    for step in block.steps.as_slice() {
        rows.push(Many::from_slice(alloc, step.reads.as_slice())?)?;
    }
    rows.push(last_reads(alloc, block.last)?)?;
    Ok(())
}

fn laid_out(alloc: Global, blocks: &[Steps]) -> Result<Laid, Memory>
    ensures spans { IfOk result (λ laid. laid.spans ≡ spans_from 0 blocks.now) }
    ensures reads { IfOk result (λ laid. laid.reads ≡ map reads_in (places blocks.now)) }
{
    let mut spans = Vec::new(alloc);
    let mut reads = Vec::new(alloc);
    for block in blocks {
        let first = reads.len();
        push_reads(alloc, &mut reads, block)?;
        spans.push(Span {
            first,
            behind: reads.len(),
            last: block.last,
        })?;
    }
    Ok(Laid {
        spans: Many::from_vec(spans),
        reads: Many::from_vec(reads),
    })
}

/// The register that a step writes, where it is one of the writes that are asked for.
fn asked_write(step: &Step, asked: Asked) -> Option<usize>
    ensures { option_to_list result ≡ asked_in asked step.now }
{
    match asked {
        Asked::AllWrites => step.write,
        Asked::LendingWrites => { if step.lends { step.write } else { None } }
    }
}

fn written(alloc: Global, write: Option<usize>) -> Result<Many<usize>, Memory>
    ensures { IfOk result (λ row. row ≡ option_to_list write) }
{
    let mut row = Many::new(alloc);
    match write {
        Some(r) => row.push(r)?,
        None => {}
    }
    Ok(row)
}

fn push_writes(
    alloc: Global,
    rows: &mut Vec<Many<usize>>,
    steps: &[Step],
    asked: Asked,
) -> Result<(), Memory>
    ensures { OnOk result (rows.new.items ≡ rows.old.items ++ (map (asked_in asked) steps.now ++ [] ∷ [])) }
{
    for step in steps {
        rows.push(written(alloc, asked_write(step, asked))?)?;
    }
    rows.push(Many::new(alloc))?;
    Ok(())
}

/// What each place writes, by the writes that are asked for.
fn place_writes(alloc: Global, blocks: &[Steps], asked: Asked) -> Result<Many<Many<usize>>, Memory>
    ensures { IfOk result (λ rows. rows ≡ map (asked_in asked) (places blocks.now)) }
{
    let mut rows = Vec::new(alloc);
    for block in blocks {
        push_writes(alloc, &mut rows, block.steps.as_slice(), asked)?;
    }
    Ok(Many::from_vec(rows))
}

/// Under each register below a count the places that write it, by the writes that are asked for.
pub(crate) fn writing_places(
    alloc: Global,
    blocks: &[Steps],
    count: usize,
    asked: Asked,
) -> Result<Many<Rising>, Memory>
    ensures size { IfOk result (λ writes. length writes ≡ count) }
    ensures turns { IfOk result (λ writes. IsInverse (map (asked_in asked) (places blocks.now)) writes) }
{
    let rows = place_writes(alloc, blocks, asked)?;
    inverse(alloc, rows.as_slice(), count)
}

/// The places of blocks, and those that touch each register below a count.
pub(crate) fn touches_of(alloc: Global, blocks: &[Steps], count: usize) -> Result<Touches, Memory>
    ensures { IfOk result (λ touches. AreTouches blocks.now count touches) }
{
    let laid = laid_out(alloc, blocks)?;
    let reads = inverse(alloc, laid.reads.as_slice(), count)?;
    let writes = writing_places(alloc, blocks, count, Asked::AllWrites)?;
    Ok(Touches {
        spans: laid.spans,
        reads,
        writes,
    })
}

fn block_row(alloc: Global, block: &Steps) -> Result<Many<usize>, Memory>
    ensures { IfOk result (λ row. row ≡ reads_of_block block.now) }
{
    let mut row = Vec::new(alloc);
    for step in block.steps.as_slice() {
        row.extend_from_slice(step.reads.as_slice())?;
    }
    row.extend_from_slice(last_reads(alloc, block.last)?.as_slice())?;
    Ok(Many::from_vec(row))
}

/// What each block reads.
fn block_reads(alloc: Global, blocks: &[Steps]) -> Result<Many<Many<usize>>, Memory>
    ensures { IfOk result (λ rows. rows ≡ map reads_of_block blocks.now) }
{
    let mut rows = Vec::new(alloc);
    for block in blocks {
        rows.push(block_row(alloc, block)?)?;
    }
    Ok(Many::from_vec(rows))
}

fn written_row(alloc: Global, block: &Steps) -> Result<Many<usize>, Memory>
    ensures { IfOk result (λ row. row ≡ writes_of_block block.now) }
{
    let mut row = Many::new(alloc);
    for step in block.steps.as_slice() {
        match step.write {
            Some(r) => row.push(r)?,
            None => {}
        }
    }
    Ok(row)
}

/// What each block writes.
fn block_writes(alloc: Global, blocks: &[Steps]) -> Result<Many<Many<usize>>, Memory>
    ensures { IfOk result (λ rows. rows ≡ map writes_of_block blocks.now) }
{
    let mut rows = Vec::new(alloc);
    for block in blocks {
        rows.push(written_row(alloc, block)?)?;
    }
    Ok(Many::from_vec(rows))
}

fn target_row(alloc: Global, last: Last) -> Result<Many<usize>, Memory>
    ensures { IfOk result (λ row. row ≡ targets last) }
{
    match last {
        Last::Goto(t) => Many::from_slice(alloc, &[t]),
        Last::If(_, a, b) | Last::IfError(_, a, b, _) => Many::from_slice(alloc, &[a, b]),
        Last::Return(_) | Last::Unreachable => Ok(Many::new(alloc)),
    }
}

/// Where the end of each block goes.
pub(crate) fn block_targets(alloc: Global, blocks: &[Steps]) -> Result<Many<Many<usize>>, Memory>
    ensures { IfOk result (λ rows. rows ≡ map targets_of blocks.now) }
{
    let mut rows = Vec::new(alloc);
    for block in blocks {
        rows.push(target_row(alloc, block.last)?)?;
    }
    Ok(Many::from_vec(rows))
}

/// Under each register below a count the blocks that read it.
pub(crate) fn readers(
    alloc: Global,
    blocks: &[Steps],
    count: usize,
) -> Result<Many<Many<usize>>, Memory>
    ensures size { IfOk result (λ readers. length readers ≡ count) }
    ensures turns { IfOk result (λ readers. IsInverse (map reads_of_block blocks.now) readers) }
{
    let rows = block_reads(alloc, blocks)?;
    let readers = inverse(alloc, rows.as_slice(), count)?;
    as_rows(alloc, readers.as_slice())
}

/// Under each register below a count the blocks that write it.
pub(crate) fn writers(
    alloc: Global,
    blocks: &[Steps],
    count: usize,
) -> Result<Many<Many<usize>>, Memory>
    ensures size { IfOk result (λ writers. length writers ≡ count) }
    ensures turns { IfOk result (λ writers. IsInverse (map writes_of_block blocks.now) writers) }
{
    let rows = block_writes(alloc, blocks)?;
    let writers = inverse(alloc, rows.as_slice(), count)?;
    as_rows(alloc, writers.as_slice())
}

/// Under each block those whose ends go to it.
pub(crate) fn sources(alloc: Global, blocks: &[Steps]) -> Result<Many<Many<usize>>, Memory>
    ensures size { IfOk result (λ sources. length sources ≡ length blocks.now) }
    ensures turns { IfOk result (λ sources. IsInverse (map targets_of blocks.now) sources) }
{
    let rows = block_targets(alloc, blocks)?;
    let sources = inverse(alloc, rows.as_slice(), blocks.len())?;
    as_rows(alloc, sources.as_slice())
}

fn first_of(read: Option<usize>, write: Option<usize>, behind: usize) -> Touch
    ensures { result ≡ first_of read write behind }
{
    match read {
        Some(place) if !is_before(write, place) => {
            if place < behind {
                Touch::Read
            } else {
                Touch::Neither
            }
        }
        Some(_) | None => {
            if is_before(write, behind) {
                Touch::Written
            } else {
                Touch::Neither
            }
        }
    }
}

/// How what is left of a block from a place on touches a register first.
pub(crate) fn touch_from(touches: &Touches, span: Span, from: usize, r: usize) -> Touch
    ensures { result ≡ touch_from touches.now span from r }
{
    let read = next_in(touches.reads.as_slice(), r, from);
    let write = next_in(touches.writes.as_slice(), r, from);
    first_of(read, write, span.behind)
}

/// Whether a block reads a register before it writes it.
pub(crate) fn reads_first(touches: &Touches, r: usize, b: usize) -> bool
    ensures { result ≡ reads_first touches.now r b }
{
    match touches.spans.get(b) {
        Some(span) => match touch_from(touches, *span, span.first, r) {
            Touch::Read => true,
            Touch::Written | Touch::Neither => false,
        },
        None => false,
    }
}
