//! Which register is only lent at each place of small functions, and which is read again. What is wanted was worked out by
//! hand: a register is owned where some path comes on which it was written last by what does not only lend, or not at all
//! where it is no parameter; it is live where some path goes on which it is read before it is written.

use crate::case::check;
use c_core::{ListPrim, Prim, TuplePrim};
use ir_core::{Block, Func, Last, Op, PArg, RType, Reg};
use liveness::{BorrowTable, LiveTable, borrowed, live};
use std::alloc::Global;
use std::test::Fail;
use value_core::{Many, Memory, Name};

/// An item of what is in register 0 is put into a register: only lent, or with a reference, or the last one is taken out,
/// which may fail.
#[derive(Clone, Copy, Debug)]
enum Taken {
    Lent(usize),
    Owned(usize),
    Popped(usize),
}

/// Where a block goes: on, to one of two blocks, or back to the caller.
#[derive(Clone, Copy, Debug)]
enum Way {
    To(usize),
    Either(usize, usize),
    Back,
}

/// A function of one parameter, register 0, over registers 1 and 2: its blocks, each with what it takes and where it
/// goes; and of all its blocks, places and registers those at which the register is owned.
#[derive(Clone, Copy, Debug)]
struct LentRow {
    blocks: &'static [(&'static [Taken], Way)],
    owned: &'static [(usize, usize, usize)],
}

const LENT: [LentRow; 7] = [
    // lent once, and read by the return
    LentRow {
        blocks: &[(&[Taken::Lent(1)], Way::Back)],
        owned: &[(0, 0, 1), (0, 0, 2), (0, 1, 2)],
    },
    // lent on one branch, and owned on the other
    LentRow {
        blocks: &[
            (&[], Way::Either(1, 2)),
            (&[Taken::Lent(1)], Way::To(3)),
            (&[Taken::Owned(1)], Way::To(3)),
            (&[], Way::Back),
        ],
        owned: &[
            (0, 0, 1),
            (0, 0, 2),
            (1, 0, 1),
            (1, 0, 2),
            (1, 1, 2),
            (2, 0, 1),
            (2, 0, 2),
            (2, 1, 1),
            (2, 1, 2),
            (3, 0, 1),
            (3, 0, 2),
        ],
    },
    // lent on both
    LentRow {
        blocks: &[
            (&[], Way::Either(1, 2)),
            (&[Taken::Lent(1)], Way::To(3)),
            (&[Taken::Lent(1)], Way::To(3)),
            (&[], Way::Back),
        ],
        owned: &[
            (0, 0, 1),
            (0, 0, 2),
            (1, 0, 1),
            (1, 0, 2),
            (1, 1, 2),
            (2, 0, 1),
            (2, 0, 2),
            (2, 1, 2),
            (3, 0, 2),
        ],
    },
    // lent in a loop: the entry comes to its head too
    LentRow {
        blocks: &[
            (&[], Way::To(1)),
            (&[], Way::Either(2, 3)),
            (&[Taken::Lent(1)], Way::To(1)),
            (&[], Way::Back),
        ],
        owned: &[
            (0, 0, 1),
            (0, 0, 2),
            (1, 0, 1),
            (1, 0, 2),
            (2, 0, 1),
            (2, 0, 2),
            (2, 1, 2),
            (3, 0, 1),
            (3, 0, 2),
        ],
    },
    // and in front of it: no way goes round both
    LentRow {
        blocks: &[
            (&[Taken::Lent(1)], Way::To(1)),
            (&[], Way::Either(2, 3)),
            (&[Taken::Owned(2), Taken::Lent(1)], Way::To(1)),
            (&[Taken::Lent(2)], Way::Back),
        ],
        owned: &[
            (0, 0, 1),
            (0, 0, 2),
            (0, 1, 2),
            (1, 0, 2),
            (2, 0, 2),
            (2, 1, 2),
            (2, 2, 2),
            (3, 0, 2),
        ],
    },
    // an owned write behind a lent one, and a lent one behind that
    LentRow {
        blocks: &[
            (&[Taken::Lent(1), Taken::Owned(1)], Way::To(1)),
            (&[Taken::Lent(1)], Way::Back),
        ],
        owned: &[
            (0, 0, 1),
            (0, 0, 2),
            (0, 1, 2),
            (0, 2, 1),
            (0, 2, 2),
            (1, 0, 1),
            (1, 0, 2),
            (1, 1, 2),
        ],
    },
    // a parameter that is lent to, and then owned; and a block that no path comes to
    LentRow {
        blocks: &[
            (&[Taken::Lent(0), Taken::Owned(0)], Way::To(2)),
            (&[Taken::Owned(0)], Way::To(2)),
            (&[Taken::Lent(0)], Way::Back),
        ],
        owned: &[
            (0, 0, 1),
            (0, 0, 2),
            (0, 1, 1),
            (0, 1, 2),
            (0, 2, 0),
            (0, 2, 1),
            (0, 2, 2),
            (2, 0, 0),
            (2, 0, 1),
            (2, 0, 2),
            (2, 1, 1),
            (2, 1, 2),
        ],
    },
];

fn op(alloc: Global, taken: Taken) -> Result<Op, Memory> {
    let (r, prim, has_place) = match taken {
        Taken::Lent(r) => (r, Prim::Tuple(TuplePrim::GetItemBorrow), true),
        Taken::Owned(r) => (r, Prim::Tuple(TuplePrim::GetItem), true),
        Taken::Popped(r) => (r, Prim::List(ListPrim::Pop), false),
    };
    let mut arguments = Many::new(alloc);
    arguments.push(PArg::Var(Reg(0)))?;
    if has_place {
        arguments.push(PArg::Number(0))?;
    }
    Ok(Op::Prim(Some(Reg(r)), prim, arguments))
}

fn last(way: Way) -> Last {
    match way {
        Way::To(t) => Last::Goto(t),
        Way::Either(a, b) => Last::If(Reg(0), a, b),
        Way::Back => Last::Return(Reg(1)),
    }
}

fn block(
    alloc: Global,
    taken: &[Taken],
    last: Last,
    handler: Option<usize>,
) -> Result<Block, Memory> {
    let mut ops = Many::new(alloc);
    for one in taken {
        ops.push((op(alloc, *one)?, 1))?;
    }
    Ok(Block { ops, last, handler })
}

fn function(alloc: Global, blocks: Many<Block>) -> Result<Func, Memory> {
    let mut regs = Many::new(alloc);
    for _register in 0..3 {
        regs.push((Name::from_str(alloc, "r")?, RType::Ref))?;
    }
    Ok(Func {
        name: Name::from_str(alloc, "f")?,
        params: 1,
        regs,
        ret: RType::Ref,
        blocks,
    })
}

fn is_among(wanted: &[(usize, usize, usize)], at: (usize, usize, usize)) -> bool {
    for one in wanted {
        if *one == at {
            return true;
        }
    }
    false
}

/// Whether a table says so at each place and of each register.
fn is_told(table: &BorrowTable, row: &LentRow) -> bool {
    for (b, (taken, _)) in row.blocks.iter().enumerate() {
        for place in 0..=taken.len() {
            for r in 0..3 {
                if table.is_borrowed(b, place, Reg(r)) == is_among(row.owned, (b, place, r)) {
                    return false;
                }
            }
        }
    }
    true
}

fn lent_function(alloc: Global, row: &LentRow) -> Result<Func, Memory> {
    let mut blocks = Many::new(alloc);
    for (taken, way) in row.blocks {
        blocks.push(block(alloc, taken, last(*way), None)?)?;
    }
    function(alloc, blocks)
}

#[test]
fn what_was_lent_last_on_each_way_is_only_lent(rt: HostRuntime) -> Result<(), Fail> {
    let alloc = rt.alloc();
    for row in &LENT {
        let table = borrowed(alloc, &lent_function(alloc, row)?)?;
        check(&rt, row, is_told(&table, row));
    }
    Ok(())
}

/// The end of a block in a function with handlers: it returns a register, goes on, or tests the first one's error value.
#[derive(Clone, Copy, Debug)]
enum End {
    Gives(usize),
    To(usize),
    Tests(usize, usize),
}

/// A function of one parameter, register 0, over registers 1 and 2, some of whose blocks have handlers; and of all its
/// blocks, places and registers those at which the register is owned, and those at which it is live.
#[derive(Clone, Copy, Debug)]
struct CaughtRow {
    blocks: &'static [(&'static [Taken], End, Option<usize>)],
    owned: &'static [(usize, usize, usize)],
    live: &'static [(usize, usize, usize)],
}

const CAUGHT: [CaughtRow; 3] = [
    // what is read by the handler alone is live until the operation that may fail
    CaughtRow {
        blocks: &[
            (&[Taken::Owned(2)], End::To(1), None),
            (&[Taken::Popped(1)], End::Gives(1), Some(2)),
            (&[], End::Gives(2), None),
        ],
        owned: &[
            (0, 0, 1),
            (0, 0, 2),
            (0, 1, 1),
            (0, 1, 2),
            (1, 0, 1),
            (1, 0, 2),
            (1, 1, 1),
            (1, 1, 2),
            (2, 0, 1),
            (2, 0, 2),
        ],
        live: &[
            (0, 0, 0),
            (0, 1, 0),
            (0, 1, 2),
            (1, 0, 0),
            (1, 0, 2),
            (1, 1, 1),
            (2, 0, 2),
        ],
    },
    // what was lent in front of it is still only lent there
    CaughtRow {
        blocks: &[
            (&[Taken::Lent(2), Taken::Popped(1)], End::Gives(1), Some(1)),
            (&[], End::Gives(2), None),
        ],
        owned: &[(0, 0, 1), (0, 0, 2), (0, 1, 1), (0, 2, 1), (1, 0, 1)],
        live: &[(0, 0, 0), (0, 1, 0), (0, 1, 2), (0, 2, 1), (1, 0, 2)],
    },
    // an operation with its test behind it does not go to the handler
    CaughtRow {
        blocks: &[
            (&[Taken::Popped(1)], End::Tests(1, 2), Some(3)),
            (&[], End::Gives(2), None),
            (&[], End::Gives(1), None),
            (&[], End::Gives(0), None),
        ],
        owned: &[
            (0, 0, 1),
            (0, 0, 2),
            (0, 1, 1),
            (0, 1, 2),
            (1, 0, 1),
            (1, 0, 2),
            (2, 0, 1),
            (2, 0, 2),
        ],
        live: &[
            (0, 0, 0),
            (0, 0, 2),
            (0, 1, 1),
            (0, 1, 2),
            (1, 0, 2),
            (2, 0, 1),
            (3, 0, 0),
        ],
    },
];

fn last_of(end: End) -> Last {
    match end {
        End::Gives(r) => Last::Return(Reg(r)),
        End::To(t) => Last::Goto(t),
        End::Tests(e, n) => Last::IfError(Reg(1), e, n, 1),
    }
}

fn caught_function(alloc: Global, row: &CaughtRow) -> Result<Func, Memory> {
    let mut blocks = Many::new(alloc);
    for (taken, end, handler) in row.blocks {
        blocks.push(block(alloc, taken, last_of(*end), *handler)?)?;
    }
    function(alloc, blocks)
}

/// Whether both tables say what is wanted at each place and of each register.
fn are_told(live: &LiveTable, borrowed: &BorrowTable, row: &CaughtRow) -> bool {
    for (b, (taken, _, _)) in row.blocks.iter().enumerate() {
        for place in 0..=taken.len() {
            for r in 0..3 {
                let at = (b, place, r);
                if borrowed.is_borrowed(b, place, Reg(r)) == is_among(row.owned, at)
                    || live.is_live(b, place, Reg(r)) != is_among(row.live, at)
                {
                    return false;
                }
            }
        }
    }
    true
}

#[test]
fn a_failure_goes_to_the_handler(rt: HostRuntime) -> Result<(), Fail> {
    let alloc = rt.alloc();
    for row in &CAUGHT {
        let function = caught_function(alloc, row)?;
        let live = live(alloc, &function)?;
        let borrowed = borrowed(alloc, &function)?;
        check(&rt, row, are_told(&live, &borrowed, row));
    }
    Ok(())
}
