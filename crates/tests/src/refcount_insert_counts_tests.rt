//! The counts of bad operations: what is wanted was worked out by hand from who owns each reference.

use crate::case::check;
use c_core::{ListPrim, Prim, TuplePrim};
use ir_core::{Block, Func, Last, Lit, Op, PArg, RType, Reg};
use refcount_insert_counts::{Counts, group_counts, known_of, test_counts};
use std::alloc::Global;
use std::test::Fail;
use value_core::{Many, Memory, Name};

/// What has a register as an argument twice: a tuple of both, or a list that is put into itself.
#[derive(Clone, Copy, Debug)]
enum Twice {
    Pair,
    IntoItself,
}

/// Such an operation on register 0, which is lent, or 1, which was made; the register that is returned behind it; and the
/// references that are taken in front of it, and those that are given up behind it.
#[derive(Clone, Copy, Debug)]
struct TwiceRow {
    what: Twice,
    argument: usize,
    returned: usize,
    ups: &'static [usize],
    downs: &'static [(usize, bool)],
}

const TWICE: [TwiceRow; 8] = [
    TwiceRow {
        what: Twice::Pair,
        argument: 1,
        returned: 2,
        ups: &[1],
        downs: &[],
    },
    TwiceRow {
        what: Twice::Pair,
        argument: 1,
        returned: 1,
        ups: &[1, 1],
        downs: &[(2, false)],
    },
    TwiceRow {
        what: Twice::Pair,
        argument: 0,
        returned: 2,
        ups: &[0, 0],
        downs: &[],
    },
    TwiceRow {
        what: Twice::Pair,
        argument: 0,
        returned: 0,
        ups: &[0, 0],
        downs: &[(2, false)],
    },
    TwiceRow {
        what: Twice::IntoItself,
        argument: 1,
        returned: 0,
        ups: &[],
        downs: &[],
    },
    TwiceRow {
        what: Twice::IntoItself,
        argument: 1,
        returned: 1,
        ups: &[1],
        downs: &[],
    },
    TwiceRow {
        what: Twice::IntoItself,
        argument: 0,
        returned: 1,
        ups: &[0],
        downs: &[],
    },
    TwiceRow {
        what: Twice::IntoItself,
        argument: 0,
        returned: 0,
        ups: &[0],
        downs: &[],
    },
];

/// What fails: a call of a function, or of a method.
#[derive(Clone, Copy, Debug)]
enum Called {
    Function,
    Method,
}

/// A call that fails behind three values that were made, 1 to 3; the register that the block of the error returns; and what is
/// given up on the way there. On the other way, where a tuple is made of the three, only the result is.
#[derive(Clone, Copy, Debug)]
struct FailRow {
    called: Called,
    returned: usize,
    error: &'static [(usize, bool)],
}

/// The block of the error returns the error value, as where no handler is there, or one of the three, as a handler may.
const FAILS: [FailRow; 4] = [
    FailRow {
        called: Called::Function,
        returned: 5,
        error: &[(1, false), (2, false), (3, false)],
    },
    FailRow {
        called: Called::Function,
        returned: 1,
        error: &[(2, false), (3, false)],
    },
    FailRow {
        called: Called::Method,
        returned: 5,
        error: &[(1, false), (2, false), (3, false)],
    },
    FailRow {
        called: Called::Method,
        returned: 1,
        error: &[(2, false), (3, false)],
    },
];

/// A function of one parameter and some registers, which all hold references.
fn function(alloc: Global, count: usize, blocks: Many<Block>) -> Result<Func, Memory> {
    let mut regs = Many::new(alloc);
    for _register in 0..count {
        regs.push((Name::from_str(alloc, "r")?, RType::Ref))?;
    }
    Ok(Func {
        name: Name::from_str(alloc, "f")?,
        params: 1,
        regs,
        ret: RType::Ref,
        blocks,
    })
}

/// A list is made.
fn made(alloc: Global, r: usize) -> Op {
    Op::Prim(Some(Reg(r)), Prim::List(ListPrim::New), Many::new(alloc))
}

fn tuple_of(alloc: Global, target: usize, parts: &[usize]) -> Result<Op, Memory> {
    let mut arguments = Many::new(alloc);
    for part in parts {
        arguments.push(PArg::Var(Reg(*part)))?;
    }
    Ok(Op::Prim(Some(Reg(target)), Prim::Tuple(TuplePrim::Pack), arguments))
}

fn put_into(alloc: Global, list: usize, item: usize) -> Result<Op, Memory> {
    let mut arguments = Many::new(alloc);
    arguments.push(PArg::Var(Reg(list)))?;
    arguments.push(PArg::Var(Reg(item)))?;
    Ok(Op::Prim(None, Prim::List(ListPrim::Append), arguments))
}

fn twice_op(alloc: Global, row: &TwiceRow) -> Result<Op, Memory> {
    match row.what {
        Twice::Pair => tuple_of(alloc, 2, &[row.argument, row.argument]),
        Twice::IntoItself => put_into(alloc, row.argument, row.argument),
    }
}

/// A list is made, and then the operation stands.
fn twice_function(alloc: Global, row: &TwiceRow) -> Result<Func, Memory> {
    let mut ops = Many::new(alloc);
    ops.push((made(alloc, 1), 1))?;
    ops.push((twice_op(alloc, row)?, 2))?;
    let mut blocks = Many::new(alloc);
    blocks.push(block(ops, Last::Return(Reg(row.returned))))?;
    function(alloc, 3, blocks)
}

fn block(ops: Many<(Op, usize)>, last: Last) -> Block {
    Block {
        ops,
        last,
        handler: None,
    }
}

fn are(counts: &Counts, ups: &[usize], downs: &[(usize, bool)]) -> bool {
    counts.ups.as_slice() == ups && counts.downs.as_slice() == downs
}

#[test]
fn a_register_that_stands_twice_is_counted_for_each(rt: HostRuntime) -> Result<(), Fail> {
    let alloc = rt.alloc();
    for row in &TWICE {
        let f = twice_function(alloc, row)?;
        let op = twice_op(alloc, row)?;
        let known = known_of(alloc, &f)?;
        let counts = group_counts(alloc, f.regs.as_slice(), &known, 0, 1, &op)?;
        check(&rt, row, are(&counts, row.ups, row.downs));
    }
    Ok(())
}

fn call(alloc: Global, called: Called) -> Result<Op, Memory> {
    match called {
        Called::Function => {
            let arguments = Many::from_slice(alloc, &[Reg(1), Reg(2), Reg(3)])?;
            Ok(Op::Call(Reg(4), 0, arguments))
        }
        Called::Method => {
            let arguments = Many::from_slice(alloc, &[Reg(2), Reg(3)])?;
            Ok(Op::Virtual(Reg(4), Reg(1), 0, arguments))
        }
    }
}

const TEST: Last = Last::IfError(Reg(4), 1, 2, 4);

fn failing_block(alloc: Global, called: Called) -> Result<Block, Memory> {
    let mut ops = Many::new(alloc);
    for r in 1..4 {
        ops.push((made(alloc, r), r))?;
    }
    ops.push((call(alloc, called)?, 4))?;
    Ok(block(ops, TEST))
}

/// Three lists are made and the call stands behind them; then the block of the error; then the one that goes on.
fn failing_function(alloc: Global, row: &FailRow) -> Result<Func, Memory> {
    let mut error = Many::new(alloc);
    error.push((Op::Lit(Reg(5), Lit::Null), 4))?;
    let mut going_on = Many::new(alloc);
    going_on.push((tuple_of(alloc, 5, &[1, 2, 3])?, 5))?;
    let mut blocks = Many::new(alloc);
    blocks.push(failing_block(alloc, row.called)?)?;
    blocks.push(block(error, Last::Return(Reg(row.returned))))?;
    blocks.push(block(going_on, Last::Return(Reg(5))))?;
    function(alloc, 6, blocks)
}

#[test]
fn what_was_made_is_given_up_where_a_call_fails(rt: HostRuntime) -> Result<(), Fail> {
    let alloc = rt.alloc();
    for row in &FAILS {
        let f = failing_function(alloc, row)?;
        let known = known_of(alloc, &f)?;
        let (error, going_on) = test_counts(alloc, f.regs.as_slice(), &known, 0, 4, TEST)?;
        check(
            &rt,
            row,
            are(&error, &[], row.error) && are(&going_on, &[], &[(4, false)]),
        );
    }
    Ok(())
}
