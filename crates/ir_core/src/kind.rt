//! How an operation tells that it failed, and what wants to stand behind it.
ghost use Rattle.std.specs.Prelude.{◌≡◌, Option, Some};
ghost use Rattle.ir_core.specs.Items.{End, in_block, item_in};
ghost use Rattle.ir_core.specs.Rows.{error_kind, kind_by_result, edge_of_kind, type_of_reg, edge_of_op};
ghost use Rattle.ir_core.specs.Meaning as spec;

use crate::code::{Block, ErrorKind, Last, Op, RType, Reg};
use c_core::{
    AttrPrim, DictPrim, ErrPrim, GlobalPrim, Int64Prim, IoPrim, ListPrim, Prim, StrPrim, TaggedPrim,
};
use value_core::Name;

/// What is to stand directly behind an operation, so that its failure is seen: nothing, a test of its result, that test
/// and then one of the pending exception, or a jump.
#[derive(Clone, Copy, Debug, PartialEq, Eq)]
pub enum Edge {
    NoEdge,
    Tests(Reg),
    TestsTwice(Reg),
    Jumps,
}

/// The error kind of a primitive whose target, if it has one, has this type. The row of the primitive decides; only where it
/// leaves the kind of its result to a slot or a global the target does.
pub fn kind_of(p: Prim, target: Option<RType>) -> ErrorKind
    ensures { result ≡ error_kind p target }
{
    match p {
        Prim::Int64(
            Int64Prim::FloorDivide | Int64Prim::Remainder | Int64Prim::Lshift | Int64Prim::Rshift,
        ) => ErrorKind::MagicOverlapping,
        Prim::Tagged(p) => kind_of_tagged(p),
        Prim::Str(StrPrim::GetItem)
        | Prim::List(
            ListPrim::GetItem | ListPrim::GetItemBorrow | ListPrim::SetItem | ListPrim::Pop,
        )
        | Prim::Dict(DictPrim::GetItem | DictPrim::DelItem | DictPrim::CheckSize)
        | Prim::Io(IoPrim::Input) => ErrorKind::Magic,
        Prim::Attr(AttrPrim::Get | AttrPrim::GetBorrow) | Prim::Global(GlobalPrim::Get) => {
            by_result(target)
        }
        Prim::Err(ErrPrim::SetObject | ErrPrim::Unbound) => ErrorKind::Always,
        _ => ErrorKind::Never,
    }
}

// The error kind of a primitive of `int`s, whatever its target.
fn kind_of_tagged(p: TaggedPrim) -> ErrorKind
    ensures { (target : Option RType) → result ≡ error_kind (Prim.Tagged p) target }
{
    match p {
        TaggedPrim::AsInt64 => ErrorKind::MagicOverlapping,
        TaggedPrim::Add
        | TaggedPrim::Subtract
        | TaggedPrim::Multiply
        | TaggedPrim::Negate
        | TaggedPrim::FloorDivide
        | TaggedPrim::Remainder
        | TaggedPrim::Lshift
        | TaggedPrim::Rshift => ErrorKind::Magic,
        _ => ErrorKind::Never,
    }
}

// The error kind of an operation that may fail.
fn by_result(target: Option<RType>) -> ErrorKind
    ensures { result ≡ kind_by_result target }
{
    match target {
        Some(RType::I64) => ErrorKind::MagicOverlapping,
        _ => ErrorKind::Magic,
    }
}

fn type_of(regs: &[(Name, RType)], r: Reg) -> Option<RType>
    ensures { result ≡ type_of_reg regs.now r }
{
    match regs.get(r.0) {
        Some((_, t)) => Some(*t),
        None => None,
    }
}

fn edge_for(kind: ErrorKind, target: Option<Reg>) -> Edge
    ensures { result ≡ edge_of_kind kind target }
{
    match (kind, target) {
        (ErrorKind::Magic, Some(r)) => Edge::Tests(r),
        (ErrorKind::MagicOverlapping, Some(r)) => Edge::TestsTwice(r),
        (ErrorKind::Always, _) => Edge::Jumps,
        _ => Edge::NoEdge,
    }
}

/// What an operation of a function with these registers wants behind it.
pub fn edge_of(regs: &[(Name, RType)], op: &Op) -> Edge
    ensures { result ≡ edge_of_op regs.now op.now }
{
    match op {
        Op::Prim(None, p, _) => edge_for(kind_of(*p, None), None),
        Op::Prim(Some(r), p, _) => edge_for(kind_of(*p, type_of(regs, *r)), Some(*r)),
        Op::Call(r, _, _) | Op::Virtual(r, _, _, _) | Op::TraitCall(r, _, _, _, _) => {
            edge_for(by_result(type_of(regs, *r)), Some(*r))
        }
        _ => Edge::NoEdge,
    }
}

/// The register that the answer goes into where an operation asks whether an exception is pending.
fn question(op: &Op) -> Option<Reg>
    ensures { result ≡ spec.question_of op.now }
{
    match op {
        Op::Prim(Some(flag), Prim::Err(ErrPrim::Occurred), args) if args.is_empty() => Some(*flag),
        _ => None,
    }
}

/// Whether the end of a block tests that answer, and goes on at block `next` where there is no exception.
fn is_answered(last: Last, next: usize, flag: Reg) -> bool
    ensures { result ≡ spec.is_answered (Some (End last)) next flag }
{
    match last {
        Last::If(r, _, b) => flag.0 == r.0 && b == next,
        _ => false,
    }
}

/// Whether a block is the test of the pending exception, and nothing else.
fn is_second_test(block: &Block, next: usize) -> bool
    ensures { result ≡ spec.is_second_test (in_block block.now.ops block.now.last 0) (in_block block.now.ops block.now.last 1) next }
{
    let ops = block.ops.as_slice();
    if ops.len() != 1 {
        return false;
    }
    match question(&ops[0].0) {
        Some(flag) => is_answered(block.last, next, flag),
        None => false,
    }
}

/// Whether the end of one of a function's blocks is this edge.
pub fn is_edge(blocks: &[Block], edge: Edge, end: Last) -> bool
    ensures { result ≡ spec.is_edge (item_in blocks.now) edge (Some (End end)) }
{
    match (edge, end) {
        (Edge::Tests(r), Last::IfError(s, _, _, _)) => r.0 == s.0,
        (Edge::TestsTwice(r), Last::IfError(s, second, next, _)) => {
            r.0 == s.0
                && match blocks.get(second) {
                    Some(block) => is_second_test(block, next),
                    None => false,
                }
        }
        (Edge::Jumps, Last::Goto(_)) => true,
        _ => false,
    }
}
