//! Operations that one primitive does, each on operands of types of its own.
ghost use Rattle.std.specs.Prelude.{◌≡◌, IfOk, true, map};
ghost use Rattle.ir_builder_frames.specs.Building.{Extends};
ghost use Rattle.ir_builder_frames.specs.Computing.{Shows, HaveTypes, Attempts};
ghost use Rattle.ir_builder_frames.specs.Operands.{ActsOnAll};
ghost use Rattle.ir_builder_frames.specs.Settings.{rtype_of};
ghost use Rattle.ir_builder_frames.specs.Lines.{OwnLines};
ghost use Rattle.ir_builder_operations.specs.Rows.{is_known, operands_of, result_of, primitive_of, goes, unboxed_sort, box_primitive, unbox_primitive};
ghost use Rattle.ir_builder_operations.specs.Selecting.{int_primitive, native_primitive, test_primitive};

use c_core::{
    BoolPrim, DictPrim, Int64Prim, IoPrim, ListPrim, ObjectPrim, Prim, StrPrim, TaggedPrim,
    TuplePrim,
};
use ir_builder_frames::Emitter;
use ir_core::{PArg, RType, Reg};
use py_syntax::BinOp;
use std::alloc::Global;
use value_core::{Many, Memory};

/// Values of one type that are compared: `int`s, native integers or texts.
#[derive(Clone, Copy)]
pub enum Compared {
    Ints,
    Natives,
    Texts,
}

/// What one primitive finds in two values: that they are equal, that the first is less, or that it is not more.
#[derive(Clone, Copy)]
pub enum Test {
    Equal,
    Less,
    AtMost,
}

/// A type whose values are held in registers of their own kind, and in an object where one is asked for (what mypyc's developer
/// documentation calls unboxed and boxed).
#[derive(Clone, Copy)]
pub enum Unboxed {
    Int,
    Native,
    Bool,
}

/// An operation that one primitive does (Python Language Reference, "Expressions"; mypyc's "Native integer types").
#[derive(Clone, Copy)]
pub enum Operation {
    /// An operator on two `int`s. At run time a divisor of 0 raises ZeroDivisionError, a negative shift count ValueError, and a
    /// result past 128 bits OverflowError.
    IntArithmetic(BinOp),
    /// An operator on two native integers. Sums, differences, products and left shifts wrap. At run time a divisor of 0 raises
    /// ZeroDivisionError, a shift count outside 0 to 63 ValueError, and a quotient past 64 bits OverflowError.
    NativeArithmetic(BinOp),
    /// The other sign of an `int`. At run time that of the least one raises OverflowError.
    IntNegation,
    /// The other sign of a native integer. That of the least one is itself.
    NativeNegation,
    /// A test of two values of one type. Texts stand in the order of their code points.
    Comparison(Compared, Test),
    /// The other truth.
    Inversion,
    /// One text behind another.
    Concatenation,
    /// The number of a text's code points.
    Length,
    /// The text of the one code point at an index, which counts from the end where it is negative. At run time an index out of range
    /// raises IndexError.
    Letter,
    /// The texts of an `int`, of a native integer and of a bool, as `str` gives them.
    IntText,
    NativeText,
    BoolText,
    /// A bool as the number 0 or 1.
    BoolToInt,
    BoolToNative,
    /// A native integer as an `int`.
    NativeToInt,
    /// An `int` as a native integer. At run time OverflowError is raised where it has no place in 64 bits.
    IntToNative,
    /// A number or a bool as an object, and an object that holds one as that.
    Boxing(Unboxed),
    Unboxing(Unboxed),
    /// Whether a value is None.
    Absence,
    /// A new list without items.
    EmptyList,
    /// The number of a list's items, and of a tuple's parts.
    ListLength,
    TupleLength,
    /// The item of a list at an index, which counts from the end where it is negative. At run time an index out of range raises
    /// IndexError.
    Item,
    /// Another item of a list at an index; the result is true. At run time an index out of range raises IndexError.
    ItemChange,
    /// The last item of a list, which is taken out. At run time IndexError is raised where there is none.
    LastItem,
    /// A new dict without pairs.
    EmptyDict,
    /// The number of a dict's pairs.
    DictLength,
    /// The value under a key of a dict. At run time a key that is not there raises KeyError.
    DictItem,
    /// The pair of a key is taken out of a dict; the result is true. At run time a key that is not there raises KeyError.
    Deletion,
    /// Whether a dict has a key.
    Membership,
    /// A dict has as many pairs as a number says; the result is true. At run time any other number raises RuntimeError.
    SizeCheck,
    /// The key of a dict's pair at a place, from 0, in the order in which keys were put in. There has to be a pair at the place.
    KeyAt,
    /// The next line of input, without its line feed. At run time the end of the input raises EOFError, and a line that is not
    /// UTF-8 ValueError. The run ends at a line that ends too far along, and where the input cannot be read.
    Line,
}

// The primitive of an operator.
fn int_operator(op: BinOp) -> TaggedPrim
    ensures { result ≡ int_primitive op }
{
    match op {
        BinOp::Add => TaggedPrim::Add,
        BinOp::Sub => TaggedPrim::Subtract,
        BinOp::FloorDiv => TaggedPrim::FloorDivide,
        BinOp::Mod => TaggedPrim::Remainder,
        BinOp::Shl => TaggedPrim::Lshift,
        BinOp::Shr => TaggedPrim::Rshift,
        _ => TaggedPrim::Multiply,
    }
}

// The primitive of an operator on native integers.
fn native_operator(op: BinOp) -> Int64Prim
    ensures { result ≡ native_primitive op }
{
    match op {
        BinOp::Add => Int64Prim::Add,
        BinOp::Sub => Int64Prim::Subtract,
        BinOp::FloorDiv => Int64Prim::FloorDivide,
        BinOp::Mod => Int64Prim::Remainder,
        BinOp::Shl => Int64Prim::Lshift,
        BinOp::Shr => Int64Prim::Rshift,
        _ => Int64Prim::Multiply,
    }
}

// The primitive of a test.
fn primitive_to_test(compared: Compared, test: Test) -> Prim
    ensures { result ≡ test_primitive compared test }
{
    match (compared, test) {
        (Compared::Ints, Test::Equal) => Prim::Tagged(TaggedPrim::Eq),
        (Compared::Ints, Test::Less) => Prim::Tagged(TaggedPrim::Lt),
        (Compared::Ints, Test::AtMost) => Prim::Tagged(TaggedPrim::Le),
        (Compared::Natives, Test::Equal) => Prim::Int64(Int64Prim::Eq),
        (Compared::Natives, Test::Less) => Prim::Int64(Int64Prim::Lt),
        (Compared::Natives, Test::AtMost) => Prim::Int64(Int64Prim::Le),
        (Compared::Texts, Test::Equal) => Prim::Str(StrPrim::Eq),
        (Compared::Texts, Test::Less) => Prim::Str(StrPrim::Lt),
        (Compared::Texts, Test::AtMost) => Prim::Str(StrPrim::Le),
    }
}

// The primitive that makes an object of a value, and the one that takes it out again.
fn boxing_primitive(unboxed: Unboxed) -> Prim
    ensures { result ≡ box_primitive unboxed }
{
    match unboxed {
        Unboxed::Int => Prim::Tagged(TaggedPrim::Box),
        Unboxed::Native => Prim::Int64(Int64Prim::Box),
        Unboxed::Bool => Prim::Bool(BoolPrim::Box),
    }
}

fn unboxing_primitive(unboxed: Unboxed) -> Prim
    ensures { result ≡ unbox_primitive unboxed }
{
    match unboxed {
        Unboxed::Int => Prim::Tagged(TaggedPrim::Unbox),
        Unboxed::Native => Prim::Int64(Int64Prim::Unbox),
        Unboxed::Bool => Prim::Bool(BoolPrim::Unbox),
    }
}

// The primitive that does an operation.
fn primitive(op: Operation) -> Prim
    ensures { result ≡ primitive_of op }
{
    match op {
        Operation::IntArithmetic(op) => Prim::Tagged(int_operator(op)),
        Operation::NativeArithmetic(op) => Prim::Int64(native_operator(op)),
        Operation::IntNegation => Prim::Tagged(TaggedPrim::Negate),
        Operation::NativeNegation => Prim::Int64(Int64Prim::Negate),
        Operation::Comparison(compared, test) => primitive_to_test(compared, test),
        Operation::Inversion => Prim::Bool(BoolPrim::Not),
        Operation::Concatenation => Prim::Str(StrPrim::Concat),
        Operation::Length => Prim::Str(StrPrim::Len),
        Operation::Letter => Prim::Str(StrPrim::GetItem),
        Operation::IntText => Prim::Tagged(TaggedPrim::Str),
        Operation::NativeText => Prim::Int64(Int64Prim::Str),
        Operation::BoolText => Prim::Bool(BoolPrim::Str),
        Operation::BoolToInt => Prim::Tagged(TaggedPrim::FromBool),
        Operation::BoolToNative => Prim::Int64(Int64Prim::FromBool),
        Operation::NativeToInt => Prim::Tagged(TaggedPrim::FromInt64),
        Operation::IntToNative => Prim::Tagged(TaggedPrim::AsInt64),
        Operation::Boxing(unboxed) => boxing_primitive(unboxed),
        Operation::Unboxing(unboxed) => unboxing_primitive(unboxed),
        Operation::Absence => Prim::Object(ObjectPrim::IsNone),
        Operation::EmptyList => Prim::List(ListPrim::New),
        Operation::ListLength => Prim::List(ListPrim::Len),
        Operation::TupleLength => Prim::Tuple(TuplePrim::Len),
        Operation::Item => Prim::List(ListPrim::GetItem),
        Operation::ItemChange => Prim::List(ListPrim::SetItem),
        Operation::LastItem => Prim::List(ListPrim::Pop),
        Operation::EmptyDict => Prim::Dict(DictPrim::New),
        Operation::DictLength => Prim::Dict(DictPrim::Len),
        Operation::DictItem => Prim::Dict(DictPrim::GetItem),
        Operation::Deletion => Prim::Dict(DictPrim::DelItem),
        Operation::Membership => Prim::Dict(DictPrim::Contains),
        Operation::SizeCheck => Prim::Dict(DictPrim::CheckSize),
        Operation::KeyAt => Prim::Dict(DictPrim::KeyAt),
        Operation::Line => Prim::Io(IoPrim::Input),
    }
}

// The type of the registers for values of a type.
fn unboxed_register(unboxed: Unboxed) -> RType
    ensures { result ≡ rtype_of (unboxed_sort unboxed) }
{
    match unboxed {
        Unboxed::Int => RType::Int,
        Unboxed::Native => RType::I64,
        Unboxed::Bool => RType::Bool,
    }
}

// The type of the register for its result.
fn result_type(op: Operation) -> RType
    ensures { result ≡ rtype_of (result_of op) }
{
    match op {
        Operation::IntArithmetic(_)
        | Operation::IntNegation
        | Operation::Length
        | Operation::ListLength
        | Operation::TupleLength
        | Operation::DictLength
        | Operation::BoolToInt
        | Operation::NativeToInt => RType::Int,
        Operation::NativeArithmetic(_)
        | Operation::NativeNegation
        | Operation::BoolToNative
        | Operation::IntToNative => RType::I64,
        Operation::Comparison(_, _)
        | Operation::Inversion
        | Operation::Absence
        | Operation::ItemChange
        | Operation::Deletion
        | Operation::Membership
        | Operation::SizeCheck => RType::Bool,
        Operation::Unboxing(unboxed) => unboxed_register(unboxed),
        _ => RType::Ref,
    }
}

// Registers as arguments.
pub(crate) fn arguments(alloc: Global, operands: &[Reg]) -> Result<Many<PArg>, Memory>
    ensures { IfOk result (λ args. args ≡ map PArg.Var operands.now) }
{
    let mut args = Many::new(alloc);
    for r in operands {
        args.push(PArg::Var(*r))?;
    }
    Ok(args)
}

/// The result of an operation on registers, in a register of its own. What it raises is said at the operation.
pub fn emit_operation(
    b: &mut Emitter,
    alloc: Global,
    op: Operation,
    operands: &[Reg],
    line: usize,
) -> Result<Reg, Memory>
    requires known { is_known op ≡ true }
    requires operands { HaveTypes b.old.regs (operands_of op) operands.now }
    ensures kept { Extends b.old b.new }
    ensures made { IfOk result (λ r. Attempts (Shows (result_of op)) b.old b.new r.0 (rtype_of (result_of op)) (ActsOnAll (operands_of op) operands.now (goes op))) }
    ensures lined { OwnLines line b.old b.new }
{
    let args = arguments(alloc, operands)?;
    b.primitive(result_type(op), primitive(op), args, line)
}
