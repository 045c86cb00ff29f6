use c_core::{CClass, Prim};
use value_core::{Many, Name, Text};

/// A register of a function, by its number.
#[derive(Clone, Copy, Debug, PartialEq, Eq)]
pub struct Reg(pub usize);

/// What a register holds: an `int`, a native integer of 64 bits, a `bool`, or a reference to an object.
#[derive(Clone, Copy, Debug, PartialEq, Eq)]
pub enum RType {
    Int,
    I64,
    Bool,
    Ref,
}

/// How an operation tells that it failed (mypyc's developer guide, "Error handling").
#[derive(Clone, Copy, Debug, PartialEq, Eq)]
pub enum ErrorKind {
    /// It never fails.
    Never,
    /// Its result is the error value of its type.
    Magic,
    /// It always fails.
    Always,
    /// Its result is the error value of its type, which is an ordinary value too.
    MagicOverlapping,
}

/// A literal. The number of an `int` is twice its value, or 1 for the error value.
#[derive(Clone, Copy, PartialEq, Eq)]
pub enum Lit {
    Number(i64),
    Null,
    PyNone,
    PyTrue,
    PyFalse,
}

/// An argument of a primitive: a register, or a number, a text, a global or a class as they are written.
#[derive(Drop)]
pub enum PArg {
    Var(Reg),
    Number(i64),
    Text(Text),
    Global(Name),
    Class(Name),
}

/// An operation. Where it has a target, that register is the first.
#[derive(Drop)]
pub enum Op {
    /// The second register's value.
    Move(Reg, Reg),
    Lit(Reg, Lit),
    Prim(Option<Reg>, Prim, Many<PArg>),
    /// A call of the function of a number.
    Call(Reg, usize, Many<Reg>),
    /// A call of the method at a place of the methods of an object's class; the object is its first argument.
    Virtual(Reg, Reg, usize, Many<Reg>),
    /// The same of the methods that the class has for the trait of a number.
    TraitCall(Reg, Reg, usize, usize, Many<Reg>),
    /// One turn is spent.
    Turn,
    /// One reference more.
    Inc(Reg),
    /// One reference less.
    Dec(Reg),
    /// One reference less, or nothing where the register holds its error value.
    XDec(Reg),
}

/// How a block ends. Blocks go by their numbers.
#[derive(Clone, Copy, PartialEq, Eq)]
pub enum Last {
    Goto(usize),
    /// The first block where the register is true, else the second.
    If(Reg, usize, usize),
    /// The first block where the register holds the error value of its type, else the second; then the source line.
    IfError(Reg, usize, usize, usize),
    Return(Reg),
    Unreachable,
}

/// Operations in a row, each with its source line, and what comes after them; and the block that an exception in it goes to,
/// if not out of the function.
#[derive(Drop)]
pub struct Block {
    pub ops: Many<(Op, usize)>,
    pub last: Last,
    pub handler: Option<usize>,
}

/// A function. Its first registers are its parameters.
#[derive(Drop)]
pub struct Func {
    pub name: Name,
    pub params: usize,
    pub regs: Many<(Name, RType)>,
    pub ret: RType,
    pub blocks: Many<Block>,
}

/// A whole program. The last function is the module's own statements.
#[derive(Drop)]
pub struct Program {
    pub globals: Many<(Name, RType)>,
    pub classes: Many<CClass>,
    pub funcs: Many<Func>,
}
