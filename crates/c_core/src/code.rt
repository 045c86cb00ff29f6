use value_core::{Many, Name, Text};

/// The kind of a variable or a global (mypyc's developer guide, "Value representation"): a tagged `int`, a native
/// integer of 64 bits, a `char` that stands for a `bool`, or a reference to an object.
#[derive(Clone, Copy, Debug, PartialEq, Eq)]
pub enum Kind {
    Tagged,
    Int64,
    Char,
    Object,
}

/// An argument of a call: a variable by its number, or a number, a text, a global or a class as they are written.
#[derive(Debug, Drop)]
pub enum CArg {
    Var(usize),
    Number(i64),
    Text(Text),
    Global(Name),
    Class(Name),
}

/// A literal. The number of a tagged `int` is twice its value, or 1 for the error value.
#[derive(Clone, Copy, Debug, PartialEq, Eq)]
pub enum CLit {
    Number(i64),
    Null,
    PyNone,
    PyTrue,
    PyFalse,
}

/// One line of a function. Variables go by their numbers, and labels by theirs: the labels of a function are numbered
/// from 0 on in their order.
#[derive(Drop)]
pub enum Line {
    /// `CPyLn: ;`, where n labels stand above.
    Label,
    /// `x = y;`
    Move(usize, usize),
    /// `x = LITERAL;`
    Lit(usize, CLit),
    /// `x = NAME(arguments);`, or `NAME(arguments);` without a target: a primitive, or a function by `CPyDef_` and its name.
    Call(Option<usize>, Name, Many<CArg>),
    /// `x = CPyVirtual(o, N, arguments);`: the method at a place of the methods of the object's class, with the object as its
    /// first argument.
    Virtual(usize, usize, usize, Many<usize>),
    /// `x = CPyTrait(o, CPyType_T, N, arguments);`: the same of the methods that the class has for a trait.
    TraitCall(usize, usize, Name, usize, Many<usize>),
    /// `goto CPyLn;`
    Goto(usize),
    /// `if (x) goto CPyLa; else goto CPyLb;`
    If(usize, usize, usize),
    /// `if (x == E) goto CPyLa; else goto CPyLb;`, where E is the error value of the variable's kind.
    IfError(usize, usize, usize),
    /// `CPyTurn();`: one turn is spent.
    Turn,
    /// `return x;`
    Return(usize),
    /// `CPy_INCREF(x);` for an object, `CPyTagged_INCREF(x);` for an `int`: one reference more is owned.
    Inc(usize),
    /// `CPy_DECREF(x);` for an object, `CPyTagged_DECREF(x);` for an `int`: one reference is given up.
    Dec(usize),
    /// `CPy_XDECREF(x);` for an object, `CPyTagged_XDECREF(x);` for an `int`: the same, or nothing for an error value.
    XDec(usize),
}

/// A function: its name without `CPyDef_`, the kind of its result, how many of its variables are parameters, its
/// variables with their names without `cpy_`, and its lines.
#[derive(Drop)]
pub struct CFunc {
    pub name: Name,
    pub ret: Kind,
    pub params: usize,
    pub vars: Many<(Name, Kind)>,
    pub lines: Many<Line>,
}

/// A class: its name without `CPyType_`, its attributes, the functions of its methods, and for each trait the
/// functions of its methods.
#[derive(Drop)]
pub struct CClass {
    pub name: Name,
    pub attrs: Many<(Name, Kind)>,
    pub methods: Many<Name>,
    pub traits: Many<(Name, Many<Name>)>,
}

/// A whole C text. The last function is the module's own, which has no name.
#[derive(Drop)]
pub struct Code {
    pub globals: Many<(Name, Kind)>,
    pub classes: Many<CClass>,
    pub funcs: Many<CFunc>,
}
