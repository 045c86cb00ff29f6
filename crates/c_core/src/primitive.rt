ghost use Rattle.std.specs.Prelude.{◌≡◌, find};
ghost use Rattle.c_core.specs.Primitives.{is_named};

/// A primitive of the runtime, by the first word of its name.
#[derive(Clone, Copy, Debug, PartialEq, Eq)]
pub enum Primitive {
    Int64(Int64Prim),
    Tagged(TaggedPrim),
    Bool(BoolPrim),
    Object(ObjectPrim),
    Str(StrPrim),
    List(ListPrim),
    Dict(DictPrim),
    Tuple(TuplePrim),
    Instance(InstancePrim),
    Attr(AttrPrim),
    Global(GlobalPrim),
    Exc(ExcPrim),
    Err(ErrPrim),
    Io(IoPrim),
}

/// `CPyInt64_..`, on native integers of 64 bits. Sums, differences and products wrap.
#[derive(Clone, Copy, Debug, PartialEq, Eq)]
pub enum Int64Prim {
    Add,
    Subtract,
    Multiply,
    Negate,
    /// Rounded to minus infinity. Fails for a divisor of 0, and for the least number and -1.
    FloorDivide,
    /// With the sign of the divisor. Fails for a divisor of 0.
    Remainder,
    /// Wraps. Fails for a count outside 0 to 63.
    Lshift,
    /// Rounded to minus infinity. Fails for a count outside 0 to 63.
    Rshift,
    /// 0 or 1.
    FromBool,
    Eq,
    Lt,
    Le,
    /// The decimal.
    Str,
    /// A new cell with the number.
    Box,
    /// The number in a cell, which has to fit in 64 bits.
    Unbox,
}

/// `CPyTagged_..`, on `int`s of 128 bits. The word of an `int` from -2^62 to 2^62 - 1 is short, that of any other has a cell. What
/// makes an `int` of `int`s fails where the result lies past 128 bits.
#[derive(Clone, Copy, Debug, PartialEq, Eq)]
pub enum TaggedPrim {
    Add,
    Subtract,
    Multiply,
    Negate,
    /// Rounded to minus infinity. Fails for a divisor of 0.
    FloorDivide,
    /// With the sign of the divisor. Fails for a divisor of 0.
    Remainder,
    /// Fails for a negative count.
    Lshift,
    /// Rounded to minus infinity. Fails for a negative count.
    Rshift,
    /// The number of a decimal, written as it is printed, of which the word has a cell.
    FromText,
    FromInt64,
    /// 0 or 1.
    FromBool,
    /// Fails outside of 64 bits.
    AsInt64,
    Eq,
    Lt,
    Le,
    /// The decimal.
    Str,
    /// The number as an object: in a new cell where it is short, else in its own. Takes the reference.
    Box,
    /// The number in a cell; where it is not short the same cell.
    Unbox,
}

/// `CPyBool_..`
#[derive(Clone, Copy, Debug, PartialEq, Eq)]
pub enum BoolPrim {
    Not,
    /// `True` or `False`.
    Str,
    Box,
    Unbox,
}

/// `CPyObject_..`
#[derive(Clone, Copy, Debug, PartialEq, Eq)]
pub enum ObjectPrim {
    IsNone,
}

/// `CPyStr_..`, on texts, whose items are their code points.
#[derive(Clone, Copy, Debug, PartialEq, Eq)]
pub enum StrPrim {
    Literal,
    /// The second behind the first.
    Concat,
    Eq,
    /// By the order of the code points.
    Lt,
    Le,
    /// The number of code points, or the greatest `int` where there are more.
    Len,
    /// The text of one code point. A negative index counts from the end. Fails for an index out of range.
    GetItem,
}

/// `CPyList_..`, on lists. A negative index counts from the end.
#[derive(Clone, Copy, Debug, PartialEq, Eq)]
pub enum ListPrim {
    New,
    /// Takes the item's reference.
    Append,
    /// Fails for an index out of range.
    GetItem,
    /// The same, but that the item's reference stays with the list.
    GetItemBorrow,
    /// Answers 1. Fails for an index out of range. Takes the item's reference, also where it fails.
    SetItem,
    /// Takes the last item out. Fails for an empty list.
    Pop,
    /// The number of items, or the greatest `int` where there are more.
    Len,
}

/// `CPyDict_..`, on dicts, whose keys are numbers, texts and truths. Their pairs stand in the order in which they were put in.
#[derive(Clone, Copy, Debug, PartialEq, Eq)]
pub enum DictPrim {
    New,
    /// The value of a key. Fails where there is no equal one.
    GetItem,
    /// Takes the references of the key and of the value. An equal key that is there stays at its place.
    SetItem,
    /// Takes the pair of a key out, and answers 1. Fails where there is no equal key.
    DelItem,
    Contains,
    /// Answers 1. Fails where there are not as many pairs.
    CheckSize,
    /// The key at a place, from 0.
    KeyAt,
    /// The number of pairs, or the greatest `int` where there are more.
    Len,
}

/// `CPyTuple_..`, on tuples.
#[derive(Clone, Copy, Debug, PartialEq, Eq)]
pub enum TuplePrim {
    /// A tuple of 1 to 16 parts, whose references it takes.
    Pack,
    /// The part of a number, from 0.
    GetItem,
    /// The same, but that the part's reference stays with the tuple.
    GetItemBorrow,
    /// The number of parts, or the greatest `int` where there are more.
    Len,
}

/// `CPyInstance_..`
#[derive(Clone, Copy, Debug, PartialEq, Eq)]
pub enum InstancePrim {
    /// An instance of the class that is named, with all attributes unset.
    New,
}

/// `CPyAttr_..`, on the attributes of an instance, which go by their places in its class.
#[derive(Clone, Copy, Debug, PartialEq, Eq)]
pub enum AttrPrim {
    /// Fails where the attribute is unset.
    Get,
    /// The same, but that the reference stays with the instance.
    GetBorrow,
    /// Takes the reference of what it puts there.
    Set,
}

/// `CPyGlobal_..`, on the variable of the module that they name.
#[derive(Clone, Copy, Debug, PartialEq, Eq)]
pub enum GlobalPrim {
    /// Fails where the variable is unset.
    Get,
    Set,
    /// The variable is unset from then on.
    Clear,
}

/// `CPyExc_..`
#[derive(Clone, Copy, Debug, PartialEq, Eq)]
pub enum ExcPrim {
    /// An exception of a class and a text.
    New,
    /// The text of an exception.
    Str,
}

/// `CPyErr_..`, on the exception that is pending. The last three may stand while one is.
#[derive(Clone, Copy, Debug, PartialEq, Eq)]
pub enum ErrPrim {
    /// Always fails: an exception is pending from then on.
    SetObject,
    /// Always fails: a local variable was read before it was set.
    Unbound,
    /// Whether an exception is pending.
    Occurred,
    /// Whether its class is the one that is named, or stands under it.
    Matches,
    /// The exception, which is pending no more.
    Catch,
}

/// `CPy_..`
#[derive(Clone, Copy, Debug, PartialEq, Eq)]
pub enum IoPrim {
    Write,
    /// The next line of input, without its line feed. Fails at the end of the input, and for a line that is not UTF-8, which is passed
    /// over. The run ends at a line that ends too far along, and where the input cannot be read.
    Input,
}

impl Primitive {
    ghost use Rattle.std.specs.Prelude.{◌≡◌, find};
    ghost use Rattle.c_core.specs.Primitives.{row_of, is_named, primitive_named, all_primitives};

    /// All primitives.
    pub const ALL: [Primitive; 80] = [
        Primitive::Int64(Int64Prim::Add),
        Primitive::Int64(Int64Prim::Subtract),
        Primitive::Int64(Int64Prim::Multiply),
        Primitive::Int64(Int64Prim::Negate),
        Primitive::Int64(Int64Prim::FloorDivide),
        Primitive::Int64(Int64Prim::Remainder),
        Primitive::Int64(Int64Prim::Lshift),
        Primitive::Int64(Int64Prim::Rshift),
        Primitive::Int64(Int64Prim::FromBool),
        Primitive::Int64(Int64Prim::Eq),
        Primitive::Int64(Int64Prim::Lt),
        Primitive::Int64(Int64Prim::Le),
        Primitive::Int64(Int64Prim::Str),
        Primitive::Int64(Int64Prim::Box),
        Primitive::Int64(Int64Prim::Unbox),
        Primitive::Tagged(TaggedPrim::Add),
        Primitive::Tagged(TaggedPrim::Subtract),
        Primitive::Tagged(TaggedPrim::Multiply),
        Primitive::Tagged(TaggedPrim::Negate),
        Primitive::Tagged(TaggedPrim::FloorDivide),
        Primitive::Tagged(TaggedPrim::Remainder),
        Primitive::Tagged(TaggedPrim::Lshift),
        Primitive::Tagged(TaggedPrim::Rshift),
        Primitive::Tagged(TaggedPrim::FromText),
        Primitive::Tagged(TaggedPrim::FromInt64),
        Primitive::Tagged(TaggedPrim::FromBool),
        Primitive::Tagged(TaggedPrim::AsInt64),
        Primitive::Tagged(TaggedPrim::Eq),
        Primitive::Tagged(TaggedPrim::Lt),
        Primitive::Tagged(TaggedPrim::Le),
        Primitive::Tagged(TaggedPrim::Str),
        Primitive::Tagged(TaggedPrim::Box),
        Primitive::Tagged(TaggedPrim::Unbox),
        Primitive::Bool(BoolPrim::Not),
        Primitive::Bool(BoolPrim::Str),
        Primitive::Bool(BoolPrim::Box),
        Primitive::Bool(BoolPrim::Unbox),
        Primitive::Object(ObjectPrim::IsNone),
        Primitive::Str(StrPrim::Literal),
        Primitive::Str(StrPrim::Concat),
        Primitive::Str(StrPrim::Eq),
        Primitive::Str(StrPrim::Lt),
        Primitive::Str(StrPrim::Le),
        Primitive::Str(StrPrim::Len),
        Primitive::Str(StrPrim::GetItem),
        Primitive::List(ListPrim::New),
        Primitive::List(ListPrim::Append),
        Primitive::List(ListPrim::GetItem),
        Primitive::List(ListPrim::GetItemBorrow),
        Primitive::List(ListPrim::SetItem),
        Primitive::List(ListPrim::Pop),
        Primitive::List(ListPrim::Len),
        Primitive::Dict(DictPrim::New),
        Primitive::Dict(DictPrim::GetItem),
        Primitive::Dict(DictPrim::SetItem),
        Primitive::Dict(DictPrim::DelItem),
        Primitive::Dict(DictPrim::Contains),
        Primitive::Dict(DictPrim::CheckSize),
        Primitive::Dict(DictPrim::KeyAt),
        Primitive::Dict(DictPrim::Len),
        Primitive::Tuple(TuplePrim::Pack),
        Primitive::Tuple(TuplePrim::GetItem),
        Primitive::Tuple(TuplePrim::GetItemBorrow),
        Primitive::Tuple(TuplePrim::Len),
        Primitive::Instance(InstancePrim::New),
        Primitive::Attr(AttrPrim::Get),
        Primitive::Attr(AttrPrim::GetBorrow),
        Primitive::Attr(AttrPrim::Set),
        Primitive::Global(GlobalPrim::Get),
        Primitive::Global(GlobalPrim::Set),
        Primitive::Global(GlobalPrim::Clear),
        Primitive::Exc(ExcPrim::New),
        Primitive::Exc(ExcPrim::Str),
        Primitive::Err(ErrPrim::SetObject),
        Primitive::Err(ErrPrim::Unbound),
        Primitive::Err(ErrPrim::Occurred),
        Primitive::Err(ErrPrim::Matches),
        Primitive::Err(ErrPrim::Catch),
        Primitive::Io(IoPrim::Write),
        Primitive::Io(IoPrim::Input),
    ];

    /// The name of a primitive, as C texts call it.
    pub fn name(self) -> &'static str
        ensures { result.now ≡ (row_of self).name }
    {
        match self {
            Primitive::Int64(Int64Prim::Add) => "CPyInt64_Add",
            Primitive::Int64(Int64Prim::Subtract) => "CPyInt64_Subtract",
            Primitive::Int64(Int64Prim::Multiply) => "CPyInt64_Multiply",
            Primitive::Int64(Int64Prim::Negate) => "CPyInt64_Negate",
            Primitive::Int64(Int64Prim::FloorDivide) => "CPyInt64_FloorDivide",
            Primitive::Int64(Int64Prim::Remainder) => "CPyInt64_Remainder",
            Primitive::Int64(Int64Prim::Lshift) => "CPyInt64_Lshift",
            Primitive::Int64(Int64Prim::Rshift) => "CPyInt64_Rshift",
            Primitive::Int64(Int64Prim::FromBool) => "CPyInt64_FromBool",
            Primitive::Int64(Int64Prim::Eq) => "CPyInt64_Eq",
            Primitive::Int64(Int64Prim::Lt) => "CPyInt64_Lt",
            Primitive::Int64(Int64Prim::Le) => "CPyInt64_Le",
            Primitive::Int64(Int64Prim::Str) => "CPyInt64_Str",
            Primitive::Int64(Int64Prim::Box) => "CPyInt64_Box",
            Primitive::Int64(Int64Prim::Unbox) => "CPyInt64_Unbox",
            Primitive::Tagged(TaggedPrim::Add) => "CPyTagged_Add",
            Primitive::Tagged(TaggedPrim::Subtract) => "CPyTagged_Subtract",
            Primitive::Tagged(TaggedPrim::Multiply) => "CPyTagged_Multiply",
            Primitive::Tagged(TaggedPrim::Negate) => "CPyTagged_Negate",
            Primitive::Tagged(TaggedPrim::FloorDivide) => "CPyTagged_FloorDivide",
            Primitive::Tagged(TaggedPrim::Remainder) => "CPyTagged_Remainder",
            Primitive::Tagged(TaggedPrim::Lshift) => "CPyTagged_Lshift",
            Primitive::Tagged(TaggedPrim::Rshift) => "CPyTagged_Rshift",
            Primitive::Tagged(TaggedPrim::FromText) => "CPyTagged_FromText",
            Primitive::Tagged(TaggedPrim::FromInt64) => "CPyTagged_FromInt64",
            Primitive::Tagged(TaggedPrim::FromBool) => "CPyTagged_FromBool",
            Primitive::Tagged(TaggedPrim::AsInt64) => "CPyTagged_AsInt64",
            Primitive::Tagged(TaggedPrim::Eq) => "CPyTagged_Eq",
            Primitive::Tagged(TaggedPrim::Lt) => "CPyTagged_Lt",
            Primitive::Tagged(TaggedPrim::Le) => "CPyTagged_Le",
            Primitive::Tagged(TaggedPrim::Str) => "CPyTagged_Str",
            Primitive::Tagged(TaggedPrim::Box) => "CPyTagged_Box",
            Primitive::Tagged(TaggedPrim::Unbox) => "CPyTagged_Unbox",
            Primitive::Bool(BoolPrim::Not) => "CPyBool_Not",
            Primitive::Bool(BoolPrim::Str) => "CPyBool_Str",
            Primitive::Bool(BoolPrim::Box) => "CPyBool_Box",
            Primitive::Bool(BoolPrim::Unbox) => "CPyBool_Unbox",
            Primitive::Object(ObjectPrim::IsNone) => "CPyObject_IsNone",
            Primitive::Str(StrPrim::Literal) => "CPyStr_Literal",
            Primitive::Str(StrPrim::Concat) => "CPyStr_Concat",
            Primitive::Str(StrPrim::Eq) => "CPyStr_Eq",
            Primitive::Str(StrPrim::Lt) => "CPyStr_Lt",
            Primitive::Str(StrPrim::Le) => "CPyStr_Le",
            Primitive::Str(StrPrim::Len) => "CPyStr_Len",
            Primitive::Str(StrPrim::GetItem) => "CPyStr_GetItem",
            Primitive::List(ListPrim::New) => "CPyList_New",
            Primitive::List(ListPrim::Append) => "CPyList_Append",
            Primitive::List(ListPrim::GetItem) => "CPyList_GetItem",
            Primitive::List(ListPrim::GetItemBorrow) => "CPyList_GetItemBorrow",
            Primitive::List(ListPrim::SetItem) => "CPyList_SetItem",
            Primitive::List(ListPrim::Pop) => "CPyList_Pop",
            Primitive::List(ListPrim::Len) => "CPyList_Len",
            Primitive::Dict(DictPrim::New) => "CPyDict_New",
            Primitive::Dict(DictPrim::GetItem) => "CPyDict_GetItem",
            Primitive::Dict(DictPrim::SetItem) => "CPyDict_SetItem",
            Primitive::Dict(DictPrim::DelItem) => "CPyDict_DelItem",
            Primitive::Dict(DictPrim::Contains) => "CPyDict_Contains",
            Primitive::Dict(DictPrim::CheckSize) => "CPyDict_CheckSize",
            Primitive::Dict(DictPrim::KeyAt) => "CPyDict_KeyAt",
            Primitive::Dict(DictPrim::Len) => "CPyDict_Len",
            Primitive::Tuple(TuplePrim::Pack) => "CPyTuple_Pack",
            Primitive::Tuple(TuplePrim::GetItem) => "CPyTuple_GetItem",
            Primitive::Tuple(TuplePrim::GetItemBorrow) => "CPyTuple_GetItemBorrow",
            Primitive::Tuple(TuplePrim::Len) => "CPyTuple_Len",
            Primitive::Instance(InstancePrim::New) => "CPyInstance_New",
            Primitive::Attr(AttrPrim::Get) => "CPyAttr_Get",
            Primitive::Attr(AttrPrim::GetBorrow) => "CPyAttr_GetBorrow",
            Primitive::Attr(AttrPrim::Set) => "CPyAttr_Set",
            Primitive::Global(GlobalPrim::Get) => "CPyGlobal_Get",
            Primitive::Global(GlobalPrim::Set) => "CPyGlobal_Set",
            Primitive::Global(GlobalPrim::Clear) => "CPyGlobal_Clear",
            Primitive::Exc(ExcPrim::New) => "CPyExc_New",
            Primitive::Exc(ExcPrim::Str) => "CPyExc_Str",
            Primitive::Err(ErrPrim::SetObject) => "CPyErr_SetObject",
            Primitive::Err(ErrPrim::Unbound) => "CPyErr_Unbound",
            Primitive::Err(ErrPrim::Occurred) => "CPyErr_Occurred",
            Primitive::Err(ErrPrim::Matches) => "CPyErr_Matches",
            Primitive::Err(ErrPrim::Catch) => "CPyErr_Catch",
            Primitive::Io(IoPrim::Write) => "CPy_Write",
            Primitive::Io(IoPrim::Input) => "CPy_Input",
        }
    }

    /// The primitive of a name, if there is one.
    pub fn named(name: &str) -> Option<Primitive>
        ensures { result ≡ primitive_named name.now }
    {
        primitive_among(&Primitive::ALL, name)
    }
}

fn primitive_among(primitives: &[Primitive], name: &str) -> Option<Primitive>
    ensures { result ≡ find (is_named name.now) primitives.now }
{
    primitives
        .iter()
        .copied()
        .find(|primitive| primitive.name() == name)
}
