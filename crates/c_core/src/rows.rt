//! Whether a call of a primitive fits its row.
ghost use Rattle.std.specs.Prelude.{◌≡◌, List, [], ◌∷◌, is_some};
ghost use Rattle.std.specs.List.{list_all};
ghost use Rattle.value_core.specs.Exceptions.{class_named};
ghost use Rattle.c_core.specs.Index.{class_in, is_class, is_place};
ghost use Rattle.c_core.specs.Primitives.{Owned, OfSlot, row_of};
ghost use Rattle.c_core.specs.WellFormed as spec;
ghost use Rattle.c_core.specs.declared.code.CArg.{CArg};
ghost use Rattle.c_core.specs.declared.code.Code as declared;
ghost use Rattle.c_core.specs.declared.primitive.Primitive.TheVariants as prim;
ghost use Rattle.c_core.specs.declared.primitive.ListPrim.TheVariants as list;
ghost use Rattle.c_core.specs.declared.primitive.DictPrim.TheVariants as dict;
ghost use Rattle.c_core.specs.declared.primitive.TaggedPrim.TheVariants as tagged;
ghost use Rattle.c_core.specs.declared.primitive.TuplePrim.TheVariants as tuple;
ghost use Rattle.c_core.specs.declared.primitive.InstancePrim.TheVariants as instance;
ghost use Rattle.c_core.specs.declared.primitive.AttrPrim.TheVariants as attr;
ghost use Rattle.c_core.specs.declared.primitive.GlobalPrim.TheVariants as global;
ghost use Rattle.c_core.specs.declared.primitive.ExcPrim.TheVariants as exc;
ghost use Rattle.c_core.specs.declared.primitive.ErrPrim.TheVariants as err;
ghost use Rattle.c_core.specs.declared.primitive.IoPrim.TheVariants as io;

use crate::code::{CArg, Kind};
use crate::decimal::is_long_decimal;
use crate::names::Found;
use crate::primitive::{
    AttrPrim, BoolPrim, DictPrim, ErrPrim, ExcPrim, GlobalPrim, InstancePrim, Int64Prim, IoPrim,
    ListPrim, ObjectPrim, Primitive, StrPrim, TaggedPrim, TuplePrim,
};
use crate::shapes::{
    answers, is_passed, item_fits, kind_at, nothing_fits, one_fits, same_kinds, two_fit,
    written_fits,
};
use value_core::{ExcClass, Name};

/// Whether a call of a primitive fits its row, where it is known what its arguments name.
pub(crate) fn primitive_call_fits(
    vars: &[(Name, Kind)],
    primitive: Primitive,
    found: Found,
    target: Option<usize>,
    args: &[CArg],
) -> bool
    ensures { (code : declared.Code) → found.global ≡ spec.named_kind code args.now → found.class ≡ is_class code (class_in args.now)
        → result ≡ spec.row_fits code vars.now target args.now (row_of primitive) }
{
    match primitive {
        Primitive::Int64(operation) => int64_call_fits(vars, operation, target, args),
        Primitive::Tagged(operation) => tagged_call_fits(vars, operation, target, args),
        Primitive::Bool(operation) => bool_call_fits(vars, operation, target, args),
        Primitive::Object(operation) => object_call_fits(vars, operation, target, args),
        Primitive::Str(operation) => text_call_fits(vars, operation, target, args),
        Primitive::List(operation) => list_call_fits(vars, operation, target, args),
        Primitive::Dict(operation) => dict_call_fits(vars, operation, target, args),
        Primitive::Tuple(operation) => tuple_call_fits(vars, operation, target, args),
        Primitive::Instance(operation) => {
            instance_call_fits(vars, operation, found.class, target, args)
        }
        Primitive::Attr(operation) => attribute_call_fits(vars, operation, target, args),
        Primitive::Global(operation) => {
            global_call_fits(vars, operation, found.global, target, args)
        }
        Primitive::Exc(operation) => exception_call_fits(vars, operation, target, args),
        Primitive::Err(operation) => error_call_fits(vars, operation, target, args),
        Primitive::Io(operation) => io_call_fits(vars, operation, target, args),
    }
}

fn int64_call_fits(
    vars: &[(Name, Kind)],
    operation: Int64Prim,
    target: Option<usize>,
    args: &[CArg],
) -> bool
    ensures { (code : declared.Code) → result ≡ spec.row_fits code vars.now target args.now (row_of (prim.Int64 operation)) }
{
    match operation {
        Int64Prim::Add => two_fit(vars, Kind::Int64, args, Kind::Int64, target),
        Int64Prim::Subtract => two_fit(vars, Kind::Int64, args, Kind::Int64, target),
        Int64Prim::Multiply => two_fit(vars, Kind::Int64, args, Kind::Int64, target),
        Int64Prim::Negate => one_fits(vars, Kind::Int64, args, Kind::Int64, target),
        Int64Prim::FloorDivide => two_fit(vars, Kind::Int64, args, Kind::Int64, target),
        Int64Prim::Remainder => two_fit(vars, Kind::Int64, args, Kind::Int64, target),
        Int64Prim::Lshift => two_fit(vars, Kind::Int64, args, Kind::Int64, target),
        Int64Prim::Rshift => two_fit(vars, Kind::Int64, args, Kind::Int64, target),
        Int64Prim::FromBool => one_fits(vars, Kind::Char, args, Kind::Int64, target),
        Int64Prim::Eq => two_fit(vars, Kind::Int64, args, Kind::Char, target),
        Int64Prim::Lt => two_fit(vars, Kind::Int64, args, Kind::Char, target),
        Int64Prim::Le => two_fit(vars, Kind::Int64, args, Kind::Char, target),
        Int64Prim::Str => one_fits(vars, Kind::Int64, args, Kind::Object, target),
        Int64Prim::Box => one_fits(vars, Kind::Int64, args, Kind::Object, target),
        Int64Prim::Unbox => one_fits(vars, Kind::Object, args, Kind::Int64, target),
    }
}

fn tagged_call_fits(
    vars: &[(Name, Kind)],
    operation: TaggedPrim,
    target: Option<usize>,
    args: &[CArg],
) -> bool
    ensures { (code : declared.Code) → result ≡ spec.row_fits code vars.now target args.now (row_of (prim.Tagged operation)) }
{
    match operation {
        TaggedPrim::Add => two_fit(vars, Kind::Tagged, args, Kind::Tagged, target),
        TaggedPrim::Subtract => two_fit(vars, Kind::Tagged, args, Kind::Tagged, target),
        TaggedPrim::Multiply => two_fit(vars, Kind::Tagged, args, Kind::Tagged, target),
        TaggedPrim::Negate => one_fits(vars, Kind::Tagged, args, Kind::Tagged, target),
        TaggedPrim::FloorDivide => two_fit(vars, Kind::Tagged, args, Kind::Tagged, target),
        TaggedPrim::Remainder => two_fit(vars, Kind::Tagged, args, Kind::Tagged, target),
        TaggedPrim::Lshift => two_fit(vars, Kind::Tagged, args, Kind::Tagged, target),
        TaggedPrim::Rshift => two_fit(vars, Kind::Tagged, args, Kind::Tagged, target),
        TaggedPrim::FromText => decimal_fits(vars, args, target),
        TaggedPrim::FromInt64 => one_fits(vars, Kind::Int64, args, Kind::Tagged, target),
        TaggedPrim::FromBool => one_fits(vars, Kind::Char, args, Kind::Tagged, target),
        TaggedPrim::AsInt64 => one_fits(vars, Kind::Tagged, args, Kind::Int64, target),
        TaggedPrim::Eq => two_fit(vars, Kind::Tagged, args, Kind::Char, target),
        TaggedPrim::Lt => two_fit(vars, Kind::Tagged, args, Kind::Char, target),
        TaggedPrim::Le => two_fit(vars, Kind::Tagged, args, Kind::Char, target),
        TaggedPrim::Str => one_fits(vars, Kind::Tagged, args, Kind::Object, target),
        TaggedPrim::Box => one_fits(vars, Kind::Tagged, args, Kind::Object, target),
        TaggedPrim::Unbox => one_fits(vars, Kind::Object, args, Kind::Tagged, target),
    }
}

// The decimal of an `int` that is not short is written, and an `int` is answered.
fn decimal_fits(vars: &[(Name, Kind)], args: &[CArg], target: Option<usize>) -> bool
    ensures { (code : declared.Code) → result ≡ spec.row_fits code vars.now target args.now (row_of (prim.Tagged tagged.FromText)) }
{
    match args {
        [CArg::Text(text)] => {
            is_long_decimal(text.as_str()) && answers(vars, Kind::Tagged, target)
        }
        _ => false,
    }
}

fn bool_call_fits(
    vars: &[(Name, Kind)],
    operation: BoolPrim,
    target: Option<usize>,
    args: &[CArg],
) -> bool
    ensures { (code : declared.Code) → result ≡ spec.row_fits code vars.now target args.now (row_of (prim.Bool operation)) }
{
    match operation {
        BoolPrim::Not => one_fits(vars, Kind::Char, args, Kind::Char, target),
        BoolPrim::Str => one_fits(vars, Kind::Char, args, Kind::Object, target),
        BoolPrim::Box => one_fits(vars, Kind::Char, args, Kind::Object, target),
        BoolPrim::Unbox => one_fits(vars, Kind::Object, args, Kind::Char, target),
    }
}

fn object_call_fits(
    vars: &[(Name, Kind)],
    operation: ObjectPrim,
    target: Option<usize>,
    args: &[CArg],
) -> bool
    ensures { (code : declared.Code) → result ≡ spec.row_fits code vars.now target args.now (row_of (prim.Object operation)) }
{
    match operation {
        ObjectPrim::IsNone => one_fits(vars, Kind::Object, args, Kind::Char, target),
    }
}

fn text_call_fits(
    vars: &[(Name, Kind)],
    operation: StrPrim,
    target: Option<usize>,
    args: &[CArg],
) -> bool
    ensures { (code : declared.Code) → result ≡ spec.row_fits code vars.now target args.now (row_of (prim.Str operation)) }
{
    match operation {
        StrPrim::Literal => written_fits(vars, args, Kind::Object, target),
        StrPrim::Concat => two_fit(vars, Kind::Object, args, Kind::Object, target),
        StrPrim::Eq => two_fit(vars, Kind::Object, args, Kind::Char, target),
        StrPrim::Lt => two_fit(vars, Kind::Object, args, Kind::Char, target),
        StrPrim::Le => two_fit(vars, Kind::Object, args, Kind::Char, target),
        StrPrim::Len => one_fits(vars, Kind::Object, args, Kind::Tagged, target),
        StrPrim::GetItem => item_fits(vars, args, Kind::Object, target),
    }
}

fn list_call_fits(
    vars: &[(Name, Kind)],
    operation: ListPrim,
    target: Option<usize>,
    args: &[CArg],
) -> bool
    ensures { (code : declared.Code) → result ≡ spec.row_fits code vars.now target args.now (row_of (prim.List operation)) }
{
    match operation {
        ListPrim::New => nothing_fits(vars, args, Kind::Object, target),
        ListPrim::Append => append_fits(vars, args, target),
        ListPrim::GetItem => item_fits(vars, args, Kind::Object, target),
        ListPrim::GetItemBorrow => item_fits(vars, args, Kind::Object, target),
        ListPrim::SetItem => put_fits(vars, args, target),
        ListPrim::Pop => one_fits(vars, Kind::Object, args, Kind::Object, target),
        ListPrim::Len => one_fits(vars, Kind::Object, args, Kind::Tagged, target),
    }
}

// A list is borrowed and an object stolen, and nothing is answered.
fn append_fits(vars: &[(Name, Kind)], args: &[CArg], target: Option<usize>) -> bool
    ensures { (code : declared.Code) → result ≡ spec.row_fits code vars.now target args.now (row_of (prim.List list.Append)) }
{
    match args {
        [CArg::Var(x), CArg::Var(y)] => {
            target.is_none()
                && kind_at(vars, *x) == Some(Kind::Object)
                && kind_at(vars, *y) == Some(Kind::Object)
        }
        _ => false,
    }
}

// A list and an index are borrowed and an object stolen, and a `char` is answered.
fn put_fits(vars: &[(Name, Kind)], args: &[CArg], target: Option<usize>) -> bool
    ensures { (code : declared.Code) → result ≡ spec.row_fits code vars.now target args.now (row_of (prim.List list.SetItem)) }
{
    match args {
        [CArg::Var(list), CArg::Var(index), CArg::Var(item)] => {
            kind_at(vars, *list) == Some(Kind::Object)
                && kind_at(vars, *index) == Some(Kind::Tagged)
                && kind_at(vars, *item) == Some(Kind::Object)
                && answers(vars, Kind::Char, target)
        }
        _ => false,
    }
}

fn dict_call_fits(
    vars: &[(Name, Kind)],
    operation: DictPrim,
    target: Option<usize>,
    args: &[CArg],
) -> bool
    ensures { (code : declared.Code) → result ≡ spec.row_fits code vars.now target args.now (row_of (prim.Dict operation)) }
{
    match operation {
        DictPrim::New => nothing_fits(vars, args, Kind::Object, target),
        DictPrim::GetItem => two_fit(vars, Kind::Object, args, Kind::Object, target),
        DictPrim::SetItem => entry_fits(vars, args, target),
        DictPrim::DelItem => two_fit(vars, Kind::Object, args, Kind::Char, target),
        DictPrim::Contains => two_fit(vars, Kind::Object, args, Kind::Char, target),
        DictPrim::CheckSize => item_fits(vars, args, Kind::Char, target),
        DictPrim::KeyAt => item_fits(vars, args, Kind::Object, target),
        DictPrim::Len => one_fits(vars, Kind::Object, args, Kind::Tagged, target),
    }
}

// A dict is borrowed and two objects stolen, and nothing is answered.
fn entry_fits(vars: &[(Name, Kind)], args: &[CArg], target: Option<usize>) -> bool
    ensures { (code : declared.Code) → result ≡ spec.row_fits code vars.now target args.now (row_of (prim.Dict dict.SetItem)) }
{
    match args {
        [CArg::Var(dict), CArg::Var(key), CArg::Var(value)] => {
            target.is_none()
                && kind_at(vars, *dict) == Some(Kind::Object)
                && kind_at(vars, *key) == Some(Kind::Object)
                && kind_at(vars, *value) == Some(Kind::Object)
        }
        _ => false,
    }
}

fn tuple_call_fits(
    vars: &[(Name, Kind)],
    operation: TuplePrim,
    target: Option<usize>,
    args: &[CArg],
) -> bool
    ensures { (code : declared.Code) → result ≡ spec.row_fits code vars.now target args.now (row_of (prim.Tuple operation)) }
{
    match operation {
        TuplePrim::Pack => pack_fits(vars, args, target),
        TuplePrim::GetItem => part_fits(vars, args, target),
        TuplePrim::GetItemBorrow => part_fits(vars, args, target),
        TuplePrim::Len => one_fits(vars, Kind::Object, args, Kind::Tagged, target),
    }
}

// 1 to 16 objects are stolen, and an object is answered.
fn pack_fits(vars: &[(Name, Kind)], args: &[CArg], target: Option<usize>) -> bool
    ensures { (code : declared.Code) → result ≡ spec.row_fits code vars.now target args.now (row_of (prim.Tuple tuple.Pack)) }
{
    if args.is_empty() {
        return false;
    }
    if args.len() > 16 {
        return false;
    }
    are_objects(vars, args) && answers(vars, Kind::Object, target)
}

fn are_objects(vars: &[(Name, Kind)], args: &[CArg]) -> bool
    ensures { result ≡ list_all (λ a. spec.passes vars.now (Kind.Object ∷ []) (a ∷ [])) args.now }
{
    args.iter().all(|arg| is_passed(vars, Kind::Object, arg))
}

// A tuple is borrowed and a number written, and an object is answered.
fn part_fits(vars: &[(Name, Kind)], args: &[CArg], target: Option<usize>) -> bool
    ensures { (code : declared.Code) → result ≡ spec.row_fits code vars.now target args.now (row_of (prim.Tuple tuple.GetItem)) }
{
    match args {
        [CArg::Var(x), CArg::Number(_)] => {
            kind_at(vars, *x) == Some(Kind::Object) && answers(vars, Kind::Object, target)
        }
        _ => false,
    }
}

fn instance_call_fits(
    vars: &[(Name, Kind)],
    operation: InstancePrim,
    class: bool,
    target: Option<usize>,
    args: &[CArg],
) -> bool
    ensures { (code : declared.Code) → class ≡ is_class code (class_in args.now)
        → result ≡ spec.row_fits code vars.now target args.now (row_of (prim.Instance operation)) }
{
    match operation {
        InstancePrim::New => made_fits(vars, class, args, target),
    }
}

// A class is named that is there, and an object is answered.
fn made_fits(vars: &[(Name, Kind)], class: bool, args: &[CArg], target: Option<usize>) -> bool
    ensures { (code : declared.Code) → class ≡ is_class code (class_in args.now)
        → result ≡ spec.row_fits code vars.now target args.now (row_of (prim.Instance instance.New)) }
{
    match args {
        [CArg::Class(_)] => class && answers(vars, Kind::Object, target),
        _ => false,
    }
}

fn attribute_call_fits(
    vars: &[(Name, Kind)],
    operation: AttrPrim,
    target: Option<usize>,
    args: &[CArg],
) -> bool
    ensures { (code : declared.Code) → result ≡ spec.row_fits code vars.now target args.now (row_of (prim.Attr operation)) }
{
    match operation {
        AttrPrim::Get => slot_fits(vars, args, target),
        AttrPrim::GetBorrow => slot_fits(vars, args, target),
        AttrPrim::Set => slot_set_fits(vars, args, target),
    }
}

// An instance is borrowed and a place written, and what is in a slot is answered.
fn slot_fits(vars: &[(Name, Kind)], args: &[CArg], target: Option<usize>) -> bool
    ensures { (code : declared.Code) → result ≡ spec.row_fits code vars.now target args.now (row_of (prim.Attr attr.Get)) }
{
    match args {
        [CArg::Var(x), CArg::Number(place)] => {
            kind_at(vars, *x) == Some(Kind::Object)
                && is_place(*place)
                && answers_slot(vars, target)
        }
        _ => false,
    }
}

// An instance is borrowed, a place written and a word stolen, and nothing is answered.
fn slot_set_fits(vars: &[(Name, Kind)], args: &[CArg], target: Option<usize>) -> bool
    ensures { (code : declared.Code) → result ≡ spec.row_fits code vars.now target args.now (row_of (prim.Attr attr.Set)) }
{
    match args {
        [CArg::Var(x), CArg::Number(place), CArg::Var(word)] => {
            target.is_none()
                && kind_at(vars, *x) == Some(Kind::Object)
                && is_place(*place)
                && kind_at(vars, *word).is_some()
        }
        _ => false,
    }
}

// The number of a slot is not negative.
fn is_place(number: i64) -> bool
    ensures { result ≡ is_place number }
{
    number >= 0
}

// The kind of a slot is known only when a call is run.
fn answers_slot(vars: &[(Name, Kind)], target: Option<usize>) -> bool
    ensures { (code : declared.Code) (args : List CArg) → result ≡ spec.target_fits code vars.now args (Owned OfSlot) target }
{
    match target {
        Some(x) => kind_at(vars, x).is_some(),
        None => true,
    }
}

fn global_call_fits(
    vars: &[(Name, Kind)],
    operation: GlobalPrim,
    kind: Option<Kind>,
    target: Option<usize>,
    args: &[CArg],
) -> bool
    ensures { (code : declared.Code) → kind ≡ spec.named_kind code args.now
        → result ≡ spec.row_fits code vars.now target args.now (row_of (prim.Global operation)) }
{
    match operation {
        GlobalPrim::Get => get_fits(vars, kind, args, target),
        GlobalPrim::Set => target.is_none() && set_fits(vars, kind, args),
        GlobalPrim::Clear => target.is_none() && clear_fits(kind, args),
    }
}

fn get_fits(vars: &[(Name, Kind)], kind: Option<Kind>, args: &[CArg], target: Option<usize>) -> bool
    ensures { (code : declared.Code) → kind ≡ spec.named_kind code args.now
        → result ≡ spec.row_fits code vars.now target args.now (row_of (prim.Global global.Get)) }
{
    match args {
        [CArg::Global(_)] => answers_kind(vars, kind, target),
        _ => false,
    }
}

// A result may be left without a target, but there is to be one.
fn answers_kind(vars: &[(Name, Kind)], kind: Option<Kind>, target: Option<usize>) -> bool
    ensures { result ≡ spec.answers_kind vars.now kind target }
{
    match (kind, target) {
        (Some(kind), Some(x)) => kind_at(vars, x) == Some(kind),
        (Some(_), None) => true,
        (None, _) => false,
    }
}

fn set_fits(vars: &[(Name, Kind)], kind: Option<Kind>, args: &[CArg]) -> bool
    ensures { (code : declared.Code) → kind ≡ spec.named_kind code args.now
        → result ≡ spec.args_fit code vars.now args.now (row_of (prim.Global global.Set)).parameters args.now }
{
    match args {
        [CArg::Global(_), CArg::Var(x)] => same_kinds(kind, kind_at(vars, *x)),
        _ => false,
    }
}

fn clear_fits(kind: Option<Kind>, args: &[CArg]) -> bool
    ensures { (code : declared.Code) (vars : List spec.Declared) → kind ≡ spec.named_kind code args.now
        → result ≡ spec.args_fit code vars args.now (row_of (prim.Global global.Clear)).parameters args.now }
{
    match args {
        [CArg::Global(_)] => kind.is_some(),
        _ => false,
    }
}

fn exception_call_fits(
    vars: &[(Name, Kind)],
    operation: ExcPrim,
    target: Option<usize>,
    args: &[CArg],
) -> bool
    ensures { (code : declared.Code) → result ≡ spec.row_fits code vars.now target args.now (row_of (prim.Exc operation)) }
{
    match operation {
        ExcPrim::New => new_fits(vars, args, target),
        ExcPrim::Str => one_fits(vars, Kind::Object, args, Kind::Object, target),
    }
}

fn new_fits(vars: &[(Name, Kind)], args: &[CArg], target: Option<usize>) -> bool
    ensures { (code : declared.Code) → result ≡ spec.row_fits code vars.now target args.now (row_of (prim.Exc exc.New)) }
{
    match args {
        [CArg::Text(class), CArg::Var(x)] => {
            is_exception(class.as_str())
                && kind_at(vars, *x) == Some(Kind::Object)
                && answers(vars, Kind::Object, target)
        }
        _ => false,
    }
}

fn error_call_fits(
    vars: &[(Name, Kind)],
    operation: ErrPrim,
    target: Option<usize>,
    args: &[CArg],
) -> bool
    ensures { (code : declared.Code) → result ≡ spec.row_fits code vars.now target args.now (row_of (prim.Err operation)) }
{
    match operation {
        ErrPrim::SetObject => object_fits(vars, args, target),
        ErrPrim::Unbound => text_fits(args, target),
        ErrPrim::Occurred => nothing_fits(vars, args, Kind::Char, target),
        ErrPrim::Matches => matches_fits(vars, args, target),
        ErrPrim::Catch => nothing_fits(vars, args, Kind::Object, target),
    }
}

// An object is stolen, and nothing is answered.
fn object_fits(vars: &[(Name, Kind)], args: &[CArg], target: Option<usize>) -> bool
    ensures { (code : declared.Code) → result ≡ spec.row_fits code vars.now target args.now (row_of (prim.Err err.SetObject)) }
{
    match args {
        [CArg::Var(x)] => target.is_none() && kind_at(vars, *x) == Some(Kind::Object),
        _ => false,
    }
}

fn text_fits(args: &[CArg], target: Option<usize>) -> bool
    ensures { (code : declared.Code) (vars : List spec.Declared) → result ≡ spec.row_fits code vars target args.now (row_of (prim.Err err.Unbound)) }
{
    match args {
        [CArg::Text(_)] => target.is_none(),
        _ => false,
    }
}

fn matches_fits(vars: &[(Name, Kind)], args: &[CArg], target: Option<usize>) -> bool
    ensures { (code : declared.Code) → result ≡ spec.row_fits code vars.now target args.now (row_of (prim.Err err.Matches)) }
{
    match args {
        [CArg::Text(class)] => is_exception(class.as_str()) && answers(vars, Kind::Char, target),
        _ => false,
    }
}

/// Whether an exception class has this name.
fn is_exception(name: &str) -> bool
    ensures { result ≡ is_some (class_named name.now) }
{
    ExcClass::named(name).is_some()
}

fn io_call_fits(
    vars: &[(Name, Kind)],
    operation: IoPrim,
    target: Option<usize>,
    args: &[CArg],
) -> bool
    ensures { (code : declared.Code) → result ≡ spec.row_fits code vars.now target args.now (row_of (prim.Io operation)) }
{
    match operation {
        IoPrim::Write => write_fits(vars, args, target),
        IoPrim::Input => nothing_fits(vars, args, Kind::Object, target),
    }
}

// An object is borrowed, and nothing is answered.
fn write_fits(vars: &[(Name, Kind)], args: &[CArg], target: Option<usize>) -> bool
    ensures { (code : declared.Code) → result ≡ spec.row_fits code vars.now target args.now (row_of (prim.Io io.Write)) }
{
    match args {
        [CArg::Var(x)] => target.is_none() && kind_at(vars, *x) == Some(Kind::Object),
        _ => false,
    }
}
