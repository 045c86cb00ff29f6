//! Calls of primitives on `int`s.
ghost use Rattle.std.specs.Prelude.{◌≡◌, ◌+◌, ◌^◌, ◌<◌, pos, map, Some, Ok, IfOk, IfSome};
ghost use Rattle.std.specs.Option.{option_copied};
ghost use Rattle.c_core.specs.declared.primitive.Primitive.TheVariants as prim;
ghost use Rattle.c_core.specs.Cells.{content_at};
ghost use Rattle.value_core.specs.Arithmetic.{int_to_i64};
ghost use Rattle.c_core.specs.Step.{Says, MakesInt, tagged_effect, tagged_or, fitted, unboxed};
ghost use Rattle.c_runner_deeds.specs.Deeds.{Calls, effect_of, done_by, done_or, then_done, then_tried, int_held, int_at, one_int, two_ints, one_boxed, number_written, computed, one_done, two_done, tagged_done};
ghost use Rattle.c_runner_deeds.specs.Parts.{one_native, one_char, only_text};
ghost use Rattle.c_runner_deeds.specs.States.{IsSmall, seen};
ghost use Rattle.cell_heap.specs.Contents.{number_of, word_of};
ghost use Rattle.cell_heap.specs.Numbered.{numbered};
ghost use Rattle.cell_heap.specs.Ours.{IsOurs};
ghost use Rattle.cell_heap.specs.Contents.{name_of};
ghost use Rattle.c_core.specs.Cells.{Cells};
ghost use Rattle.cell_heap.specs.Placed.{Placed};
ghost use Rattle.c_runner_deeds.specs.Deeds.{IsOurDeed};

use crate::deed::Deed;
use crate::ending::Ending;
use crate::int64::{class_of, text_of};
use crate::pending::only_text;
use crate::state::State;
use crate::words::truth;
use c_core::{CArg, Fault, TaggedPrim, long_decimal};
use cell_heap::{Content, Key, Word};
use std::alloc::Global;
use value_core::{
    Arith, ExcClass, Memory, Text, int_add, int_floor_div, int_modulo, int_mul, int_neg, int_shl,
    int_shr, int_sub, int_to_i64, is_short, number_text,
};

impl State {
    /// Calls a primitive on `int`s.
    pub fn call_tagged(
        &mut self,
        alloc: Global,
        primitive: TaggedPrim,
        target: Option<usize>,
        args: &[CArg],
    ) -> Result<Option<Ending>, Memory>
        requires small { IsSmall (seen self.old) }
        requires place { self.old.top.place + 1 < 2 ^ 64 }
        ensures { Calls (prim.Tagged primitive) target args.now (seen self.old) (seen self.new) result }
    {
        match primitive {
            TaggedPrim::Box => self.box_int(target, args),
            _ => match self.short_answer(primitive, args) {
                Some(word) => Ok(self.answer(target, Some(word))),
                None => {
                    let deed = self.tagged_deed(alloc, primitive, args)?;
                    self.perform_deed(target, deed)
                }
            },
        }
    }

    /// The word that a primitive on two short `int`s answers, where it is a truth or a short `int` itself.
    fn short_answer(&self, primitive: TaggedPrim, args: &[CArg]) -> Option<Word>
        ensures { IfSome result (λ word. tagged_done primitive (numbered self.now.cells) (map word_of self.now.top.vars) args.now
            ≡ Ok (Says (word_of word))) }
    {
        match self.two_shorts(args) {
            None => None,
            Some((a, b)) => of_shorts(primitive, a, b),
        }
    }

    /// The two `int`s that the arguments are, where both are short.
    fn two_shorts(&self, args: &[CArg]) -> Option<(i64, i64)>
        ensures { IfSome result (λ found. two_ints (numbered self.now.cells) (map word_of self.now.top.vars) args.now ≡ Ok (found.0, found.1)) }
    {
        match args {
            [first, second] => match self.short(first) {
                None => None,
                Some(a) => match self.short(second) {
                    None => None,
                    Some(b) => Some((a, b)),
                },
            },
            _ => None,
        }
    }

    /// The `int` that an argument is, where it is short.
    fn short(&self, argument: &CArg) -> Option<i64>
        ensures { IfSome result (λ n. int_at (numbered self.now.cells) (map word_of self.now.top.vars) (Some argument.now) ≡ Ok n) }
    {
        let CArg::Var(x) = argument else {
            return None;
        };
        match self.top.vars.get(*x) {
            Some(Word::Short(n)) => Some(*n),
            _ => None,
        }
    }

    /// What a primitive on `int`s does that steals nothing, if its arguments are right.
    fn tagged_deed(
        &self,
        alloc: Global,
        primitive: TaggedPrim,
        args: &[CArg],
    ) -> Result<Result<Deed, Fault>, Memory>
        ensures done { IfOk result (λ deed. done_by deed
            ≡ tagged_done primitive (numbered self.now.cells) (map word_of self.now.top.vars) args.now) }
        ensures ours { IfOk result (λ deed. IfOk deed (IsOurDeed self.now.cells)) }
    {
        match primitive {
            TaggedPrim::FromText => Ok(from_text(args)),
            TaggedPrim::FromInt64 => Ok(self.from_native(args)),
            TaggedPrim::FromBool => Ok(self.from_truth(args)),
            TaggedPrim::Negate | TaggedPrim::AsInt64 | TaggedPrim::Str => {
                self.one_deed(alloc, primitive, args)
            }
            TaggedPrim::Unbox => Ok(self.unbox_int(args)),
            _ => self.two_deed(alloc, primitive, args),
        }
    }

    /// Answers the `int` that the one argument, a native integer, is.
    fn from_native(&self, args: &[CArg]) -> Result<Deed, Fault>
        ensures { done_by result ≡ done_or tagged_effect (one_native (map word_of self.now.top.vars) args.now) }
    {
        match self.one_native(args) {
            None => Err(Fault::Kind),
            Some(n) => Ok(int_deed(i128::from(n))),
        }
    }

    /// Answers the `int` that the one argument, a truth, is.
    fn from_truth(&self, args: &[CArg]) -> Result<Deed, Fault>
        ensures { done_by result
            ≡ done_or (λ n. tagged_effect (pos n)) (one_char (map word_of self.now.top.vars) args.now) }
    {
        match self.one_char(args) {
            None => Err(Fault::Kind),
            Some(n) => Ok(int_deed(i128::from(n))),
        }
    }

    /// Answers the `int` that the one argument, a number in a cell, is.
    fn unbox_int(&self, args: &[CArg]) -> Result<Deed, Fault>
        ensures done { done_by result ≡ then_done (λ q. unboxed q.0 q.1)
            (one_boxed (numbered self.now.cells) (map word_of self.now.top.vars) args.now) }
        ensures ours { IfOk result (IsOurDeed self.now.cells) }
    {
        match self.one_boxed(args) {
            Err(fault) => Err(fault),
            Ok((key, n)) => Ok(unboxed_deed(key, n)),
        }
    }

    /// What a primitive on one `int` does.
    fn one_deed(
        &self,
        alloc: Global,
        primitive: TaggedPrim,
        args: &[CArg],
    ) -> Result<Result<Deed, Fault>, Memory>
        ensures { IfOk result (λ deed. done_by deed
            ≡ then_tried (one_done primitive) (one_int (numbered self.now.cells) (map word_of self.now.top.vars) args.now)) }
    {
        match self.one_int(args) {
            Err(fault) => Ok(Err(fault)),
            Ok(n) => of_one(alloc, primitive, n),
        }
    }

    /// What a primitive on two `int`s does.
    fn two_deed(
        &self,
        alloc: Global,
        primitive: TaggedPrim,
        args: &[CArg],
    ) -> Result<Result<Deed, Fault>, Memory>
        ensures { IfOk result (λ deed. done_by deed
            ≡ then_tried (λ q. two_done primitive q.0 q.1) (two_ints (numbered self.now.cells) (map word_of self.now.top.vars) args.now)) }
    {
        match self.two_ints(args) {
            Err(fault) => Ok(Err(fault)),
            Ok((a, b)) => of_two(alloc, primitive, a, b),
        }
    }

    /// The one `int` that the arguments are.
    fn one_int(&self, args: &[CArg]) -> Result<i128, Fault>
        ensures { result ≡ one_int (numbered self.now.cells) (map word_of self.now.top.vars) args.now }
    {
        let n = self.int_argument(args.first())?;
        if args.len() > 1 {
            return Err(Fault::Kind);
        }
        Ok(n)
    }

    /// The two `int`s that the arguments are.
    fn two_ints(&self, args: &[CArg]) -> Result<(i128, i128), Fault>
        ensures { result ≡ two_ints (numbered self.now.cells) (map word_of self.now.top.vars) args.now }
    {
        let a = self.int_argument(args.first())?;
        let b = self.int_argument(args.get(1))?;
        if args.len() > 2 {
            return Err(Fault::Kind);
        }
        Ok((a, b))
    }

    /// The `int` that an argument is.
    pub fn int_argument(&self, argument: Option<&CArg>) -> Result<i128, Fault>
        ensures { result ≡ int_at (numbered self.now.cells) (map word_of self.now.top.vars) (option_copied argument.entry) }
    {
        let Some(CArg::Var(x)) = argument else {
            return Err(Fault::Kind);
        };
        match self.top.vars.get(*x) {
            Some(Word::Short(n)) => Ok(i128::from(*n)),
            Some(Word::Big(key)) => self.int_in(*key),
            _ => Err(Fault::Kind),
        }
    }

    /// The number that a cell holds.
    fn int_in(&self, key: Key) -> Result<i128, Fault>
        requires { IsOurs self.now.cells (name_of key) }
        ensures { result ≡ int_held (content_at (numbered self.now.cells) (number_of key)) }
    {
        let Ok(content) = self.cells.content(key) else {
            return Err(Fault::Dead);
        };
        match content {
            Content::Int(n) => Ok(*n),
            _ => Err(Fault::Kind),
        }
    }
}

/// What comes of a primitive on one `int`.
fn of_one(alloc: Global, primitive: TaggedPrim, n: i128) -> Result<Result<Deed, Fault>, Memory>
    ensures { IfOk result (λ deed. done_by deed ≡ one_done primitive n) }
{
    match primitive {
        TaggedPrim::Negate => Ok(Ok(int_or_failure(alloc, int_neg(n))?)),
        TaggedPrim::AsInt64 => Ok(Ok(native_or_failure(alloc, n)?)),
        TaggedPrim::Str => Ok(Ok(Deed::MakesText(number_text(alloc, n)?))),
        _ => Ok(Err(Fault::Kind)),
    }
}

/// What comes of a primitive on two `int`s.
fn of_two(
    alloc: Global,
    primitive: TaggedPrim,
    a: i128,
    b: i128,
) -> Result<Result<Deed, Fault>, Memory>
    ensures { IfOk result (λ deed. done_by deed ≡ two_done primitive a b) }
{
    match primitive {
        TaggedPrim::Eq => Ok(Ok(Deed::Says(truth(a == b)))),
        TaggedPrim::Lt => Ok(Ok(Deed::Says(truth(a < b)))),
        TaggedPrim::Le => Ok(Ok(Deed::Says(truth(a <= b)))),
        _ => match computed(primitive, a, b) {
            None => Ok(Err(Fault::Kind)),
            Some(outcome) => Ok(Ok(int_or_failure(alloc, outcome)?)),
        },
    }
}

/// The word that comes of a primitive on two short `int`s, where it is a truth or a short `int` itself.
fn of_shorts(primitive: TaggedPrim, a: i64, b: i64) -> Option<Word>
    ensures { IfSome result (λ word. two_done primitive a b ≡ Ok (Says (word_of word))) }
{
    match primitive {
        TaggedPrim::Add => short_word(i128::from(a) + i128::from(b)),
        TaggedPrim::Subtract => short_word(i128::from(a) - i128::from(b)),
        TaggedPrim::Eq => Some(truth(a == b)),
        TaggedPrim::Lt => Some(truth(a < b)),
        TaggedPrim::Le => Some(truth(a <= b)),
        _ => None,
    }
}

/// The word of a short `int`, where it is one.
fn short_word(n: i128) -> Option<Word>
    ensures { IfSome result (λ word. tagged_effect n ≡ Says (word_of word)) }
{
    if is_short(n) {
        Some(Word::Short(n as i64))
    } else {
        None
    }
}

/// The result of a primitive that computes an `int` from two.
fn computed(primitive: TaggedPrim, a: i128, b: i128) -> Option<Result<i128, Arith>>
    ensures { result ≡ computed primitive a b }
{
    match primitive {
        TaggedPrim::Add => Some(int_add(a, b)),
        TaggedPrim::Subtract => Some(int_sub(a, b)),
        TaggedPrim::Multiply => Some(int_mul(a, b)),
        TaggedPrim::FloorDivide => Some(int_floor_div(a, b)),
        TaggedPrim::Remainder => Some(int_modulo(a, b)),
        TaggedPrim::Lshift => Some(int_shl(a, b)),
        TaggedPrim::Rshift => Some(int_shr(a, b)),
        _ => None,
    }
}

/// Answers an `int`, or fails.
fn int_or_failure(alloc: Global, outcome: Result<i128, Arith>) -> Result<Deed, Memory>
    ensures { IfOk result (λ deed. effect_of deed ≡ tagged_or outcome) }
{
    match outcome {
        Ok(n) => Ok(int_deed(n)),
        Err(why) => {
            let text = Text::from_str(alloc, text_of("integer is past 128 bits", why))?;
            Ok(Deed::Fails(Word::TagError, class_of(why), text))
        }
    }
}

/// Answers a native integer, or fails.
fn native_or_failure(alloc: Global, n: i128) -> Result<Deed, Memory>
    ensures { IfOk result (λ deed. effect_of deed ≡ fitted (int_to_i64 n)) }
{
    match int_to_i64(n) {
        Ok(native) => Ok(Deed::Says(Word::I64(native))),
        Err(_) => {
            let text = Text::from_str(alloc, "integer does not fit in i64")?;
            Ok(Deed::Fails(Word::I64(-113), ExcClass::OverflowError, text))
        }
    }
}

/// Answers an `int`: a short word where it is short, and else in a new cell.
pub fn int_deed(n: i128) -> Deed
    ensures { effect_of result ≡ tagged_effect n }
{
    if is_short(n) {
        Deed::Says(Word::Short(n as i64))
    } else {
        Deed::MakesInt(n)
    }
}

/// Answers the `int` that the number in a cell is: a short word where it is short, and else one that refers to the cell.
fn unboxed_deed(key: Key, n: i128) -> Deed
    ensures done { effect_of result ≡ unboxed (number_of key) n }
    ensures ours { (cells : Cells Placed) → IsOurs cells (name_of key) → IsOurDeed cells result }
{
    if is_short(n) {
        Deed::Says(Word::Short(n as i64))
    } else {
        Deed::Shares(Word::Big(key))
    }
}

/// Answers the `int` that the one argument writes, which is no short one.
fn from_text(args: &[CArg]) -> Result<Deed, Fault>
    ensures { done_by result ≡ done_or MakesInt (number_written (only_text args.now)) }
{
    let Some(text) = only_text(args) else {
        return Err(Fault::Kind);
    };
    match long_decimal(text) {
        None => Err(Fault::Kind),
        Some(n) => Ok(Deed::MakesInt(n)),
    }
}
