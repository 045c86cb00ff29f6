//! Calls of primitives on native integers.
ghost use Rattle.std.specs.Prelude.{◌≡◌, ℕ, ◌+◌, ◌^◌, ◌<◌, true, map, List, [], IfOk, IfSome};
ghost use Rattle.std.specs.Option.{option_map};
ghost use Rattle.value_core.specs.Arithmetic.{int_to_i64};
ghost use Rattle.c_core.specs.declared.fault.Fault.TheVariants as fault;
ghost use Rattle.c_core.specs.declared.primitive.Primitive.TheVariants as prim;
ghost use Rattle.c_core.specs.Step.{if_some, applied, exception_past, native_or, native_in};
ghost use Rattle.c_runner_deeds.specs.Deeds as deeds;
ghost use Rattle.c_runner_deeds.specs.Deeds.{Calls, done_by, box_done, unbox_done};
ghost use Rattle.c_runner_deeds.specs.Parts.{native_at, one_native, two_natives, effect_of, two_effect, int64_effect};
ghost use Rattle.c_runner_deeds.specs.States.{Follows, IsSmall, seen};
ghost use Rattle.cell_heap.specs.Contents.{word_of};
ghost use Rattle.cell_heap.specs.Numbered.{numbered};
ghost use Rattle.c_runner_deeds.specs.Ours.{IsOurWord};

use crate::deed::Deed;
use crate::ending::Ending;
use crate::state::State;
use crate::words::truth;
use c_core::{CArg, Fault, Int64Prim};
use cell_heap::{Content, Letters, Word};
use itoa::Buffer;
use std::alloc::Global;
use value_core::{
    Arith, ExcClass, Memory, Text, i64_add, i64_floor_div, i64_modulo, i64_mul, i64_neg, i64_shl,
    i64_shr, i64_sub, int_to_i64,
};

impl State {
    /// Calls a primitive on native integers.
    pub fn call_int64(
        &mut self,
        alloc: Global,
        primitive: Int64Prim,
        target: Option<usize>,
        args: &[CArg],
    ) -> Result<Option<Ending>, Memory>
        requires small { IsSmall (seen self.old) }
        requires place { self.old.top.place + 1 < 2 ^ 64 }
        ensures { Calls (prim.Int64 primitive) target args.now (seen self.old) (seen self.new) result }
    {
        match primitive {
            Int64Prim::Str => match self.one_native(args) {
                None => Ok(Some(Ending::Fault(Fault::Kind))),
                Some(n) => {
                    let text = Text::from_str(alloc, Buffer::new().format(n))?;
                    self.make_cell(target, Content::Str(Letters::of(text)))
                }
            },
            Int64Prim::Box => {
                let deed = self.box_native(args);
                self.perform_deed(target, deed)
            }
            Int64Prim::Unbox => {
                let deed = self.unbox_native(args);
                self.perform_deed(target, deed)
            }
            _ => {
                let outcome = self.int64_outcome(primitive, args);
                self.settle(alloc, target, outcome)
            }
        }
    }

    /// Answers the one argument, a native integer, in a new cell.
    fn box_native(&self, args: &[CArg]) -> Result<Deed, Fault>
        ensures { done_by result ≡ box_done (map word_of self.now.top.vars) args.now }
    {
        match self.one_native(args) {
            None => Err(Fault::Kind),
            Some(n) => Ok(Deed::MakesNumber(i128::from(n))),
        }
    }

    /// Answers the native integer that the one argument, a number in a cell, is.
    fn unbox_native(&self, args: &[CArg]) -> Result<Deed, Fault>
        ensures { done_by result ≡ unbox_done (numbered self.now.cells) (map word_of self.now.top.vars) args.now }
    {
        match self.one_boxed(args) {
            Err(fault) => Err(fault),
            Ok((_, n)) => Ok(native_deed(n)),
        }
    }

    /// Writes what a primitive on native integers answers to its target, or fails. Without either its arguments were wrong.
    fn settle(
        &mut self,
        alloc: Global,
        target: Option<usize>,
        outcome: Option<Result<Word, Arith>>,
    ) -> Result<Option<Ending>, Memory>
        requires small { IsSmall (seen self.old) }
        requires place { self.old.top.place + 1 < 2 ^ 64 }
        requires ours { IfSome outcome (λ o. IfOk o (IsOurWord self.old.cells)) }
        ensures { IfOk result (λ ending. Follows (λ s. if_some true s fault.Kind (option_map effect_of outcome)
            (applied true s target s.top.ledger [])) ending (seen self.old) (seen self.new)) }
    {
        match outcome {
            None => Ok(Some(Ending::Fault(Fault::Kind))),
            Some(Ok(word)) => Ok(self.answer(target, Some(word))),
            Some(Err(why)) => {
                let text = Text::from_str(alloc, text_of("integer does not fit in i64", why))?;
                self.fail(target, Word::I64(-113), class_of(why), text)
            }
        }
    }

    /// What comes of a primitive on native integers, if its arguments are right and it makes no cell.
    fn int64_outcome(&self, primitive: Int64Prim, args: &[CArg]) -> Option<Result<Word, Arith>>
        ensures { option_map effect_of result ≡ int64_effect primitive (map word_of self.now.top.vars) args.now }
    {
        match primitive {
            Int64Prim::Str => None,
            Int64Prim::Negate => match self.one_native(args) {
                None => None,
                Some(n) => Some(Ok(Word::I64(i64_neg(n)))),
            },
            Int64Prim::FromBool => match self.one_char(args) {
                None => None,
                Some(n) => Some(Ok(Word::I64(i64::from(n)))),
            },
            _ => match self.two_natives(args) {
                None => None,
                Some((a, b)) => two_outcome(primitive, a, b),
            },
        }
    }

    /// The native integer that an argument is, if it is one.
    fn native(&self, argument: &CArg) -> Option<i64>
        ensures { result ≡ native_at (map word_of self.now.top.vars) argument.now }
    {
        let CArg::Var(x) = argument else {
            return None;
        };
        match self.top.vars.get(*x) {
            Some(Word::I64(n)) => Some(*n),
            _ => None,
        }
    }

    /// The one native integer that the arguments are.
    pub fn one_native(&self, args: &[CArg]) -> Option<i64>
        ensures { result ≡ one_native (map word_of self.now.top.vars) args.now }
    {
        match args {
            [argument] => self.native(argument),
            _ => None,
        }
    }

    /// The two native integers that the arguments are.
    fn two_natives(&self, args: &[CArg]) -> Option<(i64, i64)>
        ensures { result ≡ two_natives (map word_of self.now.top.vars) args.now }
    {
        match args {
            [first, second] => match self.native(first) {
                None => None,
                Some(a) => match self.native(second) {
                    None => None,
                    Some(b) => Some((a, b)),
                },
            },
            _ => None,
        }
    }
}

/// What comes of a primitive on two native integers.
fn two_outcome(primitive: Int64Prim, a: i64, b: i64) -> Option<Result<Word, Arith>>
    ensures { option_map effect_of result ≡ two_effect primitive a b }
{
    match primitive {
        Int64Prim::Add => Some(Ok(Word::I64(i64_add(a, b)))),
        Int64Prim::Subtract => Some(Ok(Word::I64(i64_sub(a, b)))),
        Int64Prim::Multiply => Some(Ok(Word::I64(i64_mul(a, b)))),
        Int64Prim::FloorDivide => Some(in_word(i64_floor_div(a, b))),
        Int64Prim::Remainder => Some(in_word(i64_modulo(a, b))),
        Int64Prim::Lshift => Some(in_word(i64_shl(a, b))),
        Int64Prim::Rshift => Some(in_word(i64_shr(a, b))),
        Int64Prim::Eq => Some(Ok(truth(a == b))),
        Int64Prim::Lt => Some(Ok(truth(a < b))),
        Int64Prim::Le => Some(Ok(truth(a <= b))),
        Int64Prim::Negate
        | Int64Prim::FromBool
        | Int64Prim::Str
        | Int64Prim::Box
        | Int64Prim::Unbox => None,
    }
}

/// Answers a number as a native integer, which it has to fit.
fn native_deed(n: i128) -> Deed
    ensures { deeds.effect_of result ≡ native_in (int_to_i64 n) }
{
    match int_to_i64(n) {
        Ok(native) => Deed::Says(Word::I64(native)),
        Err(_) => Deed::Wrong,
    }
}

/// A result in a word.
fn in_word(number: Result<i64, Arith>) -> Result<Word, Arith>
    ensures { effect_of result ≡ native_or number }
{
    match number {
        Ok(n) => Ok(Word::I64(n)),
        Err(why) => Err(why),
    }
}

/// The class of the exception for an operation without a result.
pub(crate) fn class_of(why: Arith) -> ExcClass
    ensures { (past : List ℕ) → result ≡ (exception_past past why).class }
{
    match why {
        Arith::Overflow => ExcClass::OverflowError,
        Arith::ZeroDivisor => ExcClass::ZeroDivisionError,
        Arith::NegativeShift | Arith::OutOfRange => ExcClass::ValueError,
    }
}

/// And its text, where an overflow is said like this.
pub(crate) fn text_of(past: &'static str, why: Arith) -> &'static str
    ensures { result.now ≡ (exception_past past.now why).text }
{
    match why {
        Arith::Overflow => past,
        Arith::ZeroDivisor => "integer division or modulo by zero",
        Arith::NegativeShift => "negative shift count",
        Arith::OutOfRange => "shift count out of range",
    }
}
