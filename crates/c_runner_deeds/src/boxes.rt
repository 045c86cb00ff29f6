//! Calls of primitives on truths and on any object.
ghost use Rattle.std.specs.Prelude.{◌≡◌, ◌+◌, ◌^◌, ◌<◌, true, map, IfOk};
ghost use Rattle.c_core.specs.declared.primitive.Primitive.TheVariants as prim;
ghost use Rattle.c_core.specs.Step as machine_step;
ghost use Rattle.c_runner_deeds.specs.Deeds.{Calls, effect_of, done_by, then_done, one_object, truth_done, truth_in, bool_done, is_none_object, object_done};
ghost use Rattle.c_runner_deeds.specs.States.{IsSmall, seen};
ghost use Rattle.cell_heap.specs.Contents.{word_of};
ghost use Rattle.cell_heap.specs.Numbered.{numbered};

use crate::deed::Deed;
use crate::ending::Ending;
use crate::state::State;
use crate::words::truth;
use c_core::{BoolPrim, CArg, Fault, ObjectPrim};
use cell_heap::Word;
use std::alloc::Global;
use value_core::{Memory, Text};

impl State {
    /// Calls a primitive on truths.
    pub fn call_bool(
        &mut self,
        alloc: Global,
        primitive: BoolPrim,
        target: Option<usize>,
        args: &[CArg],
    ) -> Result<Option<Ending>, Memory>
        requires small { IsSmall (seen self.old) }
        requires place { self.old.top.place + 1 < 2 ^ 64 }
        ensures { Calls (prim.Bool primitive) target args.now (seen self.old) (seen self.new) result }
    {
        let deed = self.bool_deed(alloc, primitive, args)?;
        self.perform_deed(target, deed)
    }

    /// What a primitive on truths does, if its arguments are right.
    fn bool_deed(
        &self,
        alloc: Global,
        primitive: BoolPrim,
        args: &[CArg],
    ) -> Result<Result<Deed, Fault>, Memory>
        ensures { IfOk result (λ deed. done_by deed
            ≡ bool_done primitive (numbered self.now.cells) (map word_of self.now.top.vars) args.now) }
    {
        match primitive {
            BoolPrim::Unbox => Ok(self.unbox_truth(args)),
            BoolPrim::Not | BoolPrim::Str | BoolPrim::Box => match self.one_char(args) {
                None => Ok(Err(Fault::Kind)),
                Some(n) => Ok(Ok(truth_deed(alloc, primitive, n)?)),
            },
        }
    }

    /// Answers the truth that the one argument, an object, is.
    fn unbox_truth(&self, args: &[CArg]) -> Result<Deed, Fault>
        ensures { done_by result ≡ then_done truth_in (one_object (numbered self.now.cells) (map word_of self.now.top.vars) args.now) }
    {
        match self.one_object(args) {
            Err(fault) => Err(fault),
            Ok(word) => Ok(truth_of(word)),
        }
    }

    /// Calls a primitive on any object.
    pub fn call_object(
        &mut self,
        primitive: ObjectPrim,
        target: Option<usize>,
        args: &[CArg],
    ) -> Result<Option<Ending>, Memory>
        requires small { IsSmall (seen self.old) }
        requires place { self.old.top.place + 1 < 2 ^ 64 }
        ensures { Calls (prim.Object primitive) target args.now (seen self.old) (seen self.new) result }
    {
        let deed = self.object_deed(primitive, args);
        self.perform_deed(target, deed)
    }

    /// What a primitive on any object does, if its arguments are right.
    fn object_deed(&self, primitive: ObjectPrim, args: &[CArg]) -> Result<Deed, Fault>
        ensures { done_by result ≡ object_done primitive (numbered self.now.cells) (map word_of self.now.top.vars) args.now }
    {
        match primitive {
            ObjectPrim::IsNone => match self.one_object(args) {
                Err(fault) => Err(fault),
                Ok(word) => Ok(Deed::Says(truth(is_none(word)))),
            },
        }
    }
}

/// What a primitive on a truth does.
fn truth_deed(alloc: Global, primitive: BoolPrim, n: u8) -> Result<Deed, Memory>
    ensures { IfOk result (λ deed. effect_of deed ≡ truth_done primitive n) }
{
    match primitive {
        BoolPrim::Not => Ok(Deed::Says(truth(n == 0))),
        BoolPrim::Str => Ok(Deed::MakesText(Text::from_str(alloc, truth_text(n))?)),
        BoolPrim::Box => Ok(Deed::Says(truth_object(n))),
        BoolPrim::Unbox => Ok(Deed::Wrong),
    }
}

/// A truth as Python writes it.
fn truth_text(n: u8) -> &'static str
    ensures { result.now ≡ machine_step.truth_text n }
{
    if n == 0 { "False" } else { "True" }
}

/// A truth as an object.
fn truth_object(n: u8) -> Word
    ensures { word_of result ≡ machine_step.truth_object n }
{
    if n == 0 { Word::PyFalse } else { Word::PyTrue }
}

/// Answers the truth that an object is.
fn truth_of(word: Word) -> Deed
    ensures { effect_of result ≡ truth_in (word_of word) }
{
    match word {
        Word::PyTrue => Deed::Says(Word::Char(1)),
        Word::PyFalse => Deed::Says(Word::Char(0)),
        _ => Deed::Wrong,
    }
}

/// Whether an object is `None`.
fn is_none(word: Word) -> bool
    ensures { result ≡ is_none_object (word_of word) }
{
    match word {
        Word::PyNone => true,
        _ => false,
    }
}
