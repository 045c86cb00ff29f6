//! Calls of primitives on exceptions.
ghost use Rattle.std.specs.Prelude.{◌≡◌, ◌+◌, ◌^◌, ◌<◌, true, IfOk, MatchResult};
ghost use Rattle.value_core.specs.Exceptions.{thrown};
ghost use Rattle.c_core.specs.declared.code.Code as machine_code;
ghost use Rattle.c_core.specs.declared.code.Kind.TheVariants.{Object};
ghost use Rattle.c_core.specs.declared.primitive.Primitive.TheVariants as prim;
ghost use Rattle.c_core.specs.Arguments.{Argument, Cell};
ghost use Rattle.c_core.specs.Machine.{StrCell, ExcCell};
ghost use Rattle.c_core.specs.Primitives.{AText, AnException};
ghost use Rattle.c_core.specs.Step.{Next, Ends, Faulted, if_variable};
ghost use Rattle.c_runner_deeds.specs.Deeds.{Calls};
ghost use Rattle.c_runner_deeds.specs.Parts.{exception_made, exception_shown};
ghost use Rattle.c_runner_deeds.specs.States.{Rest, Follows, IsSmall, state_of, seen};
ghost use Rattle.cell_heap.specs.Contents.{number_of};
ghost use Rattle.cell_heap.specs.Ours.{IsOurs};
ghost use Rattle.cell_heap.specs.Contents.{name_of};

use crate::ending::Ending;
use crate::state::State;
use c_core::{CArg, ExcPrim, Fault};
use cell_heap::{Content, Key, Letters, Word};
use value_core::{ExcClass, Memory, Text};

impl State {
    /// Calls a primitive on exceptions.
    pub fn call_exception(
        &mut self,
        operation: ExcPrim,
        target: Option<usize>,
        args: &[CArg],
    ) -> Result<Option<Ending>, Memory>
        requires small { IsSmall (seen self.old) }
        requires place { self.old.top.place + 1 < 2 ^ 64 }
        ensures { Calls (prim.Exc operation) target args.now (seen self.old) (seen self.new) result }
    {
        match operation {
            ExcPrim::New => match args.first() {
                Some(CArg::Text(class)) => match args.get(1) {
                    Some(CArg::Var(x)) => {
                        self.make_exception(target, class.as_str(), *x, args.len() == 2)
                    }
                    _ => Ok(Some(Ending::Fault(Fault::Kind))),
                },
                _ => Ok(Some(Ending::Fault(Fault::Kind))),
            },
            ExcPrim::Str => match args.first() {
                Some(CArg::Var(x)) => self.show_exception(target, *x, args.len() == 1),
                _ => Ok(Some(Ending::Fault(Fault::Kind))),
            },
        }
    }

    /// Makes an exception of a class by its name and a text. The text is tested before the number of the arguments.
    fn make_exception(
        &mut self,
        target: Option<usize>,
        class: &str,
        x: usize,
        is_alone: bool,
    ) -> Result<Option<Ending>, Memory>
        requires small { IsSmall (seen self.old) }
        requires place { self.old.top.place + 1 < 2 ^ 64 }
        ensures { IfOk result (λ ending. (code : machine_code.Code) →
            Follows (exception_made code target class.now x is_alone) ending (seen self.old) (seen self.new)) }
    {
        let text = match self.text_at(x) {
            Err(fault) => return Ok(Some(Ending::Fault(fault))),
            Ok(found) => found.1.clone()?,
        };
        if !is_alone {
            return Ok(Some(Ending::Fault(Fault::Kind)));
        }
        match ExcClass::named(class) {
            None => Ok(Some(Ending::Fault(Fault::Kind))),
            Some(class) => self.make_cell(target, Content::Exc(class, text)),
        }
    }

    /// Makes a cell with the text of an exception. The exception is tested before the number of the arguments.
    fn show_exception(
        &mut self,
        target: Option<usize>,
        x: usize,
        is_alone: bool,
    ) -> Result<Option<Ending>, Memory>
        requires small { IsSmall (seen self.old) }
        requires place { self.old.top.place + 1 < 2 ^ 64 }
        ensures { IfOk result (λ ending. (code : machine_code.Code) →
            Follows (exception_shown code target x is_alone) ending (seen self.old) (seen self.new)) }
    {
        let text = match self.exception_at(x) {
            Err(fault) => return Ok(Some(Ending::Fault(fault))),
            Ok(found) => found.2.clone()?,
        };
        if !is_alone {
            return Ok(Some(Ending::Fault(Fault::Kind)));
        }
        self.make_cell(target, Content::Str(Letters::of(text)))
    }

    /// The text that a variable holds, with its cell.
    fn text_at(&self, x: usize) -> Result<(Key, &Text), Fault>
        ensures { (rest : Rest) (go : Argument → Next) →
            (let s = state_of rest (seen self.now) in
            MatchResult result
            (λ found. if_variable true s Object AText x go ≡ go (Cell (number_of found.0) (StrCell found.1.now)))
            (λ why. if_variable true s Object AText x go ≡ Ends (Faulted why) s)) }
    {
        let Some(word) = self.top.vars.get(x) else {
            return Err(Fault::Kind);
        };
        let Word::Cell(key) = *word else {
            return Err(Fault::Kind);
        };
        let Ok(content) = self.cells.content(key) else {
            return Err(Fault::Dead);
        };
        match content {
            Content::Str(text) => Ok((key, text.as_text())),
            _ => Err(Fault::Kind),
        }
    }

    /// The exception that a variable holds, by its class and its text, with its cell.
    pub fn exception_at(&self, x: usize) -> Result<(Key, ExcClass, &Text), Fault>
        ensures found { (rest : Rest) (go : Argument → Next) →
            (let s = state_of rest (seen self.now) in
            MatchResult result
            (λ found. if_variable true s Object AnException x go ≡ go (Cell (number_of found.0) (ExcCell (thrown found.1 found.2.now))))
            (λ why. if_variable true s Object AnException x go ≡ Ends (Faulted why) s)) }
        ensures ours { IfOk result (λ found. IsOurs self.now.cells (name_of found.0)) }
    {
        let Some(word) = self.top.vars.get(x) else {
            return Err(Fault::Kind);
        };
        let Word::Cell(key) = *word else {
            return Err(Fault::Kind);
        };
        let Ok(content) = self.cells.content(key) else {
            return Err(Fault::Dead);
        };
        match content {
            Content::Exc(class, text) => Ok((key, *class, text)),
            _ => Err(Fault::Kind),
        }
    }
}
