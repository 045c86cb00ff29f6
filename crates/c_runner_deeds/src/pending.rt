//! Calls of primitives on the exception that is pending.
ghost use Rattle.std.specs.Prelude.{◌≡◌, ℕ, ◌+◌, ◌^◌, ◌<◌, true, [], Option, Some, IfOk};
ghost use Rattle.std.specs.Option.{option_map, option_copied};
ghost use Rattle.value_core.specs.Exceptions.{class_named};
ghost use Rattle.c_core.specs.declared.code.Code as machine_code;
ghost use Rattle.c_core.specs.declared.primitive.Primitive.TheVariants as prim;
ghost use Rattle.c_core.specs.Step as machine_step;
ghost use Rattle.c_core.specs.Step.{applied, caught, matched, pending_exception};
ghost use Rattle.c_runner_deeds.specs.Deeds.{Calls};
ghost use Rattle.c_runner_deeds.specs.Parts.{object_set, only_text};
ghost use Rattle.c_runner_deeds.specs.States.{Rest, Follows, IsSmall, state_of, seen};

use crate::cells::number_of;
use crate::ending::Ending;
use crate::state::State;
use crate::words::truth;
use c_core::{CArg, ErrPrim, Fault};
use cell_heap::{Content, Word};
use std::alloc::Global;
use value_core::{ExcClass, Memory, Text, is_under};

impl State {
    /// Calls a primitive on the exception that is pending.
    pub fn call_error(
        &mut self,
        alloc: Global,
        operation: ErrPrim,
        target: Option<usize>,
        args: &[CArg],
    ) -> Result<Option<Ending>, Memory>
        requires small { IsSmall (seen self.old) }
        requires place { self.old.top.place + 1 < 2 ^ 64 }
        ensures { Calls (prim.Err operation) target args.now (seen self.old) (seen self.new) result }
    {
        match operation {
            ErrPrim::SetObject => match args.first() {
                Some(CArg::Var(x)) => Ok(self.set_pending(*x, args.len() == 1)),
                _ => Ok(Some(Ending::Fault(Fault::Kind))),
            },
            ErrPrim::Unbound => match args {
                [CArg::Text(name)] => {
                    let text = unbound(alloc, name.as_str())?;
                    self.fail(target, Word::Null, ExcClass::UnboundLocalError, text)
                }
                _ => Ok(Some(Ending::Fault(Fault::Kind))),
            },
            ErrPrim::Occurred => {
                if args.is_empty() {
                    let is_pending = self.pending.is_some();
                    Ok(self.answer(target, Some(truth(is_pending))))
                } else {
                    Ok(Some(Ending::Fault(Fault::Kind)))
                }
            }
            ErrPrim::Matches => match only_text(args) {
                None => Ok(Some(Ending::Fault(Fault::Kind))),
                Some(class) => Ok(self.match_pending(target, class)),
            },
            ErrPrim::Catch => {
                if args.is_empty() {
                    self.catch_pending(target)
                } else {
                    Ok(Some(Ending::Fault(Fault::Kind)))
                }
            }
        }
    }

    /// Lets the exception be pending that a variable holds, whose reference the frame is to own. The exception is tested before
    /// the number of the arguments.
    fn set_pending(&mut self, x: usize, is_alone: bool) -> Option<Ending>
        requires { self.old.top.place + 1 < 2 ^ 64 }
        ensures { (code : machine_code.Code) (target : Option ℕ) →
            Follows (object_set code target x is_alone) result (seen self.old) (seen self.new) }
    {
        let key = match self.exception_at(x) {
            Err(fault) => return Some(Ending::Fault(fault)),
            Ok(found) => found.0,
        };
        if !self.top.ledger.owns(number_of(key)) {
            return Some(Ending::Fault(Fault::NotOwned));
        }
        if !is_alone {
            return Some(Ending::Fault(Fault::Kind));
        }
        self.top.ledger.take(number_of(key));
        self.pending = Some(key);
        self.top.place += 1;
        None
    }

    /// Answers whether the class of the exception that is pending is the named one, or stands under it.
    fn match_pending(&mut self, target: Option<usize>, class: &str) -> Option<Ending>
        requires { self.old.top.place + 1 < 2 ^ 64 }
        ensures { Follows (λ s. applied true s target s.top.ledger []
            (matched (class_named class.now) (pending_exception s))) result (seen self.old) (seen self.new) }
    {
        let Some(class) = ExcClass::named(class) else {
            return Some(Ending::Fault(Fault::Kind));
        };
        let Some(raised) = self.pending_class() else {
            return Some(Ending::Fault(Fault::Kind));
        };
        self.answer(target, Some(truth(is_under(raised, class))))
    }

    /// The class of the exception that is pending, if one is.
    fn pending_class(&self) -> Option<ExcClass>
        ensures { (rest : Rest) → result ≡ option_map (λ e. e.class) (pending_exception (state_of rest (seen self.now))) }
    {
        let Some(key) = self.pending else {
            return None;
        };
        match self.cells.content(key) {
            Ok(Content::Exc(class, _)) => Some(*class),
            _ => None,
        }
    }

    /// Writes the exception that is pending to the target. It is pending no more, and the frame owns it.
    fn catch_pending(&mut self, target: Option<usize>) -> Result<Option<Ending>, Memory>
        requires small { IsSmall (seen self.old) }
        requires place { self.old.top.place + 1 < 2 ^ 64 }
        ensures { IfOk result (λ ending. Follows
            (λ s. applied true s target s.top.ledger [] (caught s.pending)) ending (seen self.old) (seen self.new)) }
    {
        let Some(key) = self.pending else {
            return Ok(Some(Ending::Fault(Fault::Kind)));
        };
        self.top.ledger.add(number_of(key))?;
        self.pending = None;
        self.top.set_target(target, Word::Cell(key));
        self.top.place += 1;
        Ok(None)
    }
}

/// The one text that the arguments are.
pub(crate) fn only_text(args: &[CArg]) -> Option<&str>
    ensures { option_copied result ≡ only_text args.now }
{
    match args {
        [CArg::Text(text)] => Some(text.as_str()),
        _ => None,
    }
}

/// What the exception says that a read of an unset local variable makes.
fn unbound(alloc: Global, name: &str) -> Result<Text, Memory>
    ensures { IfOk result (λ text. text ≡ (machine_step.unbound name.now).text) }
{
    Ok(Text::from_string(format!(in alloc;
        "local variable '{name}' referenced before assignment"
    )?))
}
