//! Calls of primitives on globals. The number of the global that a call names was found before the run.
ghost use Rattle.std.specs.Prelude.{◌≡◌, ℕ, ◌+◌, ◌^◌, ◌<◌, true, [], ◌∷◌, Option, length, slice_set, IfOk};
ghost use Rattle.c_core.specs.declared.primitive.Primitive.TheVariants as prim;
ghost use Rattle.c_core.specs.Arguments.{kind_of_global, number_of_global};
ghost use Rattle.c_core.specs.Machine.{set_refs};
ghost use Rattle.c_core.specs.Step as machine_step;
ghost use Rattle.c_core.specs.Step.{global_at, got, applied, primitive_step, next_line};
ghost use Rattle.c_core.specs.declared.code.CArg as machine_arg;
ghost use Rattle.c_core.specs.declared.code.Code as machine_code;
ghost use Rattle.c_core.specs.declared.primitive.GlobalPrim.TheVariants as global_prim;
ghost use Rattle.c_runner_deeds.specs.Parts.{global_set, global_of};
ghost use Rattle.c_runner_deeds.specs.States.{Rest, Follows, IsSmall, held_of, state_of, seen};
ghost use Rattle.cell_heap.specs.Ours.{AreOurs};
ghost use Rattle.c_runner_deeds.specs.Ours.{maybe_refs};

use crate::ending::Ending;
use crate::state::State;
use crate::stolen::give_word;
use crate::words::error_of;
use c_core::{CArg, Code, Fault, GlobalPrim};
use cell_heap::Word;
use std::alloc::Global;
use value_core::{ExcClass, Memory, Text};

impl State {
    /// Calls a primitive on the global of a number.
    pub fn call_global(
        &mut self,
        alloc: Global,
        code: &Code,
        operation: GlobalPrim,
        global: Option<usize>,
        target: Option<usize>,
        args: &[CArg],
    ) -> Result<Option<Ending>, Memory>
        requires small { IsSmall (seen self.old) }
        requires place { self.old.top.place + 1 < 2 ^ 64 }
        requires global { global ≡ global_of code.now args.now }
        ensures { IfOk result (λ ending. Follows
            (λ s. primitive_step true s code.now target args.now (prim.Global operation)) ending (seen self.old) (seen self.new)) }
    {
        match operation {
            GlobalPrim::Get => match args {
                [CArg::Global(name)] => self.get_global(alloc, code, name.as_str(), global, target),
                _ => Ok(Some(Ending::Fault(Fault::Kind))),
            },
            GlobalPrim::Set => match args.get(1) {
                None => Ok(Some(Ending::Fault(Fault::Kind))),
                Some(argument) => Ok(self.set_global(code, global, argument, args.len() == 2)),
            },
            GlobalPrim::Clear => {
                if args.len() == 1 {
                    Ok(self.clear_global(global))
                } else {
                    Ok(Some(Ending::Fault(Fault::Kind)))
                }
            }
        }
    }

    /// Reads a global. Where it is unset the call fails.
    fn get_global(
        &mut self,
        alloc: Global,
        code: &Code,
        name: &str,
        global: Option<usize>,
        target: Option<usize>,
    ) -> Result<Option<Ending>, Memory>
        requires small { IsSmall (seen self.old) }
        requires place { self.old.top.place + 1 < 2 ^ 64 }
        requires global { global ≡ number_of_global code.now name.now }
        ensures { IfOk result (λ ending. Follows (λ s. applied true s target s.top.ledger []
            (got name.now (kind_of_global code.now name.now) (global_at code.now s name.now))) ending (seen self.old) (seen self.new)) }
    {
        let Some(number) = global else {
            return Ok(Some(Ending::Fault(Fault::Kind)));
        };
        let Some(declared) = code.globals.get(number) else {
            return Ok(Some(Ending::Fault(Fault::Kind)));
        };
        let Some(held) = self.globals.get(number) else {
            return Ok(Some(Ending::Fault(Fault::Kind)));
        };
        match *held {
            Some(word) => self.share(target, word),
            None => {
                let text = not_defined(alloc, name)?;
                self.fail(target, error_of(declared.1), ExcClass::NameError, text)
            }
        }
    }

    /// Writes a global, which takes over the reference of the argument. The argument is tested before the number of the
    /// arguments.
    fn set_global(
        &mut self,
        code: &Code,
        global: Option<usize>,
        argument: &CArg,
        is_alone: bool,
    ) -> Option<Ending>
        requires { self.old.top.place + 1 < 2 ^ 64 }
        ensures { (first : machine_arg.CArg) (target : Option ℕ) → global ≡ global_of code.now (first ∷ []) →
            Follows (global_set code.now target first argument.now is_alone) result (seen self.old) (seen self.new) }
    {
        let Some(number) = global else {
            return Some(Ending::Fault(Fault::Kind));
        };
        let Some(declared) = code.globals.get(number) else {
            return Some(Ending::Fault(Fault::Kind));
        };
        let word = match self.stolen_word(declared.1, argument) {
            Err(fault) => return Some(Ending::Fault(fault)),
            Ok(word) => word,
        };
        if !is_alone {
            return Some(Ending::Fault(Fault::Kind));
        }
        let Some(held) = self.globals.get(number) else {
            return Some(Ending::Fault(Fault::Kind));
        };
        let held = *held;
        self.top.lose(word);
        self.store(number, held, Some(word));
        None
    }

    /// Unsets a global.
    fn clear_global(&mut self, global: Option<usize>) -> Option<Ending>
        requires { self.old.top.place + 1 < 2 ^ 64 }
        ensures { (code : machine_code.Code) (first : machine_arg.CArg) (target : Option ℕ) → global ≡ global_of code (first ∷ []) →
            Follows (λ s. primitive_step true s code target (first ∷ []) (prim.Global global_prim.Clear)) result (seen self.old) (seen self.new) }
    {
        let Some(number) = global else {
            return Some(Ending::Fault(Fault::Kind));
        };
        let Some(held) = self.globals.get(number) else {
            return Some(Ending::Fault(Fault::Kind));
        };
        let held = *held;
        self.store(number, held, None);
        None
    }

    /// Lets a global hold a word or nothing, and gives up what it held.
    fn store(&mut self, number: usize, held: Option<Word>, word: Option<Word>)
        requires place { self.old.top.place + 1 < 2 ^ 64 }
        requires within { number < length self.old.globals }
        requires held { AreOurs self.old.cells (maybe_refs held) }
        requires word { AreOurs self.old.cells (maybe_refs word) }
        ensures { (rest : Rest) →
            (let s = state_of rest (seen self.old) in
            state_of rest (seen self.new) ≡ next_line (machine_step.given true s (set_refs (held_of held ∷ []))
            (record s { globals = slice_set s.globals number (held_of word) }))) }
    {
        self.globals.set(number, word);
        give_word(&mut self.cells, held);
        self.top.place += 1;
    }
}

/// What the exception says that a read of an unset global makes.
fn not_defined(alloc: Global, name: &str) -> Result<Text, Memory>
    ensures { IfOk result (λ text. text ≡ (machine_step.not_defined name.now).text) }
{
    Ok(Text::from_string(format!(in alloc; "name '{name}' is not defined")?))
}
