//! The call that writes.
ghost use Rattle.std.specs.Prelude.{ℕ, ◌+◌, ◌^◌, ◌<◌, true, Option, IfOk};
ghost use Rattle.c_core.specs.declared.code.Code as machine_code;
ghost use Rattle.c_core.specs.declared.primitive.IoPrim.TheVariants as io;
ghost use Rattle.c_core.specs.declared.primitive.Primitive.TheVariants as prim;
ghost use Rattle.c_core.specs.Step.{primitive_step};
ghost use Rattle.c_runner_deeds.specs.Parts.{written};
ghost use Rattle.c_runner_deeds.specs.States.{Follows, seen};

use crate::ending::Ending;
use crate::state::State;
use c_core::{CArg, Fault};
use cell_heap::{Content, Word};
use value_core::Memory;

impl State {
    /// Calls the primitive that writes.
    pub fn call_write(&mut self, args: &[CArg]) -> Result<Option<Ending>, Memory>
        requires place { self.old.top.place + 1 < 2 ^ 64 }
        ensures { IfOk result (λ ending. (code : machine_code.Code) (target : Option ℕ) → Follows
            (λ s. primitive_step true s code target args.now (prim.Io io.Write)) ending (seen self.old) (seen self.new)) }
    {
        match args.first() {
            Some(CArg::Var(x)) => self.write(*x, args.len() == 1),
            _ => Ok(Some(Ending::Fault(Fault::Kind))),
        }
    }

    /// Writes the text that an object is to the output. The object is tested before the number of the arguments.
    fn write(&mut self, x: usize, is_alone: bool) -> Result<Option<Ending>, Memory>
        requires { self.old.top.place + 1 < 2 ^ 64 }
        ensures { IfOk result (λ ending. (code : machine_code.Code) (target : Option ℕ) →
            Follows (written code target x is_alone) ending (seen self.old) (seen self.new)) }
    {
        let Some(word) = self.top.vars.get(x) else {
            return Ok(Some(Ending::Fault(Fault::Kind)));
        };
        let Word::Cell(key) = *word else {
            return Ok(Some(Ending::Fault(Fault::Kind)));
        };
        let Ok(content) = self.cells.content(key) else {
            return Ok(Some(Ending::Fault(Fault::Dead)));
        };
        let Content::Str(text) = content else {
            return Ok(Some(Ending::Fault(Fault::Kind)));
        };
        if !is_alone {
            return Ok(Some(Ending::Fault(Fault::Kind)));
        }
        self.output.add(text.as_str())?;
        self.top.place += 1;
        Ok(None)
    }
}
