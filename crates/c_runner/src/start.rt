//! Where a run begins.
ghost use Rattle.std.specs.Prelude.{◌≡◌, [], ◌++◌, map, None, IfOk, OnOk};
ghost use Rattle.std.specs.Option.{option_copied};
ghost use Rattle.value_core.specs.Items.{Items};
ghost use Rattle.c_core.specs.Functions.{error_word};
ghost use Rattle.c_core.specs.Run.{first_words, start};
ghost use Rattle.c_runner_deeds.specs.States.{first_rest, state_of, seen};
ghost use Rattle.cell_heap.specs.Contents.{word_of, words_refs};

use c_core::{CFunc, Code, Kind};
use c_runner_deeds::{Cells, Frame, Output, State, error_of, unset};
use c_runner_ledger::Ledger;
use cell_heap::Word;
use std::alloc::Global;
use value_core::{Many, Memory, Name};

/// Where the run of a code for so many turns begins: in its last function.
pub(crate) fn start(alloc: Global, code: &Code, turns: u64) -> Result<State, Memory>
    ensures { IfOk result (λ state. (items : Items) →
        state_of (first_rest items) (seen state) ≡ start code.now turns items) }
{
    let func = code.funcs.len().saturating_sub(1);
    let vars = first_vars(alloc, code.funcs.get(func))?;
    let top = Frame {
        func,
        place: 0,
        vars,
        ledger: Ledger::new(alloc),
        into: None,
    };
    Ok(State {
        cells: Cells::new(alloc),
        top,
        below: Many::new(alloc),
        globals: unset(alloc, code.globals.as_slice())?,
        pending: None,
        output: Output::new(alloc),
        turns,
    })
}

/// The error values with which the variables of a function begin.
fn first_vars(alloc: Global, function: Option<&CFunc>) -> Result<Many<Word>, Memory>
    ensures words { IfOk result (λ vars. map word_of vars ≡ first_words (option_copied function.entry)) }
    ensures plain { IfOk result (λ vars. words_refs vars ≡ []) }
{
    let mut words = Many::new(alloc);
    if let Some(function) = function {
        push_error_values(&mut words, function.vars.as_slice())?;
    }
    Ok(words)
}

/// Adds the error values of variables.
pub(crate) fn push_error_values(words: &mut Many<Word>, vars: &[(Name, Kind)]) -> Result<(), Memory>
    ensures words { OnOk result (map word_of words.new ≡ map word_of words.old ++ map (λ v. error_word v.1) vars.now) }
    ensures plain { OnOk result (words_refs words.new ≡ words_refs words.old) }
{
    for var in vars {
        words.push(error_of(var.1))?;
    }
    Ok(())
}
