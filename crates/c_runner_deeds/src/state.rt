ghost use Rattle.c_runner_deeds.specs.Ours.{KeysAreOurs, keys_once};

use crate::cells::{Cells, number_of};
use crate::output::Output;
use crate::words::kind_of;
use c_core::{Code, Kind};
use c_runner_ledger::Ledger;
use cell_heap::{Key, Word};
use value_core::{Many, Memory};

/// The state of a run, with the frame that runs and those that wait for it, the innermost last, what the globals hold, and
/// the exception that is pending. Each key in it is that of a cell of its own heap. `specs/States.antt` says which state of the
/// machine it is.
#[derive(Drop)]
pub struct State {
    pub cells: Cells,
    pub top: Frame,
    pub below: Many<Frame>,
    /// What each global of the code holds, nothing where it is unset.
    pub globals: Many<Option<Word>>,
    /// The cell of the exception that is pending, if one is.
    pub pending: Option<Key>,
    pub output: Output,
    pub turns: u64,
    pub ghost ours: { KeysAreOurs cells top.vars below globals pending } by { keys_once cells top.vars below globals pending },
}

/// A call that goes on: the number of its function, the place of its next line, its variables, what it owns, and the
/// caller's variable for its result, if there is one.
#[derive(Drop)]
pub struct Frame {
    pub func: usize,
    pub place: usize,
    pub vars: Many<Word>,
    pub ledger: Ledger,
    pub into: Option<usize>,
}

impl Frame {
    ghost use Rattle.std.specs.Prelude.{◌≡◌, ℕ, ◌^◌, ◌<◌, slice_set, OnOk};
    ghost use Rattle.c_core.specs.Cells.{times};
    ghost use Rattle.c_core.specs.Ledgers.{more_of};
    ghost use Rattle.c_core.specs.Machine.{refs_of};
    ghost use Rattle.c_runner_deeds.specs.Parts.{is_owned, left_by};
    ghost use Rattle.c_runner_deeds.specs.States.{with_target};
    ghost use Rattle.cell_heap.specs.Contents.{word_of};

    /// Writes a variable, if there is one of this number.
    pub fn set(&mut self, x: usize, word: Word)
        ensures { self.new ≡ record self.old { vars = slice_set self.old.vars x word } }
    {
        if x < self.vars.len() {
            self.vars.set(x, word);
        }
    }

    /// Writes the variable that a line has for its result, if it has one.
    pub fn set_target(&mut self, target: Option<usize>, word: Word)
        ensures { self.new ≡ with_target target word self.old }
    {
        match target {
            None => {}
            Some(x) => self.set(x, word),
        }
    }

    /// Owns the reference of a word, if it has one.
    pub fn own(&mut self, word: Word) -> Result<(), Memory>
        requires { (c : ℕ) → times self.old.ledger c < 2 ^ 128 }
        ensures owned { OnOk result (self.new ≡ record self.old { ledger = more_of (refs_of (word_of word)) self.old.ledger }) }
        ensures vars { self.new.vars ≡ self.old.vars }
    {
        match word {
            Word::Big(key) | Word::Cell(key) => self.ledger.add(number_of(key)),
            _ => Ok(()),
        }
    }

    /// Whether the reference of a word is owned, if it has one.
    pub fn owns(&self, word: Word) -> bool
        ensures { result ≡ is_owned (word_of word) self.now.ledger }
    {
        match word {
            Word::Big(key) | Word::Cell(key) => self.ledger.owns(number_of(key)),
            _ => true,
        }
    }

    /// Gives the reference of a word away, if it has one that the frame owns.
    pub fn lose(&mut self, word: Word)
        ensures { self.new ≡ record self.old { ledger = left_by (word_of word) self.old.ledger } }
    {
        match word {
            Word::Big(key) | Word::Cell(key) => {
                self.ledger.take(number_of(key));
            }
            _ => {}
        }
    }
}

impl State {
    ghost use Rattle.std.specs.Prelude.{◌≡◌, true, is_some};
    ghost use Rattle.c_core.specs.Cells.{content_at};
    ghost use Rattle.c_core.specs.Step as machine_step;
    ghost use Rattle.c_runner_deeds.specs.Ours.{IsOurWord};
    ghost use Rattle.c_runner_deeds.specs.Parts.{is_there};
    ghost use Rattle.c_runner_deeds.specs.States.{frame_of};
    ghost use Rattle.cell_heap.specs.Contents as contents;
    ghost use Rattle.cell_heap.specs.Contents.{name_of, number_of};
    ghost use Rattle.cell_heap.specs.Numbered.{numbered};
    ghost use Rattle.cell_heap.specs.Ours.{IsOurs};

    /// Whether the cell of a key is there.
    pub fn is_live(&self, key: Key) -> bool
        requires ours { IsOurs self.now.cells (name_of key) }
        ensures { result ≡ is_some (content_at (numbered self.now.cells) (number_of key)) }
    {
        self.cells.is_live(key)
    }

    /// Whether the cell of a word is there, if the word has one.
    pub fn is_there(&self, word: Word) -> bool
        requires ours { IsOurWord self.now.cells word }
        ensures { result ≡ is_there (numbered self.now.cells) (contents.word_of word) }
    {
        match word {
            Word::Big(key) | Word::Cell(key) => self.is_live(key),
            _ => true,
        }
    }

    /// The kind of a variable of the frame that runs, if there is one of this number.
    pub fn kind_of_variable(&self, code: &Code, x: usize) -> Option<Kind>
        ensures { result ≡ machine_step.kind_of code.now (frame_of self.now.top) x }
    {
        match code.funcs.get(self.top.func) {
            None => None,
            Some(function) => kind_of(function, x),
        }
    }
}
