//! Arguments whose references a primitive takes over, and the references of words.
ghost use Rattle.std.specs.Prelude.{◌≡◌, ℕ, ◌+◌, ◌^◌, ◌<◌, true, List, [], ◌∷◌, Some, IfOk};
ghost use Rattle.c_core.specs.declared.code.Code as machine_code;
ghost use Rattle.c_core.specs.declared.code.Kind.TheVariants.{Tagged};
ghost use Rattle.c_core.specs.declared.primitive.Primitive.TheVariants as prim;
ghost use Rattle.c_core.specs.declared.primitive.TaggedPrim.TheVariants as tagged_prim;
ghost use Rattle.c_core.specs.Arguments as arguments;
ghost use Rattle.c_core.specs.Arguments.{Argument, is_holding, kind_found, word_in};
ghost use Rattle.c_core.specs.Cells.{count_at};
ghost use Rattle.c_core.specs.Ledgers.{Ledger, without};
ghost use Rattle.c_core.specs.Machine.{ObjectCell, refs_in, set_refs};
ghost use Rattle.c_core.specs.Primitives.{KindAt, Is, Anything, ANumber, Steals};
ghost use Rattle.c_core.specs.Release.{release};
ghost use Rattle.c_core.specs.Step as machine_step;
ghost use Rattle.c_core.specs.Step.{Next, Shares, applied};
ghost use Rattle.c_runner_deeds.specs.Deeds.{Calls};
ghost use Rattle.c_runner_deeds.specs.Parts.{with_taken, argument_of, stolen_or};
ghost use Rattle.c_runner_deeds.specs.States.{Rest, Follows, IsSmall, held_of, state_of, seen};
ghost use Rattle.cell_heap.specs.Contents.{number_of, word_of};
ghost use Rattle.cell_heap.specs.Numbered.{numbered};
ghost use Rattle.cell_heap.specs.Ours.{IsOurs, AreOurs, KeepsPlaces};
ghost use Rattle.cell_heap.specs.Contents.{name_of};
ghost use Rattle.c_runner_deeds.specs.Ours.{IsOurWord, maybe_refs};

use crate::cells::Cells;
use crate::ending::Ending;
use crate::state::State;
use c_core::{CArg, Fault, Kind};
use c_runner_ledger::Ledger;
use cell_heap::{Content, Dead, Key, Word};
use value_core::Memory;

impl State {
    /// The word that an argument gives away, a variable of a kind. The frame is to own its reference.
    pub fn stolen_word(&self, kind: Kind, argument: &CArg) -> Result<Word, Fault>
        ensures stolen { (rest : Rest) (code : machine_code.Code) (place : KindAt) (earlier : List Argument) (go : Argument → Ledger → Next) →
            kind_found code place earlier ≡ Some kind →
            (let s = state_of rest (seen self.now) in
            machine_step.if_argument true s code (Steals place Anything) argument.now earlier s.top.ledger go
            ≡ stolen_or result s go) }
        ensures word { IfOk result (λ word. word_in kind (argument_of (numbered self.now.cells) (word_of word)) ≡ Some (word_of word)) }
        ensures ours { IfOk result (IsOurWord self.now.cells) }
    {
        let word = self.passed(kind, argument)?;
        if !self.top.owns(word) {
            return Err(Fault::NotOwned);
        }
        Ok(word)
    }

    /// Answers the object that an `int` is, whose reference the call takes over: a short one goes into a new cell, and the
    /// cell of any other is the object.
    pub fn box_int(
        &mut self,
        target: Option<usize>,
        args: &[CArg],
    ) -> Result<Option<Ending>, Memory>
        requires small { IsSmall (seen self.old) }
        requires place { self.old.top.place + 1 < 2 ^ 64 }
        ensures { Calls (prim.Tagged tagged_prim.Box) target args.now (seen self.old) (seen self.new) result }
    {
        let Some(argument) = args.first() else {
            return Ok(Some(Ending::Fault(Fault::Kind)));
        };
        let word = match self.stolen_int(argument) {
            Err(fault) => return Ok(Some(Ending::Fault(fault))),
            Ok(word) => word,
        };
        if args.len() != 1 {
            return Ok(Some(Ending::Fault(Fault::Kind)));
        }
        match word {
            Word::Short(n) => self.make_number(target, i128::from(n)),
            Word::Big(key) => self.box_cell(target, key),
            // An `int` is short or has a cell.
            _ => Ok(Some(Ending::Fault(Fault::Kind))),
        }
    }

    /// The `int` that an argument gives away. The frame is to own its reference.
    fn stolen_int(&self, argument: &CArg) -> Result<Word, Fault>
        ensures stolen { (rest : Rest) (code : machine_code.Code) (earlier : List Argument) (go : Argument → Ledger → Next) →
            (let s = state_of rest (seen self.now) in
            machine_step.if_argument true s code (Steals (Is Tagged) ANumber) argument.now earlier s.top.ledger go
            ≡ stolen_or result s go) }
        ensures value { IfOk result (λ word. arguments.is_value_of Tagged (word_of word) ≡ true) }
        ensures number { IfOk result (λ word. is_holding ANumber (argument_of (numbered self.now.cells) (word_of word)) ≡ true) }
        ensures ours { IfOk result (IsOurWord self.now.cells) }
    {
        let word = self.passed(Kind::Tagged, argument)?;
        if !self.is_number(word) {
            return Err(Fault::Kind);
        }
        if !self.top.owns(word) {
            return Err(Fault::NotOwned);
        }
        Ok(word)
    }

    /// Whether a word is a short number, or its cell holds one.
    fn is_number(&self, word: Word) -> bool
        requires { IsOurWord self.now.cells word }
        ensures { result ≡ is_holding ANumber (argument_of (numbered self.now.cells) (word_of word)) }
    {
        match word {
            Word::Short(_) => true,
            Word::Big(key) | Word::Cell(key) => match self.cells.content(key) {
                Ok(Content::Int(_)) => true,
                _ => false,
            },
            _ => false,
        }
    }

    /// Answers the object that a cell is: one reference to it more is taken, and the one that the frame owns is given up.
    fn box_cell(&mut self, target: Option<usize>, key: Key) -> Result<Option<Ending>, Memory>
        requires small { IsSmall (seen self.old) }
        requires place { self.old.top.place + 1 < 2 ^ 64 }
        requires ours { IsOurs self.old.cells (name_of key) }
        ensures { IfOk result (λ ending. Follows
            (λ s. applied true s target (without (number_of key) s.top.ledger) (number_of key ∷ [])
            (Shares (ObjectCell (number_of key)))) ending (seen self.old) (seen self.new)) }
    {
        let word = Word::Cell(key);
        self.top.lose(word);
        take_word(&mut self.cells, word);
        self.top.own(word)?;
        give_word(&mut self.cells, Some(word));
        self.top.set_target(target, word);
        self.top.place += 1;
        Ok(None)
    }
}

/// Takes one reference more to the cell of a word, if it has one that is there.
pub(crate) fn take_word(cells: &mut Cells, word: Word)
    requires counts { (c : ℕ) → count_at (numbered cells.old) c + 1 < 2 ^ 128 }
    requires ours { IsOurWord cells.old word }
    ensures taken { numbered cells.new ≡ with_taken (word_of word) (numbered cells.old) }
    ensures kept { KeepsPlaces cells.old cells.new }
{
    match word {
        Word::Big(key) | Word::Cell(key) => match cells.take(key) {
            Ok(()) => {}
            // Nothing happens to a cell that is gone.
            Err(Dead) => {}
        },
        _ => {}
    }
}

/// Gives the reference of a word up, if there is a word and it has a cell that is there.
pub fn give_word(cells: &mut Cells, word: Option<Word>)
    requires { AreOurs cells.old (maybe_refs word) }
    ensures given { numbered cells.new ≡ release refs_in (numbered cells.old) (set_refs (held_of word ∷ [])) }
    ensures kept { KeepsPlaces cells.old cells.new }
{
    let Some(word) = word else {
        return;
    };
    match word {
        Word::Big(key) | Word::Cell(key) => match cells.give(key) {
            Ok(()) => {}
            // Nothing happens to a cell that is gone.
            Err(Dead) => {}
        },
        _ => {}
    }
}
