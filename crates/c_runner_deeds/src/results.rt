//! What a primitive leaves: a word in its target, a new cell, or an exception that is pending.
ghost use Rattle.std.specs.Prelude.{◌≡◌, ◌+◌, ◌^◌, ◌<◌, true, [], length, IfOk};
ghost use Rattle.std.specs.Option.{option_map};
ghost use Rattle.value_core.specs.Exceptions.{thrown};
ghost use Rattle.c_core.specs.declared.fault.Fault.TheVariants as fault;
ghost use Rattle.c_core.specs.Machine.{noted};
ghost use Rattle.c_core.specs.Step.{Goes, Makes, Fails, with_target, next_line, if_some, applied, Shares};
ghost use Rattle.c_runner_deeds.specs.States.{Rest, Follows, IsSmall, state_of, next_of, seen};
ghost use Rattle.cell_heap.specs.Contents.{word_of, content_of};
ghost use Rattle.cell_heap.specs.Numbered.{numbered};
ghost use Rattle.c_runner_deeds.specs.Ours.{IsOurWord, maybe_refs};
ghost use Rattle.cell_heap.specs.Ours.{AreOurs};
ghost use Rattle.c_core.specs.Machine.{refs_in};
ghost use Rattle.cell_heap.specs.Contents.{content_named};

use crate::cells::number_of;
use crate::ending::Ending;
use crate::state::State;
use crate::stolen::take_word;
use c_core::Fault;
use cell_heap::{Content, Word};
use value_core::{ExcClass, Memory, Text};

impl State {
    /// Writes what a primitive answers to its target. Without an answer its arguments were wrong.
    pub fn answer(&mut self, target: Option<usize>, word: Option<Word>) -> Option<Ending>
        requires place { self.old.top.place + 1 < 2 ^ 64 }
        requires ours { AreOurs self.old.cells (maybe_refs word) }
        ensures { Follows (λ s. if_some true s fault.Kind (option_map word_of word)
            (λ w. Goes (next_line (with_target target w s)))) result (seen self.old) (seen self.new) }
    {
        match word {
            None => Some(Ending::Fault(Fault::Kind)),
            Some(word) => {
                self.top.set_target(target, word);
                self.top.place += 1;
                None
            }
        }
    }

    /// Makes a cell, which the frame owns, and writes it to the target. Of an object the machine notes the cell.
    pub fn make_cell(
        &mut self,
        target: Option<usize>,
        content: Content,
    ) -> Result<Option<Ending>, Memory>
        requires small { IsSmall (seen self.old) }
        requires place { self.old.top.place + 1 < 2 ^ 64 }
        requires ours { AreOurs self.old.cells (refs_in (content_named content)) }
        ensures { IfOk result (λ ending. (rest : Rest) →
            applied true (state_of rest (seen self.old)) target self.old.top.ledger [] (Makes (content_of content))
            ≡ next_of ending (state_of (record rest { made = noted (content_of content) (length (numbered self.old.cells)) rest.made }) (seen self.new))) }
    {
        let key = self.cells.make(content)?;
        self.top.ledger.add(number_of(key))?;
        self.top.set_target(target, Word::Cell(key));
        self.top.place += 1;
        Ok(None)
    }

    /// Makes an exception, which is pending from then on, and writes an error value to the target.
    pub fn fail(
        &mut self,
        target: Option<usize>,
        word: Word,
        class: ExcClass,
        text: Text,
    ) -> Result<Option<Ending>, Memory>
        requires small { IsSmall (seen self.old) }
        requires place { self.old.top.place + 1 < 2 ^ 64 }
        requires ours { IsOurWord self.old.cells word }
        ensures { IfOk result (λ ending. Follows
            (λ s. applied true s target s.top.ledger [] (Fails (word_of word) (thrown class text))) ending (seen self.old) (seen self.new)) }
    {
        self.fail_in_room(target, word, class, text)
    }

    /// The same where nothing else is known of the state than that one more cell can be made.
    pub fn fail_in_room(
        &mut self,
        target: Option<usize>,
        word: Word,
        class: ExcClass,
        text: Text,
    ) -> Result<Option<Ending>, Memory>
        requires room { length (numbered self.old.cells) + 1 < 2 ^ 128 }
        requires place { self.old.top.place + 1 < 2 ^ 64 }
        requires ours { IsOurWord self.old.cells word }
        ensures { IfOk result (λ ending. Follows
            (λ s. applied true s target s.top.ledger [] (Fails (word_of word) (thrown class text))) ending (seen self.old) (seen self.new)) }
    {
        let key = self.cells.make(Content::Exc(class, text))?;
        self.pending = Some(key);
        self.top.set_target(target, word);
        self.top.place += 1;
        Ok(None)
    }

    /// Writes a word to the target, and takes one reference more to its cell, if it has one.
    pub fn share(&mut self, target: Option<usize>, word: Word) -> Result<Option<Ending>, Memory>
        requires small { IsSmall (seen self.old) }
        requires place { self.old.top.place + 1 < 2 ^ 64 }
        requires ours { IsOurWord self.old.cells word }
        ensures { IfOk result (λ ending. Follows
            (λ s. applied true s target s.top.ledger [] (Shares (word_of word))) ending (seen self.old) (seen self.new)) }
    {
        take_word(&mut self.cells, word);
        self.top.own(word)?;
        self.top.set_target(target, word);
        self.top.place += 1;
        Ok(None)
    }
}
