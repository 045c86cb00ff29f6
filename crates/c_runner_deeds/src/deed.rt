//! What primitives do, once their arguments were found right.
ghost use Rattle.std.specs.Prelude.{◌≡◌, ◌+◌, ◌^◌, ◌<◌, true, [], IfOk};
ghost use Rattle.c_core.specs.Machine.{IntCell};
ghost use Rattle.c_core.specs.Step.{Makes, MakesInt, applied};
ghost use Rattle.c_runner_deeds.specs.Deeds.{done_by, performed};
ghost use Rattle.c_runner_deeds.specs.States.{Follows, IsSmall, seen};
ghost use Rattle.c_runner_deeds.specs.Deeds.{IsOurDeed};

use crate::cells::number_of;
use crate::ending::Ending;
use crate::state::State;
use c_core::Fault;
use cell_heap::{Content, Letters, Word};
use value_core::{ExcClass, Memory, Text};

/// What a primitive does.
#[derive(Drop)]
pub enum Deed {
    /// Answers a word without a cell.
    Says(Word),
    /// Answers a word, and takes one reference more to its cell, if it has one.
    Shares(Word),
    /// Answers a word, whose reference stays where it is.
    Lends(Word),
    /// Answers an `int`, in a new cell.
    MakesInt(i128),
    /// Answers an object, a number in a new cell.
    MakesNumber(i128),
    /// Answers a text, in a new cell.
    MakesText(Text),
    /// Fails: it answers an error value, and an exception of a class and a text is pending.
    Fails(Word, ExcClass, Text),
    /// Nothing: its arguments were wrong.
    Wrong,
}

impl State {
    /// Does what a primitive does. The run faults where its arguments were wrong.
    pub fn perform_deed(
        &mut self,
        target: Option<usize>,
        deed: Result<Deed, Fault>,
    ) -> Result<Option<Ending>, Memory>
        requires small { IsSmall (seen self.old) }
        requires place { self.old.top.place + 1 < 2 ^ 64 }
        requires ours { IfOk deed (IsOurDeed self.old.cells) }
        ensures { IfOk result (λ ending. Follows (performed target (done_by deed)) ending (seen self.old) (seen self.new)) }
    {
        match deed {
            Err(fault) => Ok(Some(Ending::Fault(fault))),
            Ok(Deed::Says(word)) => Ok(self.answer(target, Some(word))),
            Ok(Deed::Shares(word)) => self.share(target, word),
            Ok(Deed::Lends(word)) => Ok(self.answer(target, Some(word))),
            Ok(Deed::MakesInt(number)) => self.make_int(target, number),
            Ok(Deed::MakesNumber(number)) => self.make_number(target, number),
            Ok(Deed::MakesText(text)) => self.make_cell(target, Content::Str(Letters::of(text))),
            Ok(Deed::Fails(word, class, text)) => self.fail(target, word, class, text),
            Ok(Deed::Wrong) => Ok(Some(Ending::Fault(Fault::Kind))),
        }
    }

    /// Makes a cell of a number, which the frame owns, and writes an `int` that refers to it to the target.
    fn make_int(&mut self, target: Option<usize>, number: i128) -> Result<Option<Ending>, Memory>
        requires small { IsSmall (seen self.old) }
        requires place { self.old.top.place + 1 < 2 ^ 64 }
        ensures { IfOk result (λ ending. Follows
            (λ s. applied true s target s.top.ledger [] (MakesInt number)) ending (seen self.old) (seen self.new)) }
    {
        let key = self.cells.make(Content::Int(number))?;
        self.top.ledger.add(number_of(key))?;
        self.top.set_target(target, Word::Big(key));
        self.top.place += 1;
        Ok(None)
    }

    /// Makes a cell of a number, which the frame owns, and writes it as an object to the target.
    pub fn make_number(
        &mut self,
        target: Option<usize>,
        number: i128,
    ) -> Result<Option<Ending>, Memory>
        requires small { IsSmall (seen self.old) }
        requires place { self.old.top.place + 1 < 2 ^ 64 }
        ensures { IfOk result (λ ending. Follows
            (λ s. applied true s target s.top.ledger [] (Makes (IntCell number))) ending (seen self.old) (seen self.new)) }
    {
        self.make_cell(target, Content::Int(number))
    }
}
