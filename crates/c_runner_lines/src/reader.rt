ghost use Rattle.std.specs.Prelude.{◌≡◌, ◌<◌, ◌≤◌, ℕ, ◌+◌, ◌==◌, false, not, List, [], ◌++◌, length, take, drop, vec_len, MatchResult, IfOk, OnOk, OnErr, IsErrOf, IsTrue};
ghost use Rattle.std.specs.List.{list_any};
ghost use Rattle.value_core.specs.Items.{InputEnd, input_items, is_line_feed, most_input};
ghost use Rattle.c_runner_lines.specs.ReaderState.{total_of};
ghost use Rattle.c_runner_lines.specs.Held.{most_read, piece_size};
ghost use Rattle.c_runner_lines.specs.Reading.{items_left, is_ready, Refuses, Found, Takes, EndIsSeen, count_after_next};
ghost use Rattle.c_runner_lines.specs.Steps.{HoldsMore, Loses, to_read, IsSearched, after_use, HandsOut};

use crate::item::Item;
use crate::read_fault::ReadFault;
use crate::search::{first_feed, line_item};
use outside_core::Source;
use std::alloc::{AllocError, Global};
use std::marker::Model;
use value_core::Memory;

/// How many bytes of input may be used.
const MOST: usize = 16_777_216;

/// How many bytes a read asks for at most.
const PIECE: usize = 4096;

/// Reads an input line by line. Contracts see how many bytes it has used, those that it has read and not used, and whether it
/// saw the end.
#[derive(Drop)]
pub struct LineReader {
    alloc: Global,
    bytes: Vec<u8>,
    start: usize,
    searched: usize,
    before: usize,
    ended: bool,
}

impl Model for LineReader {
    ghost use Rattle.std.specs.Prelude.{drop};
    ghost use Rattle.c_runner_lines.specs.ReaderState.{ReaderState};
    ghost use Rattle.c_runner_lines.specs.Held.{IsSound};

    ghost Value = { ReaderState };

    ghost view = { λ reader. record {
      before = reader.before;
      held = drop reader.start reader.bytes.items;
      ended = reader.ended;
    } };

    ghost invariant = { λ reader. IsSound reader.bytes.items reader.start reader.searched reader.before };
}

impl LineReader {
    /// Nothing was read yet. It takes no memory.
    pub fn new(alloc: Global) -> LineReader
        ensures fresh { result ≡ record { before = 0; held = []; ended = false } }
        ensures items { (future : List ℕ) (e : InputEnd) →
            items_left result future e ≡ input_items future e }
    {
        LineReader {
            alloc,
            bytes: Vec::new(alloc),
            start: 0,
            searched: 0,
            before: 0,
            ended: false,
        }
    }

    /// How many bytes were read.
    fn total(&self) -> usize
        ensures total { result ≡ total_of self.now }
        ensures bounded { result ≤ most_read }
    {
        self.before + (self.bytes.len() - self.start)
    }

    /// How many bytes are held.
    fn len(&self) -> usize
        ensures { result ≡ length self.now.held }
    {
        self.bytes.len() - self.start
    }

    /// Where the first line that is held ends.
    fn line_end(&mut self) -> Option<usize>
        ensures searched { IsSearched self.old result }
        ensures after { self.new ≡ self.old }
    {
        match first_feed(&self.bytes[self.searched..]) {
            Some(more) => {
                self.searched += more;
                Some(self.searched - self.start)
            }
            None => {
                self.searched = self.bytes.len();
                None
            }
        }
    }

    /// Whether more has to be read, where the first line that is held ends there.
    fn wants_more(&self, end: Option<usize>) -> bool
        requires { IsSearched self.now end }
        ensures { result ≡ not (is_ready self.now) }
    {
        end.is_none() && !self.ended && self.total() <= MOST
    }

    /// Whether the next line is answered without a read.
    pub fn is_ready(&mut self) -> bool
        ensures ready { result ≡ is_ready self.old }
        ensures after { self.new ≡ self.old }
    {
        let end = self.line_end();
        !self.wants_more(end)
    }

    /// Moves the bytes that are held to the front of the memory, unless they are there.
    fn compact(&mut self)
        ensures { self.new ≡ self.old }
    {
        if self.start > 0 {
            drop_front(&mut self.bytes, self.start);
            self.searched -= self.start;
            self.start = 0;
        }
    }

    /// Holds the bytes that a read gave. The end is seen where it gave none.
    fn add(&mut self, piece: &[u8]) -> Result<(), AllocError>
        requires none { list_any is_line_feed self.old.held ≡ false }
        requires size { length piece.now ≤ piece_size }
        requires room { total_of self.old + length piece.now ≤ most_read }
        ensures ok { OnOk result (self.new ≡ record {
          before = self.old.before;
          held = self.old.held ++ piece.now;
          ended = length piece.now == 0;
        }) }
        ensures err { OnErr result (self.new ≡ self.old) }
    {
        self.searched = self.bytes.len();
        self.bytes.extend_from_slice(piece)?;
        self.ended = piece.is_empty();
        Ok(())
    }

    /// Makes one read.
    fn fill<I: Source>(&mut self, input: &mut I) -> Result<(), ReadFault>
        requires { is_ready self.old ≡ false }
        ensures counted { I.faults input.new ≡ count_after_next result (I.faults input.old) }
        ensures takes { Takes self.old I.tells (I.left input.old) (I.left input.new) (λ taken.
            MatchResult result
            (λ _. HoldsMore self.old self.new taken)
            (λ fault. Loses fault taken)) }
        ensures nearer { OnOk result (to_read self.new < to_read self.old) }
        ensures end { IsTrue I.tells → EndIsSeen self.new (I.left input.new) }
    {
        self.compact();
        let room = (MOST + 1 - self.total()).min(PIECE);
        let mut piece = [0; PIECE];
        let count = input.read(&mut piece[..room])?;
        self.add(&piece[..count])?;
        Ok(())
    }

    /// Reads until the reader can answer, and answers where its line ends.
    fn gather<I: Source>(&mut self, input: &mut I) -> Result<Option<usize>, ReadFault>
        ensures counted { I.faults input.new ≡ count_after_next result (I.faults input.old) }
        ensures takes { Takes self.old I.tells (I.left input.old) (I.left input.new) (λ taken.
            MatchResult result
            (λ _. HoldsMore self.old self.new taken)
            (λ fault. Refuses fault self.old taken)) }
        ensures searched { IfOk result (IsSearched self.new) }
        ensures ready { OnOk result (IsTrue (is_ready self.new)) }
        ensures quiet { IsTrue (is_ready self.old) →
            (self.new ≡ self.old) × (input.new ≡ input.old) }
        ensures reads { OnErr result (is_ready self.old ≡ false) }
        ensures end { IsTrue I.tells →
            EndIsSeen self.old (I.left input.old) → EndIsSeen self.new (I.left input.new) }
    {
        let mut end = self.line_end();
        'reading: while self.wants_more(end) {
            self.fill(input)?;
            end = self.line_end();
        }
        Ok(end)
    }

    /// The first bytes of those that are held.
    fn first(&self, count: usize) -> &[u8]
        requires { count ≤ length self.now.held }
        ensures { result.now ≡ take count self.now.held }
    {
        &self.bytes[self.start..self.start + count]
    }

    /// Some of the bytes that are held are used. Of the others no more are there than a read gave.
    fn consume(&mut self, count: usize)
        requires within { count ≤ length self.old.held }
        requires near { length self.old.held ≤ count + piece_size }
        requires used { self.old.before + count ≤ most_input }
        ensures { self.new ≡ after_use self.old count }
    {
        self.start += count;
        self.searched = self.start;
        self.before += count;
    }

    /// The item of a line of so many bytes, with which so many are used, if they may be.
    fn hand_out(&mut self, end: usize, count: usize) -> Result<Item, Memory>
        requires ends { end ≤ count }
        requires within { count ≤ length self.old.held }
        requires near { length self.old.held ≤ count + piece_size }
        requires bounded { total_of self.old ≤ most_read }
        ensures ok { IfOk result (HandsOut self.old self.new end count) }
        ensures err { OnErr result (self.new ≡ self.old) }
        ensures ended { self.new.ended ≡ self.old.ended }
    {
        if self.before + count > MOST {
            return Ok(Item::Over);
        }
        let item = line_item(self.alloc, self.first(end))?;
        self.consume(count);
        Ok(item)
    }

    /// The item of what is held, where its first line ends there.
    fn answer(&mut self, end: Option<usize>) -> Result<Item, Memory>
        requires searched { IsSearched self.old end }
        requires ready { IsTrue (is_ready self.old) }
        ensures found { IfOk result (λ item. Found item self.old self.new []) }
        ensures ended { self.new.ended ≡ self.old.ended }
    {
        let all = self.len();
        match end {
            Some(end) => self.hand_out(end, end + 1),
            None if all == 0 => Ok(Item::Eof),
            None => self.hand_out(all, all),
        }
    }

    /// Reads the next line, as far as it has to. After a fault nothing is promised of the lines that are left.
    pub fn next<I: Source>(&mut self, input: &mut I) -> Result<Item, ReadFault>
        ensures counted { I.faults input.new ≡ count_after_next result (I.faults input.old) }
        ensures takes { Takes self.old I.tells (I.left input.old) (I.left input.new) (λ taken.
            MatchResult result
            (λ item. Found item self.old self.new taken)
            (λ fault. Refuses fault self.old taken)) }
        ensures quiet { IsTrue (is_ready self.old) → input.new ≡ input.old }
        ensures reads { IsErrOf result ReadFault.Failed → is_ready self.old ≡ false }
        ensures end { IsTrue I.tells →
            EndIsSeen self.old (I.left input.old) → EndIsSeen self.new (I.left input.new) }
    {
        let end = self.gather(input)?;
        Ok(self.answer(end)?)
    }
}

/// Lets go of bytes at the front.
fn drop_front(bytes: &mut Vec<u8>, count: usize)
    requires { count ≤ vec_len bytes.old }
    ensures { bytes.new.items ≡ drop count bytes.old.items }
{
    let left = bytes.len() - count;
    bytes.copy_within(count.., 0);
    bytes.truncate(left);
}
