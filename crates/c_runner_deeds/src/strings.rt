//! Calls of primitives on texts.
ghost use Rattle.std.specs.Prelude.{◌≡◌, ◌+◌, ◌^◌, ◌<◌, [], ◌∷◌, ◌++◌, Ok, Err, map, slice_get, IfOk, MatchResult};
ghost use Rattle.std.specs.Option.{option_copied, option_and_then};
ghost use Rattle.std.specs.Str.{chars, encode_utf8_all};
ghost use Rattle.value_core.specs.Characters.{char_len, place_of};
ghost use Rattle.c_core.specs.declared.primitive.Primitive.TheVariants as prim;
ghost use Rattle.c_core.specs.Cells.{content_at};
ghost use Rattle.c_core.specs.Machine.{StrCell};
ghost use Rattle.c_core.specs.Step.{Makes, tagged_effect, item_or};
ghost use Rattle.c_core.specs.Strings.{text_less, text_length, text_item};
ghost use Rattle.c_runner_deeds.specs.Deeds.{Calls, effect_of, done_by, done_or, then_done, then_tried, text_held, text_at, one_text, two_texts, text_and_int, texts_done, str_done};
ghost use Rattle.c_runner_deeds.specs.Parts.{only_text};
ghost use Rattle.c_runner_deeds.specs.States.{IsSmall, seen};
ghost use Rattle.cell_heap.specs.Contents.{number_of, word_of};
ghost use Rattle.cell_heap.specs.Numbered.{numbered};
ghost use Rattle.cell_heap.specs.Ours.{IsOurs};
ghost use Rattle.cell_heap.specs.Contents.{name_of};

use crate::deed::Deed;
use crate::ending::Ending;
use crate::pending::only_text;
use crate::state::State;
use crate::tagged::int_deed;
use crate::words::truth;
use c_core::{CArg, Fault, StrPrim};
use cell_heap::{Content, Key, Letters, Word};
use std::alloc::Global;
use value_core::{ExcClass, Memory, Text, byte_order_is_text_order, place_of};

impl State {
    /// Calls a primitive on texts.
    pub fn call_str(
        &mut self,
        alloc: Global,
        primitive: StrPrim,
        target: Option<usize>,
        args: &[CArg],
    ) -> Result<Option<Ending>, Memory>
        requires small { IsSmall (seen self.old) }
        requires place { self.old.top.place + 1 < 2 ^ 64 }
        ensures { Calls (prim.Str primitive) target args.now (seen self.old) (seen self.new) result }
    {
        let deed = self.str_deed(alloc, primitive, args)?;
        self.perform_deed(target, deed)
    }

    /// What a primitive on texts does, if its arguments are right.
    fn str_deed(
        &self,
        alloc: Global,
        primitive: StrPrim,
        args: &[CArg],
    ) -> Result<Result<Deed, Fault>, Memory>
        ensures { IfOk result (λ deed. done_by deed
            ≡ str_done primitive (numbered self.now.cells) (map word_of self.now.top.vars) args.now) }
    {
        match primitive {
            StrPrim::Literal => literal(alloc, args),
            StrPrim::Len => Ok(self.length(args)),
            StrPrim::GetItem => self.item(alloc, args),
            _ => self.texts_deed(alloc, primitive, args),
        }
    }

    /// Answers how many code points a text has.
    fn length(&self, args: &[CArg]) -> Result<Deed, Fault>
        ensures { done_by result ≡ then_done (λ text. tagged_effect (text_length text))
            (one_text (numbered self.now.cells) (map word_of self.now.top.vars) args.now) }
    {
        match self.one_text(args) {
            Err(fault) => Err(fault),
            Ok(text) => Ok(int_deed(text.char_len() as i128)),
        }
    }

    /// Answers the code point of a text at an index.
    fn item(&self, alloc: Global, args: &[CArg]) -> Result<Result<Deed, Fault>, Memory>
        ensures { IfOk result (λ deed. done_by deed ≡ then_done (λ q. item_or (text_item q.0 q.1))
            (text_and_int (numbered self.now.cells) (map word_of self.now.top.vars) args.now)) }
    {
        match self.text_and_int(args) {
            Err(fault) => Ok(Err(fault)),
            Ok((text, index)) => Ok(Ok(item_deed(alloc, text, index)?)),
        }
    }

    /// What a primitive on two texts does.
    fn texts_deed(
        &self,
        alloc: Global,
        primitive: StrPrim,
        args: &[CArg],
    ) -> Result<Result<Deed, Fault>, Memory>
        ensures { IfOk result (λ deed. done_by deed ≡ then_tried (λ q. texts_done primitive q.0 q.1)
            (two_texts (numbered self.now.cells) (map word_of self.now.top.vars) args.now)) }
    {
        match self.two_texts(args) {
            Err(fault) => Ok(Err(fault)),
            Ok((first, second)) => of_texts(alloc, primitive, first.as_str(), second.as_str()),
        }
    }

    /// The one text that the arguments are.
    fn one_text(&self, args: &[CArg]) -> Result<&Letters, Fault>
        ensures { MatchResult result
            (λ text. one_text (numbered self.now.cells) (map word_of self.now.top.vars) args.now ≡ Ok text.now)
            (λ why. one_text (numbered self.now.cells) (map word_of self.now.top.vars) args.now ≡ Err why) }
    {
        let text = self.text_argument(args.first())?;
        if args.len() > 1 {
            return Err(Fault::Kind);
        }
        Ok(text)
    }

    /// The two texts that the arguments are.
    fn two_texts(&self, args: &[CArg]) -> Result<(&Letters, &Letters), Fault>
        ensures { MatchResult result
            (λ texts. two_texts (numbered self.now.cells) (map word_of self.now.top.vars) args.now ≡ Ok (texts.0.now, texts.1.now))
            (λ why. two_texts (numbered self.now.cells) (map word_of self.now.top.vars) args.now ≡ Err why) }
    {
        let first = self.text_argument(args.first())?;
        let second = self.text_argument(args.get(1))?;
        if args.len() > 2 {
            return Err(Fault::Kind);
        }
        Ok((first, second))
    }

    /// The text and the `int` that the arguments are.
    fn text_and_int(&self, args: &[CArg]) -> Result<(&Letters, i128), Fault>
        ensures { MatchResult result
            (λ found. text_and_int (numbered self.now.cells) (map word_of self.now.top.vars) args.now ≡ Ok (found.0.now, found.1))
            (λ why. text_and_int (numbered self.now.cells) (map word_of self.now.top.vars) args.now ≡ Err why) }
    {
        let text = self.text_argument(args.first())?;
        let index = self.int_argument(args.get(1))?;
        if args.len() > 2 {
            return Err(Fault::Kind);
        }
        Ok((text, index))
    }

    /// The text that an argument is.
    fn text_argument(&self, argument: Option<&CArg>) -> Result<&Letters, Fault>
        ensures { MatchResult result
            (λ text. text_at (numbered self.now.cells) (map word_of self.now.top.vars) (option_copied argument.entry) ≡ Ok text.now)
            (λ why. text_at (numbered self.now.cells) (map word_of self.now.top.vars) (option_copied argument.entry) ≡ Err why) }
    {
        let Some(CArg::Var(x)) = argument else {
            return Err(Fault::Kind);
        };
        match self.top.vars.get(*x) {
            Some(Word::Cell(key)) => self.text_in(*key),
            _ => Err(Fault::Kind),
        }
    }

    /// The text that a cell holds.
    fn text_in(&self, key: Key) -> Result<&Letters, Fault>
        requires { IsOurs self.now.cells (name_of key) }
        ensures { MatchResult result
            (λ text. text_held (content_at (numbered self.now.cells) (number_of key)) ≡ Ok text.now)
            (λ why. text_held (content_at (numbered self.now.cells) (number_of key)) ≡ Err why) }
    {
        let Ok(content) = self.cells.content(key) else {
            return Err(Fault::Dead);
        };
        match content {
            Content::Str(text) => Ok(text),
            _ => Err(Fault::Kind),
        }
    }
}

/// Answers the text that the one argument is.
fn literal(alloc: Global, args: &[CArg]) -> Result<Result<Deed, Fault>, Memory>
    ensures { IfOk result (λ deed. done_by deed ≡ done_or (λ text. Makes (StrCell text)) (only_text args.now)) }
{
    match only_text(args) {
        None => Ok(Err(Fault::Kind)),
        Some(text) => Ok(Ok(Deed::MakesText(Text::from_str(alloc, text)?))),
    }
}

/// What comes of a primitive on two texts.
fn of_texts(
    alloc: Global,
    primitive: StrPrim,
    first: &str,
    second: &str,
) -> Result<Result<Deed, Fault>, Memory>
    ensures { IfOk result (λ deed. done_by deed ≡ texts_done primitive first.now second.now) }
{
    match primitive {
        StrPrim::Concat => Ok(Ok(Deed::MakesText(joined(alloc, first, second)?))),
        StrPrim::Eq => Ok(Ok(Deed::Says(truth(first == second)))),
        StrPrim::Lt => Ok(Ok(Deed::Says(truth(is_less(first, second))))),
        StrPrim::Le => Ok(Ok(Deed::Says(truth(!is_less(second, first))))),
        _ => Ok(Err(Fault::Kind)),
    }
}

/// A text and behind it another one.
fn joined(alloc: Global, first: &str, second: &str) -> Result<Text, Memory>
    ensures { IfOk result (λ text. text ≡ first.now ++ second.now) }
{
    Ok(Text::from_string(format!(in alloc; "{first}{second}")?))
}

/// Whether a text comes before another one by their code points, which is their order by bytes.
fn is_less(first: &str, second: &str) -> bool
    ensures { result ≡ text_less first.now second.now }
{
    byte_order_is_text_order();
    first < second
}

/// Answers the code point of a text at an index, or fails.
fn item_deed(alloc: Global, text: &Letters, index: i128) -> Result<Deed, Memory>
    ensures { IfOk result (λ deed. effect_of deed ≡ item_or (text_item text.now index)) }
{
    match char_of(text, index) {
        Some(c) => {
            let item = char_text(alloc, c)?;
            Ok(Deed::MakesText(item))
        }
        None => {
            let text = Text::from_str(alloc, "string index out of range")?;
            Ok(Deed::Fails(Word::Null, ExcClass::IndexError, text))
        }
    }
}

/// The text of one code point.
fn char_text(alloc: Global, c: char) -> Result<Text, Memory>
    ensures { IfOk result (λ text. text ≡ encode_utf8_all (c ∷ [])) }
{
    Ok(Text::from_string(format!(in alloc; "{c}")?))
}

/// The code point of a text at an index. A negative one counts from the end.
fn char_of(text: &Letters, index: i128) -> Option<char>
    ensures { result ≡ option_and_then (slice_get (chars text.now)) (place_of (char_len text.now) index) }
{
    let place = place_of(text.char_len(), index)?;
    text.char_at_place(place)
}
