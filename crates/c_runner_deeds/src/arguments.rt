//! The arguments of calls: a word that is passed, a truth, a key, a number, a list, a dict, a tuple or an instance that stands in a cell,
//! or any object.
ghost use Rattle.std.specs.Prelude.{◌≡◌, Ok, Err, map, slice_get, MatchResult, true, IfOk, Some, None};
ghost use Rattle.std.specs.Option.{option_copied};
ghost use Rattle.c_runner_deeds.specs.Deeds.{one_boxed, one_list, one_tuple, one_object, list_and_int, tuple_and_number, instance_and_place, one_dict, dict_and_key, dict_and_int};
ghost use Rattle.c_runner_deeds.specs.Objects.{word_at, cell_of, boxed_at, list_at, tuple_at, instance_in, instance_at, object_of, any_at, written_number, dict_at};
ghost use Rattle.c_runner_deeds.specs.States.{held_of, Rest, state_of, seen};
ghost use Rattle.c_runner_deeds.specs.Ours.{IsOurWord};
ghost use Rattle.cell_heap.specs.Contents.{name_of, number_of, word_of, pair_of, words_refs, pairs_refs, optional_refs};
ghost use Rattle.cell_heap.specs.Ours.{IsOurs, AreOurs};
ghost use Rattle.c_core.specs.Step.{Next};
ghost use Rattle.c_runner_deeds.specs.Parts.{one_char, is_there, if_argument, passed_on};
ghost use Rattle.c_core.specs.declared.code.CArg.TheVariants as machine_arg;
ghost use Rattle.c_core.specs.Arguments as arguments;
ghost use Rattle.c_core.specs.Machine as machine;
ghost use Rattle.c_runner_deeds.specs.Objects as objects;
ghost use Rattle.cell_heap.specs.Numbered.{numbered};

use crate::state::State;
use crate::words::is_value_of;
use c_core::{CArg, Fault, Kind};
use cell_heap::{Content, Dead, Key, Word};
use value_core::Many;

impl State {
    /// The one number in a cell that the arguments are, and its cell.
    pub fn one_boxed(&self, args: &[CArg]) -> Result<(Key, i128), Fault>
        ensures found { MatchResult result
            (λ found. one_boxed (numbered self.now.cells) (map word_of self.now.top.vars) args.now ≡ Ok (number_of found.0, found.1))
            (λ why. one_boxed (numbered self.now.cells) (map word_of self.now.top.vars) args.now ≡ Err why) }
        ensures ours { IfOk result (λ found. IsOurs self.now.cells (name_of found.0)) }
    {
        let found = self.boxed_argument(args.first())?;
        if args.len() > 1 {
            return Err(Fault::Kind);
        }
        Ok(found)
    }

    /// The one list that the arguments are, and its cell.
    pub fn one_list(&self, args: &[CArg]) -> Result<(Key, &Many<Word>), Fault>
        ensures found { MatchResult result
            (λ found. one_list (numbered self.now.cells) (map word_of self.now.top.vars) args.now ≡ Ok (number_of found.0, map word_of found.1.now))
            (λ why. one_list (numbered self.now.cells) (map word_of self.now.top.vars) args.now ≡ Err why) }
        ensures ours { IfOk result (λ found. IsOurs self.now.cells (name_of found.0)) }
    {
        let found = self.list_argument(args.first())?;
        if args.len() > 1 {
            return Err(Fault::Kind);
        }
        Ok(found)
    }

    /// The one dict that the arguments are, and its cell.
    pub fn one_dict(&self, args: &[CArg]) -> Result<(Key, &Many<(Word, Word)>), Fault>
        ensures { MatchResult result
            (λ found. one_dict (numbered self.now.cells) (map word_of self.now.top.vars) args.now ≡ Ok (number_of found.0, map pair_of found.1.now))
            (λ why. one_dict (numbered self.now.cells) (map word_of self.now.top.vars) args.now ≡ Err why) }
    {
        let found = self.dict_argument(args.first())?;
        if args.len() > 1 {
            return Err(Fault::Kind);
        }
        Ok(found)
    }

    /// The one tuple that the arguments are, and its cell.
    pub fn one_tuple(&self, args: &[CArg]) -> Result<(Key, &Many<Word>), Fault>
        ensures { MatchResult result
            (λ found. one_tuple (numbered self.now.cells) (map word_of self.now.top.vars) args.now ≡ Ok (number_of found.0, map word_of found.1.now))
            (λ why. one_tuple (numbered self.now.cells) (map word_of self.now.top.vars) args.now ≡ Err why) }
    {
        let found = self.tuple_argument(args.first())?;
        if args.len() > 1 {
            return Err(Fault::Kind);
        }
        Ok(found)
    }

    /// The one object that the arguments are.
    pub fn one_object(&self, args: &[CArg]) -> Result<Word, Fault>
        ensures { MatchResult result
            (λ word. one_object (numbered self.now.cells) (map word_of self.now.top.vars) args.now ≡ Ok (word_of word))
            (λ why. one_object (numbered self.now.cells) (map word_of self.now.top.vars) args.now ≡ Err why) }
    {
        let word = self.any_argument(args.first())?;
        if args.len() > 1 {
            return Err(Fault::Kind);
        }
        Ok(word)
    }

    /// The list, with its cell, and the `int` that the arguments are.
    pub fn list_and_int(&self, args: &[CArg]) -> Result<(Key, &Many<Word>, i128), Fault>
        ensures found { MatchResult result
            (λ found. list_and_int (numbered self.now.cells) (map word_of self.now.top.vars) args.now
            ≡ Ok ((number_of found.0, map word_of found.1.now), found.2))
            (λ why. list_and_int (numbered self.now.cells) (map word_of self.now.top.vars) args.now ≡ Err why) }
        ensures items { IfOk result (λ found. AreOurs self.now.cells (words_refs found.1.now)) }
    {
        let (key, items) = self.list_argument(args.first())?;
        let index = self.int_argument(args.get(1))?;
        if args.len() > 2 {
            return Err(Fault::Kind);
        }
        Ok((key, items, index))
    }

    /// The dict, with its cell, and the key that the arguments are.
    pub fn dict_and_key(&self, args: &[CArg]) -> Result<(Key, &Many<(Word, Word)>, Word), Fault>
        ensures found { MatchResult result
            (λ found. dict_and_key (numbered self.now.cells) (map word_of self.now.top.vars) args.now
            ≡ Ok ((number_of found.0, map pair_of found.1.now), word_of found.2))
            (λ why. dict_and_key (numbered self.now.cells) (map word_of self.now.top.vars) args.now ≡ Err why) }
        ensures ours { IfOk result (λ found. IsOurs self.now.cells (name_of found.0)) }
        ensures pairs { IfOk result (λ found. AreOurs self.now.cells (pairs_refs found.1.now)) }
        ensures key { IfOk result (λ found. IsOurWord self.now.cells found.2) }
    {
        let (dict, pairs) = self.dict_argument(args.first())?;
        let key = self.key_argument(args.get(1))?;
        if args.len() > 2 {
            return Err(Fault::Kind);
        }
        Ok((dict, pairs, key))
    }

    /// The dict, with its cell, and the `int` that the arguments are.
    pub fn dict_and_int(&self, args: &[CArg]) -> Result<(Key, &Many<(Word, Word)>, i128), Fault>
        ensures found { MatchResult result
            (λ found. dict_and_int (numbered self.now.cells) (map word_of self.now.top.vars) args.now
            ≡ Ok ((number_of found.0, map pair_of found.1.now), found.2))
            (λ why. dict_and_int (numbered self.now.cells) (map word_of self.now.top.vars) args.now ≡ Err why) }
        ensures pairs { IfOk result (λ found. AreOurs self.now.cells (pairs_refs found.1.now)) }
    {
        let (dict, pairs) = self.dict_argument(args.first())?;
        let number = self.int_argument(args.get(1))?;
        if args.len() > 2 {
            return Err(Fault::Kind);
        }
        Ok((dict, pairs, number))
    }

    /// The tuple, with its cell, and the number as it is written that the arguments are.
    pub fn tuple_and_number(&self, args: &[CArg]) -> Result<(Key, &Many<Word>, i64), Fault>
        ensures found { MatchResult result
            (λ found. tuple_and_number (numbered self.now.cells) (map word_of self.now.top.vars) args.now
            ≡ Ok ((number_of found.0, map word_of found.1.now), found.2))
            (λ why. tuple_and_number (numbered self.now.cells) (map word_of self.now.top.vars) args.now ≡ Err why) }
        ensures parts { IfOk result (λ found. AreOurs self.now.cells (words_refs found.1.now)) }
    {
        let (key, parts) = self.tuple_argument(args.first())?;
        let number = written_number(args.get(1))?;
        if args.len() > 2 {
            return Err(Fault::Kind);
        }
        Ok((key, parts, number))
    }

    /// The attributes of the instance, with the number of its class and its cell, and the place as it is written that the
    /// arguments are.
    pub fn instance_and_place(
        &self,
        args: &[CArg],
    ) -> Result<(Key, usize, &Many<Option<Word>>, i64), Fault>
        ensures found { MatchResult result
            (λ found. instance_and_place (numbered self.now.cells) (map word_of self.now.top.vars) args.now
            ≡ Ok ((number_of found.0, (found.1, map held_of found.2.now)), found.3))
            (λ why. instance_and_place (numbered self.now.cells) (map word_of self.now.top.vars) args.now ≡ Err why) }
        ensures attributes { IfOk result (λ found. AreOurs self.now.cells (optional_refs found.2.now)) }
    {
        let (key, class, attributes) = self.instance_argument(args.first())?;
        let number = written_number(args.get(1))?;
        if args.len() > 2 {
            return Err(Fault::Kind);
        }
        Ok((key, class, attributes, number))
    }

    /// The number that stands in the cell of an argument, and the cell.
    pub fn boxed_argument(&self, argument: Option<&CArg>) -> Result<(Key, i128), Fault>
        ensures found { MatchResult result
            (λ found. boxed_at (numbered self.now.cells) (map word_of self.now.top.vars) (option_copied argument.entry) ≡ Ok (number_of found.0, found.1))
            (λ why. boxed_at (numbered self.now.cells) (map word_of self.now.top.vars) (option_copied argument.entry) ≡ Err why) }
        ensures ours { IfOk result (λ found. IsOurs self.now.cells (name_of found.0)) }
    {
        let key = self.cell_argument(argument)?;
        let Ok(content) = self.cells.content(key) else {
            return Err(Fault::Dead);
        };
        match content {
            Content::Int(n) => Ok((key, *n)),
            _ => Err(Fault::Kind),
        }
    }

    /// The items of the list that stands in the cell of an argument, and the cell.
    pub fn list_argument(&self, argument: Option<&CArg>) -> Result<(Key, &Many<Word>), Fault>
        ensures found { MatchResult result
            (λ found. list_at (numbered self.now.cells) (map word_of self.now.top.vars) (option_copied argument.entry)
            ≡ Ok (number_of found.0, map word_of found.1.now))
            (λ why. list_at (numbered self.now.cells) (map word_of self.now.top.vars) (option_copied argument.entry) ≡ Err why) }
        ensures ours { IfOk result (λ found. IsOurs self.now.cells (name_of found.0)) }
        ensures items { IfOk result (λ found. AreOurs self.now.cells (words_refs found.1.now)) }
    {
        let key = self.cell_argument(argument)?;
        let Ok(content) = self.cells.content(key) else {
            return Err(Fault::Dead);
        };
        match content {
            Content::List(items) => Ok((key, items)),
            _ => Err(Fault::Kind),
        }
    }

    /// The pairs of the dict that stands in the cell of an argument, and the cell.
    pub fn dict_argument(
        &self,
        argument: Option<&CArg>,
    ) -> Result<(Key, &Many<(Word, Word)>), Fault>
        ensures found { MatchResult result
            (λ found. dict_at (numbered self.now.cells) (map word_of self.now.top.vars) (option_copied argument.entry)
            ≡ Ok (number_of found.0, map pair_of found.1.now))
            (λ why. dict_at (numbered self.now.cells) (map word_of self.now.top.vars) (option_copied argument.entry) ≡ Err why) }
        ensures ours { IfOk result (λ found. IsOurs self.now.cells (name_of found.0)) }
        ensures pairs { IfOk result (λ found. AreOurs self.now.cells (pairs_refs found.1.now)) }
    {
        let key = self.cell_argument(argument)?;
        let Ok(content) = self.cells.content(key) else {
            return Err(Fault::Dead);
        };
        match content {
            Content::Dict(dict) => Ok((key, dict.pairs())),
            _ => Err(Fault::Kind),
        }
    }

    /// The parts of the tuple that stands in the cell of an argument, and the cell.
    pub fn tuple_argument(&self, argument: Option<&CArg>) -> Result<(Key, &Many<Word>), Fault>
        ensures found { MatchResult result
            (λ found. tuple_at (numbered self.now.cells) (map word_of self.now.top.vars) (option_copied argument.entry)
            ≡ Ok (number_of found.0, map word_of found.1.now))
            (λ why. tuple_at (numbered self.now.cells) (map word_of self.now.top.vars) (option_copied argument.entry) ≡ Err why) }
        ensures parts { IfOk result (λ found. AreOurs self.now.cells (words_refs found.1.now)) }
    {
        let key = self.cell_argument(argument)?;
        let Ok(content) = self.cells.content(key) else {
            return Err(Fault::Dead);
        };
        match content {
            Content::Tuple(parts) => Ok((key, parts)),
            _ => Err(Fault::Kind),
        }
    }

    /// The attributes of the instance that stands in the cell of an argument, with the number of its class, and the cell.
    pub fn instance_argument(
        &self,
        argument: Option<&CArg>,
    ) -> Result<(Key, usize, &Many<Option<Word>>), Fault>
        ensures found { MatchResult result
            (λ found. instance_at (numbered self.now.cells) (map word_of self.now.top.vars) (option_copied argument.entry)
            ≡ Ok (number_of found.0, (found.1, map held_of found.2.now)))
            (λ why. instance_at (numbered self.now.cells) (map word_of self.now.top.vars) (option_copied argument.entry) ≡ Err why) }
        ensures ours { IfOk result (λ found. IsOurs self.now.cells (name_of found.0)) }
        ensures attributes { IfOk result (λ found. AreOurs self.now.cells (optional_refs found.2.now)) }
    {
        match argument {
            Some(CArg::Var(x)) => self.instance_variable(*x),
            _ => Err(Fault::Kind),
        }
    }

    /// The same of the instance in a variable.
    pub fn instance_variable(&self, x: usize) -> Result<(Key, usize, &Many<Option<Word>>), Fault>
        ensures found { MatchResult result
            (λ found. object_of instance_in (numbered self.now.cells) (slice_get (map word_of self.now.top.vars) x)
            ≡ Ok (number_of found.0, (found.1, map held_of found.2.now)))
            (λ why. object_of instance_in (numbered self.now.cells) (slice_get (map word_of self.now.top.vars) x) ≡ Err why) }
        ensures ours { IfOk result (λ found. IsOurs self.now.cells (name_of found.0)) }
        ensures attributes { IfOk result (λ found. AreOurs self.now.cells (optional_refs found.2.now)) }
    {
        let key = self.cell_variable(x)?;
        let Ok(content) = self.cells.content(key) else {
            return Err(Fault::Dead);
        };
        match content {
            Content::Inst(class, attributes) => Ok((key, *class, attributes)),
            _ => Err(Fault::Kind),
        }
    }

    /// The object that an argument is.
    pub fn any_argument(&self, argument: Option<&CArg>) -> Result<Word, Fault>
        ensures { MatchResult result
            (λ word. any_at (numbered self.now.cells) (map word_of self.now.top.vars) (option_copied argument.entry) ≡ Ok (word_of word))
            (λ why. any_at (numbered self.now.cells) (map word_of self.now.top.vars) (option_copied argument.entry) ≡ Err why) }
    {
        match argument {
            None => Err(Fault::Kind),
            Some(argument) => self.passed(Kind::Object, argument),
        }
    }

    /// The key of the cell that an argument refers to as an object.
    fn cell_argument(&self, argument: Option<&CArg>) -> Result<Key, Fault>
        ensures found { MatchResult result
            (λ key. cell_of (word_at (map word_of self.now.top.vars) (option_copied argument.entry)) ≡ Ok (number_of key))
            (λ why. cell_of (word_at (map word_of self.now.top.vars) (option_copied argument.entry)) ≡ Err why) }
        ensures ours { IfOk result (λ key. IsOurs self.now.cells (name_of key)) }
    {
        let Some(CArg::Var(x)) = argument else {
            return Err(Fault::Kind);
        };
        match self.top.vars.get(*x) {
            Some(Word::Cell(key)) => Ok(*key),
            _ => Err(Fault::Kind),
        }
    }

    /// The key of the cell that a variable refers to as an object.
    fn cell_variable(&self, x: usize) -> Result<Key, Fault>
        ensures found { MatchResult result
            (λ key. cell_of (slice_get (map word_of self.now.top.vars) x) ≡ Ok (number_of key))
            (λ why. cell_of (slice_get (map word_of self.now.top.vars) x) ≡ Err why) }
        ensures ours { IfOk result (λ key. IsOurs self.now.cells (name_of key)) }
    {
        match self.top.vars.get(x) {
            Some(Word::Cell(key)) => Ok(*key),
            _ => Err(Fault::Kind),
        }
    }
}

/// The number that is written as an argument.
pub fn written_number(argument: Option<&CArg>) -> Result<i64, Fault>
    ensures { result ≡ written_number (option_copied argument.entry) }
{
    match argument {
        Some(CArg::Number(n)) => Ok(*n),
        _ => Err(Fault::Kind),
    }
}

impl State {
    /// The one truth that the arguments are.
    pub fn one_char(&self, args: &[CArg]) -> Option<u8>
        ensures { result ≡ one_char (map word_of self.now.top.vars) args.now }
    {
        let [CArg::Var(x)] = args else {
            return None;
        };
        match self.top.vars.get(*x) {
            Some(Word::Char(n)) if *n != 2 => Some(*n),
            _ => None,
        }
    }

    /// The word that an argument passes to a parameter of a kind.
    pub fn passed(&self, kind: Kind, argument: &CArg) -> Result<Word, Fault>
        ensures passed { (rest : Rest) (go : machine.Word → Next) →
            if_argument (state_of rest (seen self.now)) kind argument.now go
            ≡ passed_on result (state_of rest (seen self.now)) go }
        ensures value { IfOk result (λ word. arguments.is_value_of kind (word_of word) ≡ true) }
        ensures there { IfOk result (λ word. is_there (numbered self.now.cells) (word_of word) ≡ true) }
        ensures ours { IfOk result (IsOurWord self.now.cells) }
    {
        match argument {
            CArg::Var(x) => self.passed_variable(kind, *x),
            _ => Err(Fault::Kind),
        }
    }

    /// The word that a variable passes to a parameter of a kind.
    pub fn passed_variable(&self, kind: Kind, x: usize) -> Result<Word, Fault>
        ensures passed { (rest : Rest) (go : machine.Word → Next) →
            if_argument (state_of rest (seen self.now)) kind (machine_arg.Var x) go
            ≡ passed_on result (state_of rest (seen self.now)) go }
        ensures value { IfOk result (λ word. arguments.is_value_of kind (word_of word) ≡ true) }
        ensures there { IfOk result (λ word. is_there (numbered self.now.cells) (word_of word) ≡ true) }
        ensures ours { IfOk result (IsOurWord self.now.cells) }
    {
        let Some(word) = self.top.vars.get(x) else {
            return Err(Fault::Kind);
        };
        let word = *word;
        if !is_value_of(kind, word) {
            return Err(Fault::Kind);
        }
        if !self.is_there(word) {
            return Err(Fault::Dead);
        }
        Ok(word)
    }

    /// The object that an argument is, which may be the key of a dict.
    pub fn key_argument(&self, argument: Option<&CArg>) -> Result<Word, Fault>
        ensures found { MatchResult result
            (λ word. objects.key_argument (numbered self.now.cells) (map word_of self.now.top.vars) (option_copied argument.entry) ≡ Ok (word_of word))
            (λ why. objects.key_argument (numbered self.now.cells) (map word_of self.now.top.vars) (option_copied argument.entry) ≡ Err why) }
        ensures ours { IfOk result (IsOurWord self.now.cells) }
    {
        let Some(CArg::Var(x)) = argument else {
            return Err(Fault::Kind);
        };
        match self.top.vars.get(*x) {
            None => Err(Fault::Kind),
            Some(word) => self.key_word(*word),
        }
    }

    /// A word, which may be the key of a dict.
    fn key_word(&self, word: Word) -> Result<Word, Fault>
        requires { IsOurWord self.now.cells word }
        ensures found { MatchResult result
            (λ key. objects.key_word (numbered self.now.cells) (Some (word_of word)) ≡ Ok (word_of key))
            (λ why. objects.key_word (numbered self.now.cells) (Some (word_of word)) ≡ Err why) }
        ensures same { IfOk result (λ key. key ≡ word) }
    {
        match word {
            Word::PyTrue | Word::PyFalse => Ok(word),
            Word::Cell(key) => match self.cells.content(key) {
                Err(Dead) => Err(Fault::Dead),
                Ok(Content::Int(_) | Content::Str(_)) => Ok(word),
                Ok(_) => Err(Fault::Kind),
            },
            _ => Err(Fault::Kind),
        }
    }
}
