//! Lines that are done at once, one after the other: they take no memory, end no run, and change no more than the place and the variables
//! of the frame that runs, and the turns that are left.
ghost use Rattle.std.specs.Prelude.{◌≡◌, [], ◌+◌, ◌^◌, ◌<◌, ◌≤◌, true, cond, Some, length, map, slice_get, IfSome};
ghost use Rattle.std.specs.Option.{option_map, option_and_then};
ghost use Rattle.c_core.specs.declared.code.CFunc.{CFunc};
ghost use Rattle.c_core.specs.declared.code.Code as machine_code;
ghost use Rattle.c_core.specs.declared.code.Line.{Line};
ghost use Rattle.c_core.specs.Functions.{label_places};
ghost use Rattle.c_core.specs.Laws.{Reaches};
ghost use Rattle.c_core.specs.Step as machine_step;
ghost use Rattle.c_core.specs.Step.{if_calm, turned};
ghost use Rattle.c_runner.specs.AtOnce.{Did, Done, Jumped, Wrote, Went};
ghost use Rattle.c_runner.specs.AtOnce as at_once;
ghost use Rattle.c_runner_deeds.specs.Parts.{is_there};
ghost use Rattle.c_runner_deeds.specs.States.{Rest, state_of, seen};
ghost use Rattle.c_runner_table.specs.Targets.{target_of, table_of};
ghost use Rattle.c_runner_deeds.specs.Ours.{maybe_refs};
ghost use Rattle.cell_heap.specs.Contents.{word_of};
ghost use Rattle.cell_heap.specs.Ours.{AreOurs};
ghost use Rattle.cell_heap.specs.Numbered.{numbered};

use crate::at_once::answer_at_once;
use c_core::{CFunc, CLit, Code, Line};
use c_runner_deeds::{State, equals_error, kind_of, of_literal};
use c_runner_table::{Callee, Tables, Target, target_at};
use cell_heap::Word;

/// Does the next lines, as long as each can be done at once, but no more than so many, and says how many it did.
pub(crate) fn do_lines(state: &mut State, code: &Code, table: &Tables, most: usize) -> usize
    requires table { table.now ≡ table_of code.now }
    ensures reaches { (rest : Rest) → Reaches code.now result (state_of rest (seen state.old)) (state_of rest (seen state.new)) }
    ensures output { state.new.output ≡ state.old.output }
    ensures most { result ≤ most }
{
    let func = state.top.func;
    let Some(function) = code.funcs.get(func) else {
        return 0;
    };
    let lines = function.lines.as_slice();
    let mut done = 0;
    'lines: while done < most {
        let Some(line) = lines.get(state.top.place) else {
            return done;
        };
        let more = do_line(state, code, table, function, line, most - done);
        if more == 0 {
            return done;
        }
        done += more;
    }
    done
}

/// Does a line of a function, if it can be done at once, and with a jump also the label that it leads to, if there may be so many lines.
/// It says how many it did.
fn do_line(
    state: &mut State,
    code: &Code,
    table: &Tables,
    function: &CFunc,
    line: &Line,
    most: usize,
) -> usize
    requires table { table.now ≡ table_of code.now }
    requires function { slice_get code.now.funcs state.old.top.func ≡ Some function.now }
    requires line { slice_get function.now.lines state.old.top.place ≡ Some line.now }
    requires short { length function.now.lines < 2 ^ 64 }
    requires most { 1 ≤ most }
    ensures did { Did code.now result (seen state.old) (seen state.new) }
    ensures most { result ≤ most }
{
    match line {
        Line::Goto(_) => {
            let target = target_here(state, table);
            jump(state, target.first, most)
        }
        Line::If(x, _, _) => {
            let target = target_here(state, table);
            let place = place_chosen(state, *x, target);
            jump(state, place, most)
        }
        Line::IfError(x, _, _) => {
            let target = target_here(state, table);
            let place = place_by_error(state, *x, target);
            jump(state, place, most)
        }
        Line::Call(x, _, args) => {
            let target = target_here(state, table);
            match target.callee {
                None => 0,
                Some(callee) => match callee {
                    Callee::Primitive(primitive) => {
                        let word = answer_at_once(state, primitive, args.as_slice());
                        counted(write(state, *x, word))
                    }
                    Callee::Function(_) => 0,
                },
            }
        }
        Line::Move(x, y) => {
            let word = word_there(state, *y);
            counted(write(state, Some(*x), word))
        }
        Line::Lit(x, literal) => {
            let word = literal_word(function, *x, *literal);
            counted(write(state, Some(*x), word))
        }
        Line::Label => {
            let place = Some(state.top.place + 1);
            counted(go_to(state, place))
        }
        Line::Inc(x) | Line::Dec(x) | Line::XDec(x) => {
            let place = place_uncounted(state, *x);
            counted(go_to(state, place))
        }
        Line::Turn => counted(spend_turn(state)),
        Line::Virtual(_, _, _, _) | Line::TraitCall(_, _, _, _, _) | Line::Return(_) => 0,
    }
}

/// How many lines were done, where one line was done or not.
fn counted(is_done: bool) -> usize
    ensures { result ≡ cond is_done 1 0 }
{
    if is_done { 1 } else { 0 }
}

/// What the next line of the frame's function names.
fn target_here(state: &State, table: &Tables) -> Target
    ensures { (code : machine_code.Code) (g : CFunc) (l : Line) → table.now ≡ table_of code →
        slice_get code.funcs state.now.top.func ≡ Some g → slice_get g.lines state.now.top.place ≡ Some l →
        result ≡ target_of code (label_places g.lines) l }
{
    target_at(&table.lines, state.top.func, state.top.place)
}

/// Goes on at a place, if there is one, or behind the label there, if there may be two lines. It says how many lines these are.
fn jump(state: &mut State, place: Option<usize>, most: usize) -> usize
    requires place { IfSome place (λ q. q + 1 < 2 ^ 64) }
    requires most { 1 ≤ most }
    ensures jumped { Jumped place result (seen state.old) (seen state.new) }
    ensures most { result ≤ most }
{
    match place {
        None => 0,
        Some(place) => {
            if most == 1 {
                state.top.place = place;
                1
            } else {
                state.top.place = place + 1;
                2
            }
        }
    }
}

/// Writes a word, if there is one, and goes on to the next line.
fn write(state: &mut State, target: Option<usize>, word: Option<Word>) -> bool
    requires place { state.old.top.place + 1 < 2 ^ 64 }
    requires ours { AreOurs state.old.cells (maybe_refs word) }
    ensures { Wrote target word result (seen state.old) (seen state.new) }
{
    match word {
        None => false,
        Some(word) => {
            state.top.set_target(target, word);
            state.top.place += 1;
            true
        }
    }
}

/// Goes on at a place, if there is one.
fn go_to(state: &mut State, place: Option<usize>) -> bool
    ensures { Went place result (seen state.old) (seen state.new) }
{
    match place {
        None => false,
        Some(place) => {
            state.top.place = place;
            true
        }
    }
}

/// The word of a variable, where its cell is there if it has one.
fn word_there(state: &State, x: usize) -> Option<Word>
    ensures value { IfSome result (λ word. slice_get state.now.top.vars x ≡ Some word) }
    ensures there { IfSome result (λ word. is_there (numbered state.now.cells) (word_of word) ≡ true) }
    ensures ours { AreOurs state.now.cells (maybe_refs result) }
{
    let Some(word) = state.top.vars.get(x) else {
        return None;
    };
    let word = *word;
    if state.is_there(word) {
        Some(word)
    } else {
        None
    }
}

/// The word of a literal in a variable of a function.
fn literal_word(function: &CFunc, x: usize, literal: CLit) -> Option<Word>
    ensures word { option_map word_of result
        ≡ option_and_then (λ k. machine_step.literal_word k literal) (option_map (λ v. v.1) (slice_get function.now.vars x)) }
    ensures plain { maybe_refs result ≡ [] }
{
    match kind_of(function, x) {
        None => None,
        Some(kind) => of_literal(kind, literal),
    }
}

/// Spends a turn, if there is one and no exception is pending, and goes on to the next line.
fn spend_turn(state: &mut State) -> bool
    requires { state.old.top.place + 1 < 2 ^ 64 }
    ensures { Done (λ s. if_calm true s s.pending (turned true s s.turns)) result (seen state.old) (seen state.new) }
{
    if state.pending.is_some() || state.turns == 0 {
        return false;
    }
    state.turns -= 1;
    state.top.place += 1;
    true
}

/// The first place of a line where a variable is 1, and the second one where it is 0.
fn place_chosen(state: &State, x: usize, target: Target) -> Option<usize>
    ensures { result ≡ option_and_then (at_once.place_chosen target.first target.second) (slice_get (map word_of state.now.top.vars) x) }
{
    match state.top.vars.get(x) {
        Some(Word::Char(0)) => target.second,
        Some(Word::Char(1)) => target.first,
        _ => None,
    }
}

/// The first place of a line where a variable equals the error value of its kind, and else the second one.
fn place_by_error(state: &State, x: usize, target: Target) -> Option<usize>
    ensures { result ≡ option_and_then (λ w. cond (machine_step.equals_error w) target.first target.second) (slice_get (map word_of state.now.top.vars) x) }
{
    let Some(word) = state.top.vars.get(x) else {
        return None;
    };
    if equals_error(*word) {
        target.first
    } else {
        target.second
    }
}

/// The next line's place, where a variable has no cell whose references are counted.
fn place_uncounted(state: &State, x: usize) -> Option<usize>
    requires { state.now.top.place + 1 < 2 ^ 64 }
    ensures { result ≡ option_and_then (at_once.place_uncounted state.now.top.place) (slice_get (map word_of state.now.top.vars) x) }
{
    match state.top.vars.get(x) {
        Some(Word::Short(_) | Word::PyNone | Word::PyTrue | Word::PyFalse) => {
            Some(state.top.place + 1)
        }
        _ => None,
    }
}
