//! Calls that are answered at once, by a word that has no cell: of primitives on two numbers that have none either, native integers or
//! short `int`s, of the one that finds the `int` in a cell, and of a list's length. They are most calls of most programs, and need none of
//! what other calls may come to.
ghost use Rattle.std.specs.Prelude.{◌≡◌, [], ℕ, Option, Some, Ok, map, IfSome, true};
ghost use Rattle.std.specs.Option.{option_and_then};
ghost use Rattle.c_core.specs.declared.code.Code as machine_code;
ghost use Rattle.c_core.specs.Step.{Goes, Says, called, next_line, with_target, native_or, tagged_effect, tagged_or, unboxed};
ghost use Rattle.c_runner_deeds.specs.Deeds.{int_at, list_length_done, one_boxed, then_done, two_ints, two_done, tagged_done};
ghost use Rattle.c_runner_deeds.specs.Parts.{native_at, two_natives, two_effect};
ghost use Rattle.c_runner_deeds.specs.States.{Rest, state_of, seen};
ghost use Rattle.c_runner_deeds.specs.Ours.{maybe_refs};
ghost use Rattle.cell_heap.specs.Contents.{word_of};
ghost use Rattle.cell_heap.specs.Numbered.{numbered};

use c_core::{CArg, Int64Prim, ListPrim, Prim, TaggedPrim};
use c_runner_deeds::{State, truth};
use cell_heap::Word;
use value_core::{
    Arith, i64_add, i64_floor_div, i64_modulo, i64_mul, i64_sub, int_floor_div, int_modulo,
    int_mul, is_short,
};

/// The word that a call of a primitive answers, where the call can be answered at once.
pub(crate) fn answer_at_once(state: &State, primitive: Prim, args: &[CArg]) -> Option<Word>
    ensures says { IfSome result (λ word. (rest : Rest) (code : machine_code.Code) (target : Option ℕ) →
        (let s = state_of rest (seen state.now) in
        called true s code target args.now primitive ≡ Goes (next_line (with_target target (word_of word) s)))) }
    ensures plain { maybe_refs result ≡ [] }
{
    if state.pending.is_some() {
        return None;
    }
    match primitive {
        Prim::Int64(operation) => native_answer(state, operation, args),
        Prim::Tagged(operation) => tagged_answer(state, operation, args),
        Prim::List(ListPrim::Len) => length_answer(state, args),
        _ => None,
    }
}

/// The word that a primitive on two native integers answers, where it answers one.
fn native_answer(state: &State, operation: Int64Prim, args: &[CArg]) -> Option<Word>
    ensures says { IfSome result (λ word. option_and_then (λ q. two_effect operation q.0 q.1) (two_natives (map word_of state.now.top.vars) args.now)
        ≡ Some (Says (word_of word))) }
    ensures plain { maybe_refs result ≡ [] }
{
    match two_natives(state, args) {
        None => None,
        Some((a, b)) => of_natives(operation, a, b),
    }
}

/// The two native integers that the arguments are.
fn two_natives(state: &State, args: &[CArg]) -> Option<(i64, i64)>
    ensures { result ≡ two_natives (map word_of state.now.top.vars) args.now }
{
    match args {
        [first, second] => match native(state, first) {
            None => None,
            Some(a) => match native(state, second) {
                None => None,
                Some(b) => Some((a, b)),
            },
        },
        _ => None,
    }
}

/// The native integer that an argument is.
fn native(state: &State, argument: &CArg) -> Option<i64>
    ensures { result ≡ native_at (map word_of state.now.top.vars) argument.now }
{
    let CArg::Var(x) = argument else {
        return None;
    };
    match state.top.vars.get(*x) {
        Some(Word::I64(n)) => Some(*n),
        _ => None,
    }
}

/// The word that comes of a primitive on two native integers, where it does not fail.
fn of_natives(operation: Int64Prim, a: i64, b: i64) -> Option<Word>
    ensures says { IfSome result (λ word. two_effect operation a b ≡ Some (Says (word_of word))) }
    ensures plain { maybe_refs result ≡ [] }
{
    match operation {
        Int64Prim::Add => Some(Word::I64(i64_add(a, b))),
        Int64Prim::Subtract => Some(Word::I64(i64_sub(a, b))),
        Int64Prim::Multiply => Some(Word::I64(i64_mul(a, b))),
        Int64Prim::FloorDivide => native_word(i64_floor_div(a, b)),
        Int64Prim::Remainder => native_word(i64_modulo(a, b)),
        Int64Prim::Eq => Some(truth(a == b)),
        Int64Prim::Lt => Some(truth(a < b)),
        Int64Prim::Le => Some(truth(a <= b)),
        _ => None,
    }
}

/// The word of a native integer, where there is one.
fn native_word(number: Result<i64, Arith>) -> Option<Word>
    ensures says { IfSome result (λ word. native_or number ≡ Says (word_of word)) }
    ensures plain { maybe_refs result ≡ [] }
{
    match number {
        Ok(n) => Some(Word::I64(n)),
        Err(_) => None,
    }
}

/// The word that a primitive on `int`s answers, where it is a truth or a short `int`, and so is each `int` that it is called with.
fn tagged_answer(state: &State, operation: TaggedPrim, args: &[CArg]) -> Option<Word>
    ensures says { IfSome result (λ word. tagged_done operation (numbered state.now.cells) (map word_of state.now.top.vars) args.now ≡ Ok (Says (word_of word))) }
    ensures plain { maybe_refs result ≡ [] }
{
    match operation {
        TaggedPrim::Unbox => unboxed_answer(state, args),
        _ => short_answer(state, operation, args),
    }
}

/// The short `int` that stands in a cell, where it is one.
fn unboxed_answer(state: &State, args: &[CArg]) -> Option<Word>
    ensures says { IfSome result (λ word. then_done (λ q. unboxed q.0 q.1) (one_boxed (numbered state.now.cells) (map word_of state.now.top.vars) args.now)
        ≡ Ok (Says (word_of word))) }
    ensures plain { maybe_refs result ≡ [] }
{
    match state.one_boxed(args) {
        Err(_) => None,
        Ok((_, n)) => short_word(n),
    }
}

/// How many items a list has, where that is a short `int`.
fn length_answer(state: &State, args: &[CArg]) -> Option<Word>
    ensures says { IfSome result (λ word. list_length_done (numbered state.now.cells) (map word_of state.now.top.vars) args.now ≡ Ok (Says (word_of word))) }
    ensures plain { maybe_refs result ≡ [] }
{
    match state.one_list(args) {
        Err(_) => None,
        Ok((_, items)) => short_word(items.len() as i128),
    }
}

/// The word that a primitive on two short `int`s answers, where it is a truth or a short `int` itself.
fn short_answer(state: &State, operation: TaggedPrim, args: &[CArg]) -> Option<Word>
    ensures says { IfSome result (λ word. tagged_done operation (numbered state.now.cells) (map word_of state.now.top.vars) args.now ≡ Ok (Says (word_of word))) }
    ensures plain { maybe_refs result ≡ [] }
{
    match two_shorts(state, args) {
        None => None,
        Some((a, b)) => of_shorts(operation, a, b),
    }
}

/// The two `int`s that the arguments are, where both are short.
fn two_shorts(state: &State, args: &[CArg]) -> Option<(i64, i64)>
    ensures { IfSome result (λ found. two_ints (numbered state.now.cells) (map word_of state.now.top.vars) args.now ≡ Ok (found.0, found.1)) }
{
    match args {
        [first, second] => match short(state, first) {
            None => None,
            Some(a) => match short(state, second) {
                None => None,
                Some(b) => Some((a, b)),
            },
        },
        _ => None,
    }
}

/// The `int` that an argument is, where it is short.
fn short(state: &State, argument: &CArg) -> Option<i64>
    ensures { IfSome result (λ n. int_at (numbered state.now.cells) (map word_of state.now.top.vars) (Some argument.now) ≡ Ok n) }
{
    let CArg::Var(x) = argument else {
        return None;
    };
    match state.top.vars.get(*x) {
        Some(Word::Short(n)) => Some(*n),
        _ => None,
    }
}

/// The word that comes of a primitive on two short `int`s, where it is a truth or a short `int` itself.
fn of_shorts(operation: TaggedPrim, a: i64, b: i64) -> Option<Word>
    ensures says { IfSome result (λ word. two_done operation a b ≡ Ok (Says (word_of word))) }
    ensures plain { maybe_refs result ≡ [] }
{
    match operation {
        TaggedPrim::Add => short_word(i128::from(a) + i128::from(b)),
        TaggedPrim::Subtract => short_word(i128::from(a) - i128::from(b)),
        TaggedPrim::Multiply => computed_word(int_mul(i128::from(a), i128::from(b))),
        TaggedPrim::FloorDivide => computed_word(int_floor_div(i128::from(a), i128::from(b))),
        TaggedPrim::Remainder => computed_word(int_modulo(i128::from(a), i128::from(b))),
        TaggedPrim::Eq => Some(truth(a == b)),
        TaggedPrim::Lt => Some(truth(a < b)),
        TaggedPrim::Le => Some(truth(a <= b)),
        _ => None,
    }
}

/// The word of an `int` that was computed, where it is a short one.
fn computed_word(number: Result<i128, Arith>) -> Option<Word>
    ensures says { IfSome result (λ word. tagged_or number ≡ Says (word_of word)) }
    ensures plain { maybe_refs result ≡ [] }
{
    match number {
        Ok(n) => short_word(n),
        Err(_) => None,
    }
}

/// The word of a short `int`, where it is one.
fn short_word(n: i128) -> Option<Word>
    ensures says { IfSome result (λ word. tagged_effect n ≡ Says (word_of word)) }
    ensures plain { maybe_refs result ≡ [] }
{
    if is_short(n) {
        Some(Word::Short(n as i64))
    } else {
        None
    }
}
