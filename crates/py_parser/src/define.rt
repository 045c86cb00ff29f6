//! Functions and classes.
ghost use Rattle.std.specs.Prelude.{[], ◌∷◌, map, IfOk};
ghost use Rattle.py_syntax.specs.Statements.{stmt_tree};
ghost use Rattle.py_syntax.specs.Expressions.{expr_tree};
ghost use Rattle.py_parser_grammar.specs.Grammar.{FUNC, PARAM, CLASS, CBLOCK, MEMBER, MARK, DECORATED};
ghost use Rattle.py_parser_grammar.specs.Readings.{reads_sym};
ghost use Rattle.py_parser.specs.Definitions.{reads_bases, reads_members, reads_marks, maybe_seen, exprs_listed, param_seen, params_seen, func_seen, class_seen, mark_seen, reads_maybe, reads_params, reads_class_body, reads_def, reads_class};
ghost use Rattle.py_parser_cursor.specs.Gives.{Gives};
ghost use Rattle.py_parser_cursor.specs.Moves.{MovesTo, MovesUpTo};
ghost use Rattle.py_parser_expressions.specs.Rows.{reads_row};
ghost use Rattle.py_parser_statements.specs.Statements.{stmt_seen, stmts_seen};

use py_parser_cursor::fault::ParseError;
use py_parser_cursor::place::{accept, accept_key, accept_sign, sees, sees_key, sees_sign};
use py_parser_cursor::starts::begins_member;
use py_parser_cursor::word::name_of;
use py_parser_expressions::expression::{items, test};
use py_parser_expressions::row::no_row;
use py_parser_grammar::{Place, Terminal};
use py_parser_nodes::append::{append, row_of};
use py_parser_nodes::definition::{
    class_defined, defined, new_class, new_func, push_mark, push_param,
};
use py_parser_statements::block::{stmt, suite};
use py_parser_statements::simple::simple;
use py_syntax::{Class, Expr, Func, Key, Sign, Span, Stmt, Token};
use std::alloc::Global;
use value_core::{Many, Name};

/// A function or a class behind its decorators.
#[tactic(auto, using(crate::proofs::DefinitionReading::decorateds))]
pub(crate) fn decorated(
    alloc: Global,
    tokens: &[Token],
    place: Place,
) -> Result<(Box<Stmt>, Place), ParseError>
    ensures read { Gives stmt_seen result (reads_sym tokens.now DECORATED place) }
    ensures moves { IfOk result (λ x. MovesTo tokens.now place x.1) }
{
    let ((first, begin), place) = mark(alloc, tokens, place)?;
    let (marks, place) = marks(alloc, tokens, first, place)?;
    if sees_key(tokens, place, Key::Def) {
        let ((found, _), place) = func(alloc, tokens, place)?;
        return Ok((defined(alloc, found, marks, begin)?, place));
    }
    let ((found, _), place) = class(alloc, tokens, place)?;
    Ok((class_defined(alloc, found, marks, begin)?, place))
}

// A decorator, with the place of its sign.
#[tactic(auto, using(crate::proofs::DefinitionReading::marks))]
fn mark(
    alloc: Global,
    tokens: &[Token],
    place: Place,
) -> Result<((Box<Expr>, Span), Place), ParseError>
    ensures read { Gives mark_seen result (reads_sym tokens.now MARK place) }
    ensures moves { IfOk result (λ x. MovesTo tokens.now place x.1) }
{
    let (token, place) = accept_sign(tokens, place, Sign::At)?;
    let found = test(alloc, tokens, place)?;
    let (_, place) = accept(tokens, found.place, Terminal::Newline)?;
    Ok(((found.expr, token.span), place))
}

// The decorators: the first one, and those behind it.
#[tactic(auto, using(crate::proofs::DefinitionReading::mark_rows))]
fn marks(
    alloc: Global,
    tokens: &[Token],
    first: Box<Expr>,
    place: Place,
) -> Result<(Many<Expr>, Place), ParseError>
    ensures read { Gives exprs_listed result (reads_marks tokens.now (expr_tree first.value ∷ []) place) }
    ensures moves { IfOk result (λ x. MovesUpTo tokens.now place x.1) }
{
    let mut place = place;
    let mut found = push_mark(Many::new(alloc), first)?;
    'marks: while sees_sign(tokens, place, Sign::At) {
        let ((more, _), behind) = mark(alloc, tokens, place)?;
        found = push_mark(found, more)?;
        place = behind;
    }
    Ok((found, place))
}

// A function without decorators, with the place of its keyword.
#[tactic(auto, using(crate::proofs::DefinitionReading::funcs))]
fn func(
    alloc: Global,
    tokens: &[Token],
    place: Place,
) -> Result<((Box<Func>, Span), Place), ParseError>
    ensures read { Gives func_seen result (reads_sym tokens.now FUNC place) }
    ensures moves { IfOk result (λ x. MovesTo tokens.now place x.1) }
{
    let (token, place) = accept_key(tokens, place, Key::Def)?;
    let (named, place) = accept(tokens, place, Terminal::Name)?;
    let (params, place) = bracketed_params(alloc, tokens, place)?;
    let (ret, place) = maybe_behind(alloc, tokens, place, Sign::Arrow)?;
    let (body, place) = suite(alloc, tokens, place)?;
    let found = new_func(alloc, named, params, ret, body)?;
    Ok(((found, token.span), place))
}

/// A function without decorators, as a row of one statement.
pub(crate) fn plain_def(
    alloc: Global,
    tokens: &[Token],
    place: Place,
) -> Result<(Many<Stmt>, Place), ParseError>
    ensures read { Gives stmts_seen result (reads_def tokens.now place) }
    ensures moves { IfOk result (λ x. MovesTo tokens.now place x.1) }
{
    let ((one, begin), place) = func(alloc, tokens, place)?;
    let one = defined(alloc, one, Many::new(alloc), begin)?;
    Ok((row_of(alloc, one)?, place))
}

/// A class without decorators, as a row of one statement.
pub(crate) fn plain_class(
    alloc: Global,
    tokens: &[Token],
    place: Place,
) -> Result<(Many<Stmt>, Place), ParseError>
    ensures read { Gives stmts_seen result (reads_class tokens.now place) }
    ensures moves { IfOk result (λ x. MovesTo tokens.now place x.1) }
{
    let ((one, begin), place) = class(alloc, tokens, place)?;
    let one = class_defined(alloc, one, Many::new(alloc), begin)?;
    Ok((row_of(alloc, one)?, place))
}

// An expression behind a sign, if the sign comes next.
#[tactic(auto, unfolding(crate::specs::Definitions::reads_maybe))]
fn maybe_behind(
    alloc: Global,
    tokens: &[Token],
    place: Place,
    sign: Sign,
) -> Result<(Option<Box<Expr>>, Place), ParseError>
    ensures read { Gives maybe_seen result (reads_maybe tokens.now sign place) }
    ensures moves { IfOk result (λ x. MovesUpTo tokens.now place x.1) }
{
    if !sees_sign(tokens, place, sign) {
        return Ok((None, place));
    }
    let (_, place) = accept_sign(tokens, place, sign)?;
    let found = test(alloc, tokens, place)?;
    Ok((Some(found.expr), found.place))
}

// Parameters in brackets.
#[tactic(auto, unfolding(crate::specs::Definitions::reads_params))]
fn bracketed_params(
    alloc: Global,
    tokens: &[Token],
    place: Place,
) -> Result<(Many<(Name, Option<Expr>)>, Place), ParseError>
    ensures read { Gives params_seen result (reads_params tokens.now place) }
    ensures moves { IfOk result (λ x. MovesTo tokens.now place x.1) }
{
    let (_, place) = accept_sign(tokens, place, Sign::LeftParen)?;
    let (params, place) = params(alloc, tokens, place)?;
    let (_, place) = accept_sign(tokens, place, Sign::RightParen)?;
    Ok((params, place))
}

// Parameters between commas, or none, and a last comma.
#[tactic(auto, using(py_parser_expressions::proofs::RowReading::part_rows))]
fn params(
    alloc: Global,
    tokens: &[Token],
    place: Place,
) -> Result<(Many<(Name, Option<Expr>)>, Place), ParseError>
    ensures read { Gives params_seen result (reads_row tokens.now PARAM place) }
    ensures moves { IfOk result (λ x. MovesUpTo tokens.now place x.1) }
{
    let mut found = Many::new(alloc);
    let mut next = place;
    'params: while sees(tokens, next, Terminal::Name) {
        let (more, behind) = param(alloc, tokens, next)?;
        found = push_param(found, more)?;
        if !sees_sign(tokens, behind, Sign::Comma) {
            return Ok((found, behind));
        }
        let (_, after) = accept_sign(tokens, behind, Sign::Comma)?;
        next = after;
    }
    Ok((found, next))
}

// A parameter, with its annotation.
#[tactic(auto, using(crate::proofs::DefinitionReading::params))]
fn param(
    alloc: Global,
    tokens: &[Token],
    place: Place,
) -> Result<((Name, Option<Box<Expr>>), Place), ParseError>
    ensures read { Gives param_seen result (reads_sym tokens.now PARAM place) }
    ensures moves { IfOk result (λ x. MovesTo tokens.now place x.1) }
{
    let (token, place) = accept(tokens, place, Terminal::Name)?;
    let name = name_of(alloc, token)?;
    let (annotation, place) = maybe_behind(alloc, tokens, place, Sign::Colon)?;
    Ok(((name, annotation), place))
}

// A class without decorators, with the place of its keyword.
#[tactic(auto, using(crate::proofs::DefinitionReading::classes))]
fn class(
    alloc: Global,
    tokens: &[Token],
    place: Place,
) -> Result<((Box<Class>, Span), Place), ParseError>
    ensures read { Gives class_seen result (reads_sym tokens.now CLASS place) }
    ensures moves { IfOk result (λ x. MovesTo tokens.now place x.1) }
{
    let (token, place) = accept_key(tokens, place, Key::Class)?;
    let (named, place) = accept(tokens, place, Terminal::Name)?;
    let (bases, place) = bases(alloc, tokens, place)?;
    let (body, place) = class_body(alloc, tokens, place)?;
    let found = new_class(alloc, named, bases, body)?;
    Ok(((found, token.span), place))
}

// The bases of a class, in brackets, or none.
#[tactic(auto, unfolding(crate::specs::Definitions::reads_bases))]
fn bases(alloc: Global, tokens: &[Token], place: Place) -> Result<(Many<Expr>, Place), ParseError>
    ensures read { Gives exprs_listed result (reads_bases tokens.now place) }
    ensures moves { IfOk result (λ x. MovesUpTo tokens.now place x.1) }
{
    if !sees_sign(tokens, place, Sign::LeftParen) {
        return Ok((Many::new(alloc), place));
    }
    let (_, place) = accept_sign(tokens, place, Sign::LeftParen)?;
    let found = items(alloc, tokens, no_row(alloc, place), place)?;
    let (_, place) = accept_sign(tokens, found.place, Sign::RightParen)?;
    Ok((found.list, place))
}

// The body of a class behind its colon.
#[tactic(auto, unfolding(crate::specs::Definitions::reads_class_body))]
fn class_body(
    alloc: Global,
    tokens: &[Token],
    place: Place,
) -> Result<(Many<Stmt>, Place), ParseError>
    ensures read { Gives stmts_seen result (reads_class_body tokens.now place) }
    ensures moves { IfOk result (λ x. MovesTo tokens.now place x.1) }
{
    let (_, place) = accept_sign(tokens, place, Sign::Colon)?;
    class_block(alloc, tokens, place)
}

// A line of statements, or indented lines, where functions may stand.
#[tactic(auto, using(crate::proofs::DefinitionReading::class_blocks))]
fn class_block(
    alloc: Global,
    tokens: &[Token],
    place: Place,
) -> Result<(Many<Stmt>, Place), ParseError>
    ensures read { Gives stmts_seen result (reads_sym tokens.now CBLOCK place) }
    ensures moves { IfOk result (λ x. MovesTo tokens.now place x.1) }
{
    if !sees(tokens, place, Terminal::Newline) {
        return simple(alloc, tokens, place);
    }
    let (_, place) = accept(tokens, place, Terminal::Newline)?;
    let (_, place) = accept(tokens, place, Terminal::Indent)?;
    let (first, place) = member(alloc, tokens, place)?;
    let (found, place) = members(alloc, tokens, first, place)?;
    let (_, place) = accept(tokens, place, Terminal::Dedent)?;
    Ok((found, place))
}

// Any number of statements and functions, behind those in front of them.
#[tactic(auto, using(crate::proofs::DefinitionReading::member_rows))]
fn members(
    alloc: Global,
    tokens: &[Token],
    front: Many<Stmt>,
    place: Place,
) -> Result<(Many<Stmt>, Place), ParseError>
    ensures read { Gives stmts_seen result (reads_members tokens.now (map stmt_tree front) place) }
    ensures moves { IfOk result (λ x. MovesUpTo tokens.now place x.1) }
{
    let mut found = front;
    let mut place = place;
    'members: while begins_member(tokens, place) {
        let (more, next) = member(alloc, tokens, place)?;
        found = append(found, more)?;
        place = next;
    }
    Ok((found, place))
}

// What may stand in a class.
#[tactic(auto, using(crate::proofs::DefinitionReading::member))]
fn member(alloc: Global, tokens: &[Token], place: Place) -> Result<(Many<Stmt>, Place), ParseError>
    ensures read { Gives stmts_seen result (reads_sym tokens.now MEMBER place) }
    ensures moves { IfOk result (λ x. MovesTo tokens.now place x.1) }
{
    if !sees_key(tokens, place, Key::Def) {
        return stmt(alloc, tokens, place);
    }
    plain_def(alloc, tokens, place)
}
