//! A tree as a text: each node by its word, its parts and the column of its place.
//!
//! What is left to be written stands on a list, of which the last is written first: so nothing here is recursive.
use py_syntax::{Arg, BinOp, Class, CmpOp, Expr, ExprKind, Func, Handler, Stmt, StmtKind};
use std::alloc::{AllocError, Global};
use value_core::{Many, Name};

/// What is left to be written.
#[derive(Clone, Copy)]
enum Part<'a> {
    Nothing,
    /// A word, with a comma before it where it is not the first one in its brackets.
    Word(&'a str),
    /// A text that stands directly behind what is written.
    Behind(&'a str),
    /// A number by itself, and one that is a column.
    Number(i128),
    At(usize),
    Expr(&'a Expr),
    Stmt(&'a Stmt),
    Exprs(&'a [Expr]),
    Entries(&'a [(Expr, Expr)]),
    Compared(&'a [(CmpOp, Expr)]),
    Args(&'a [Arg]),
    Suite(&'a [Stmt]),
    Names(&'a [Name]),
    Imports(&'a [(Name, Option<Name>)]),
    Params(&'a [(Name, Option<Expr>)]),
    Arms(&'a [(Expr, Many<Stmt>)]),
    Handlers(&'a [Handler]),
}

use Part::Nothing;

/// A node: its word and its parts, of which a leaf has none.
type Node<'a> = (&'a str, [Part<'a>; 5]);

fn three<'a>(word: &'a str, first: Part<'a>, second: Part<'a>, third: Part<'a>) -> Node<'a> {
    (word, [first, second, third, Nothing, Nothing])
}

fn two<'a>(word: &'a str, first: Part<'a>, second: Part<'a>) -> Node<'a> {
    three(word, first, second, Nothing)
}

fn one<'a>(word: &'a str, part: Part<'a>) -> Node<'a> {
    three(word, part, Nothing, Nothing)
}

fn leaf<'a>(word: &'a str) -> Node<'a> {
    three(word, Nothing, Nothing, Nothing)
}

fn maybe<'a>(found: &'a Option<Expr>) -> Part<'a> {
    match found {
        Some(expr) => Part::Expr(expr),
        None => Part::Word("None"),
    }
}

fn maybe_name<'a>(found: &'a Option<Name>) -> Part<'a> {
    match found {
        Some(name) => Part::Word(name.as_str()),
        None => Part::Word("None"),
    }
}

fn maybe_suite<'a>(found: &'a Option<Many<Stmt>>) -> Part<'a> {
    match found {
        Some(suite) => Part::Suite(suite.as_slice()),
        None => Part::Word("None"),
    }
}

fn word_of_operator(operator: BinOp) -> &'static str {
    match operator {
        BinOp::Add => "Add",
        BinOp::Sub => "Sub",
        BinOp::Mul => "Mul",
        BinOp::FloorDiv => "FloorDiv",
        BinOp::Mod => "Mod",
        BinOp::Shl => "Shl",
        BinOp::Shr => "Shr",
        BinOp::Bar => "Bar",
    }
}

fn word_of_comparison(operator: CmpOp) -> &'static str {
    match operator {
        CmpOp::Eq => "Eq",
        CmpOp::Ne => "Ne",
        CmpOp::Lt => "Lt",
        CmpOp::Le => "Le",
        CmpOp::Gt => "Gt",
        CmpOp::Ge => "Ge",
        CmpOp::Member => "Member",
        CmpOp::NotMember => "NotMember",
        CmpOp::Is => "Is",
        CmpOp::IsNot => "IsNot",
    }
}

fn node_of_expression<'a>(expr: &'a Expr) -> Node<'a> {
    use Part::{Expr as Sub, Word};
    match &expr.kind {
        ExprKind::Int(value) => one("Int", Part::Number(*value)),
        ExprKind::Str(text) => one("Str", Word(text.as_str())),
        ExprKind::True => leaf("True"),
        ExprKind::False => leaf("False"),
        ExprKind::Nothing => leaf("Nothing"),
        ExprKind::Name(name) => one("Name", Word(name.as_str())),
        ExprKind::Neg(a) => one("Neg", Sub(a)),
        ExprKind::Plus(a) => one("Plus", Sub(a)),
        ExprKind::Not(a) => one("Not", Sub(a)),
        ExprKind::Bin(operator, a, b) => three(
            "Bin",
            Word(word_of_operator(*operator)),
            Sub(a),
            Sub(b),
        ),
        ExprKind::Compare(a, more) => two("Compare", Sub(a), Part::Compared(more.as_slice())),
        ExprKind::And(a, b) => two("And", Sub(a), Sub(b)),
        ExprKind::Or(a, b) => two("Or", Sub(a), Sub(b)),
        ExprKind::Cond(a, test, b) => three("Cond", Sub(a), Sub(test), Sub(b)),
        ExprKind::List(items) => one("List", Part::Exprs(items.as_slice())),
        ExprKind::Dict(entries) => one("Dict", Part::Entries(entries.as_slice())),
        ExprKind::Tuple(items) => one("Tuple", Part::Exprs(items.as_slice())),
        ExprKind::Attr(a, name) => two("Attr", Sub(a), Word(name.as_str())),
        ExprKind::Index(a, b) => two("Index", Sub(a), Sub(b)),
        ExprKind::Call(callee, args) => two("Call", Sub(callee), Part::Args(args.as_slice())),
    }
}

fn node_of_function<'a>(func: &'a Func) -> Node<'a> {
    let parts = [
        Part::Word(func.name.as_str()),
        Part::Params(func.params.as_slice()),
        maybe(&func.ret),
        Part::Suite(func.body.as_slice()),
        Part::Exprs(func.marks.as_slice()),
    ];
    ("Def", parts)
}

fn node_of_class<'a>(class: &'a Class) -> Node<'a> {
    let parts = [
        Part::Word(class.name.as_str()),
        Part::Exprs(class.bases.as_slice()),
        Part::Suite(class.body.as_slice()),
        Part::Exprs(class.marks.as_slice()),
        Nothing,
    ];
    ("Class", parts)
}

fn node_of_statement<'a>(stmt: &'a Stmt) -> Node<'a> {
    use Part::{Expr as Sub, Suite, Word};
    match &stmt.kind {
        StmtKind::Expr(a) => one("Expr", Sub(a)),
        StmtKind::Assign(a, b) => two("Assign", Sub(a), Sub(b)),
        StmtKind::Annot(a, b, value) => three("Annot", Sub(a), Sub(b), maybe(value)),
        StmtKind::Aug(a, operator, b) => three(
            "Aug",
            Sub(a),
            Word(word_of_operator(*operator)),
            Sub(b),
        ),
        StmtKind::Del(a) => one("Del", Sub(a)),
        StmtKind::Pass => leaf("Pass"),
        StmtKind::Break => leaf("Break"),
        StmtKind::Continue => leaf("Continue"),
        StmtKind::Return(value) => one("Return", maybe(value)),
        StmtKind::Raise(value) => one("Raise", maybe(value)),
        StmtKind::Global(names) => one("Global", Part::Names(names.as_slice())),
        StmtKind::Assert(test, message) => two("Assert", Sub(test), maybe(message)),
        StmtKind::Import(name, other) => two("Import", Word(name.as_str()), maybe_name(other)),
        StmtKind::From(name, all) => two(
            "From",
            Word(name.as_str()),
            Part::Imports(all.as_slice()),
        ),
        StmtKind::If(arms, other) => two(
            "If",
            Part::Arms(arms.as_slice()),
            Suite(other.as_slice()),
        ),
        StmtKind::While(test, body) => two("While", Sub(test), Suite(body.as_slice())),
        StmtKind::For(a, b, body) => three("For", Sub(a), Sub(b), Suite(body.as_slice())),
        StmtKind::Try(body, handlers, last) => three(
            "Try",
            Suite(body.as_slice()),
            Part::Handlers(handlers.as_slice()),
            maybe_suite(last),
        ),
        StmtKind::Def(func) => node_of_function(func),
        StmtKind::Class(class) => node_of_class(class),
    }
}

fn node_of_handler<'a>(handler: &'a Handler) -> Node<'a> {
    let body = Part::Suite(handler.body.as_slice());
    three(
        "Handler",
        maybe(&handler.class),
        maybe_name(&handler.name),
        body,
    )
}

/// What is left to be written, the first of it last.
type Left<'a> = Vec<Part<'a>>;

fn put_all<'a>(left: &mut Left<'a>, parts: &[Part<'a>]) -> Result<(), AllocError> {
    for part in parts.iter().rev() {
        left.push(*part)?;
    }
    Ok(())
}

fn put_node<'a>(left: &mut Left<'a>, node: Node<'a>, column: usize) -> Result<(), AllocError> {
    let (word, parts) = node;
    let parts = &parts[..];
    left.push(Part::At(column))?;
    if !matches!(parts[0], Nothing) {
        left.push(Part::Behind(")"))?;
        put_all(left, parts)?;
        left.push(Part::Behind("("))?;
    }
    left.push(Part::Word(word))?;
    Ok(())
}

fn put_pair<'a>(left: &mut Left<'a>, first: Part<'a>, second: Part<'a>) -> Result<(), AllocError> {
    put_all(left, &[Part::Word("("), first, second, Part::Behind(")")])
}

/// Puts a list, from its bracket to its bracket.
fn put_list<'a>(left: &mut Left<'a>, list: Part<'a>) -> Result<(), AllocError> {
    left.push(Part::Behind("]"))?;
    put_items(left, list)?;
    left.push(Part::Word("["))?;
    Ok(())
}

fn put_items<'a>(left: &mut Left<'a>, list: Part<'a>) -> Result<(), AllocError> {
    match list {
        Part::Exprs(items) => {
            for item in items.iter().rev() {
                left.push(Part::Expr(item))?;
            }
        }
        Part::Suite(items) => {
            for item in items.iter().rev() {
                left.push(Part::Stmt(item))?;
            }
        }
        Part::Names(items) => {
            for item in items.iter().rev() {
                left.push(Part::Word(item.as_str()))?;
            }
        }
        Part::Handlers(items) => {
            for item in items.iter().rev() {
                put_node(left, node_of_handler(item), item.span.col)?;
            }
        }
        Part::Args(items) => {
            for item in items.iter().rev() {
                match &item.key {
                    Some(key) => put_pair(left, Part::Expr(key), Part::Expr(&item.value))?,
                    None => left.push(Part::Expr(&item.value))?,
                }
            }
        }
        other => put_pairs(left, other)?,
    }
    Ok(())
}

/// Puts the items of a list of pairs.
fn put_pairs<'a>(left: &mut Left<'a>, list: Part<'a>) -> Result<(), AllocError> {
    match list {
        Part::Entries(items) => {
            for item in items.iter().rev() {
                put_pair(left, Part::Expr(&item.0), Part::Expr(&item.1))?;
            }
        }
        Part::Compared(items) => {
            for item in items.iter().rev() {
                put_pair(
                    left,
                    Part::Word(word_of_comparison(item.0)),
                    Part::Expr(&item.1),
                )?;
            }
        }
        Part::Imports(items) => {
            for item in items.iter().rev() {
                put_pair(left, Part::Word(item.0.as_str()), maybe_name(&item.1))?;
            }
        }
        Part::Params(items) => {
            for item in items.iter().rev() {
                put_pair(left, Part::Word(item.0.as_str()), maybe(&item.1))?;
            }
        }
        Part::Arms(items) => {
            for item in items.iter().rev() {
                put_pair(left, Part::Expr(&item.0), Part::Suite(item.1.as_slice()))?;
            }
        }
        _ => {}
    }
    Ok(())
}

/// Writes a part, or puts what it is made of in its place.
fn write_part<'a>(out: &mut String, left: &mut Left<'a>, part: Part<'a>) -> Result<(), AllocError> {
    match part {
        Nothing => Ok(()),
        Part::Word(word) => {
            if !out.is_empty() && !out.as_str().ends_with("(") && !out.as_str().ends_with("[") {
                out.push_str(", ")?;
            }
            out.push_str(word)
        }
        Part::Behind(text) => out.push_str(text),
        Part::Number(value) => write!(out, "{value}"),
        Part::At(column) => write!(out, "@{column}"),
        Part::Expr(expr) => put_node(left, node_of_expression(expr), expr.span.col),
        Part::Stmt(stmt) => put_node(left, node_of_statement(stmt), stmt.span.col),
        list => put_list(left, list),
    }
}

/// The text of a suite. A longer one than the tests have is cut off.
pub(crate) fn suite_text(alloc: Global, body: &[Stmt]) -> Result<String, AllocError> {
    let mut out = String::new(alloc);
    let mut left = Vec::new(alloc);
    left.push(Part::Suite(body))?;
    for _part in 0..100_000 {
        let Some(part) = left.pop() else {
            break;
        };
        write_part(&mut out, &mut left, part)?;
    }
    Ok(out)
}
