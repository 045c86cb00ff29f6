//! How far a text has come, and which line may follow.
ghost use Rattle.std.specs.Prelude.{◌≡◌, ◌≢◌, [], IsTrue, IfOk, MatchOption};
ghost use Rattle.c_core.specs.Text.{declaration_text, function_end, global_line, indented};
ghost use Rattle.c_core.specs.WellFormed.{Declared, is_identifier};
ghost use Rattle.c_text.specs.declared.part.Part.TheVariants as variant;
ghost use Rattle.c_text.specs.Adding.{Adds, AddsNothing, AddsNothingOutside, AddsOutside, with_added, with_outside};
ghost use Rattle.c_text.specs.Classes.{IsClass, IsNoClass};
ghost use Rattle.c_text.specs.Parts.{IsAbove, IsFine, IsNext, IsOpen, GoesOn};
ghost use Rattle.c_text.specs.Statements.{AreNamed};

use crate::class::class;
use crate::declaration::{declaration, global};
use crate::head::{FunctionHead, line_head};
use crate::line::line;
use crate::lines::Lines;
use crate::variable::Variables;
use crate::word::is;
use c_core::{CClass, CFunc, Kind, Line};
use std::alloc::Global;
use value_core::{Many, Memory, Name};

/// What stands above a function: the globals, the classes, and the functions that have ended.
#[derive(Drop)]
pub(crate) struct Above {
    pub(crate) globals: Many<(Name, Kind)>,
    pub(crate) classes: Many<CClass>,
    pub(crate) functions: Many<CFunc>,
}

/// A function that has not ended.
#[derive(Drop)]
pub(crate) struct Open {
    pub(crate) head: FunctionHead,
    pub(crate) vars: Variables,
    pub(crate) lines: Lines,
}

/// What a line adds to a function: a variable that it declares, or a label or a statement.
#[derive(Drop)]
enum Added {
    Variable((Name, Kind)),
    Line(Line),
}

/// What a line adds outside of functions: a global, a class, or the head of a function with its parameters.
#[derive(Drop)]
enum Outside {
    Global((Name, Kind)),
    Class(CClass),
    Head(FunctionHead, Variables),
}

/// How far a text has come.
#[derive(Drop)]
pub(crate) enum Part {
    /// Nothing was read.
    Start,
    /// A function may follow, a class where there is no function yet, or a global where there is no class either.
    Between(Above),
    /// A function has begun.
    Inside(Above, Open),
    /// The module's own function has ended.
    Closed(Above),
}

fn behind_start(alloc: Global, piece: &[u8]) -> Option<Part>
    ensures { GoesOn variant.Start piece.now result }
{
    if is(piece, b"/* mypyc subset 1 */") {
        Some(Part::Between(Above {
            globals: Many::new(alloc),
            classes: Many::new(alloc),
            functions: Many::new(alloc),
        }))
    } else {
        None
    }
}

/// The global that a line declares, where one may stand.
fn global_behind(alloc: Global, above: &Above, piece: &[u8]) -> Result<Option<(Name, Kind)>, Memory>
    ensures { IfOk result (λ found. MatchOption found ((v : Declared) → above.now.classes ≡ [] → above.now.functions ≡ [] → IsTrue (is_identifier v.0) → global_line v ≢ piece.now)
        (λ v. (above.now.classes ≡ []) × (above.now.functions ≡ []) × IsTrue (is_identifier v.0) × (global_line v ≡ piece.now))) }
{
    if !above.classes.is_empty() {
        return Ok(None);
    }
    if !above.functions.is_empty() {
        return Ok(None);
    }
    global(alloc, piece)
}

/// The class that a line declares, where one may stand.
fn class_behind(alloc: Global, above: &Above, piece: &[u8]) -> Result<Option<CClass>, Memory>
    ensures { IfOk result (λ found. MatchOption found (above.now.functions ≡ [] → IsNoClass piece.now)
        (λ k. (above.now.functions ≡ []) × IsClass piece.now k)) }
{
    if !above.functions.is_empty() {
        return Ok(None);
    }
    class(alloc, piece)
}

/// What a line adds outside of functions, where it may stand there.
fn outer_addition(alloc: Global, above: &Above, piece: &[u8]) -> Result<Option<Outside>, Memory>
    ensures { IfOk result (λ found. MatchOption found (AddsNothingOutside above.now piece.now) (AddsOutside above.now piece.now)) }
{
    if let Some(global) = global_behind(alloc, above, piece)? {
        return Ok(Some(Outside::Global(global)));
    }
    if let Some(class) = class_behind(alloc, above, piece)? {
        return Ok(Some(Outside::Class(class)));
    }
    match line_head(alloc, piece)? {
        Some((head, vars)) => Ok(Some(Outside::Head(head, vars))),
        None => Ok(None),
    }
}

/// The part behind what a line adds outside of functions.
fn with_outside(alloc: Global, above: Above, added: Outside) -> Result<Part, Memory>
    ensures { IfOk result (λ part. part ≡ with_outside above added) }
{
    let Above {
        mut globals,
        mut classes,
        functions,
    } = above;
    match added {
        Outside::Global(global) => {
            globals.push(global)?;
            Ok(Part::Between(Above {
                globals,
                classes,
                functions,
            }))
        }
        Outside::Class(class) => {
            classes.push(class)?;
            Ok(Part::Between(Above {
                globals,
                classes,
                functions,
            }))
        }
        Outside::Head(head, vars) => {
            let above = Above {
                globals,
                classes,
                functions,
            };
            let lines = Lines::new(alloc);
            Ok(Part::Inside(above, Open { head, vars, lines }))
        }
    }
}

fn behind_between(alloc: Global, above: Above, piece: &[u8]) -> Result<Option<Part>, Memory>
    requires { IsAbove above }
    ensures { IfOk result (GoesOn (variant.Between above) piece.now) }
{
    let Some(added) = outer_addition(alloc, &above, piece)? else {
        return Ok(None);
    };
    let part = with_outside(alloc, above, added)?;
    Ok(Some(part))
}

/// The part behind the end of a function.
fn behind_end(alloc: Global, above: Above, begun: Open) -> Result<Part, Memory>
    requires above { IsAbove above }
    requires begun { IsOpen begun }
    ensures { IfOk result (IsNext (variant.Inside above begun) function_end) }
{
    let Above {
        globals,
        classes,
        mut functions,
    } = above;
    let Open { head, vars, lines } = begun;
    let vars = vars.into_list();
    let lines = lines.into_list();
    match head {
        FunctionHead::Module => {
            functions.push(CFunc {
                name: Name::from_string(String::new(alloc)),
                ret: Kind::Char,
                params: 0,
                vars,
                lines,
            })?;
            Ok(Part::Closed(Above {
                globals,
                classes,
                functions,
            }))
        }
        FunctionHead::Function(name, ret, params) => {
            functions.push(CFunc {
                name,
                ret,
                params,
                vars,
                lines,
            })?;
            Ok(Part::Between(Above {
                globals,
                classes,
                functions,
            }))
        }
    }
}

/// The variable that a line declares, where one may stand.
fn declaration_behind(
    alloc: Global,
    lines: &Lines,
    piece: &[u8],
) -> Result<Option<(Name, Kind)>, Memory>
    ensures { IfOk result (λ found. MatchOption found ((v : Declared) → lines.now ≡ [] → IsTrue (is_identifier v.0) → indented (declaration_text v) ≢ piece.now)
        (λ v. (lines.now ≡ []) × IsTrue (is_identifier v.0) × (indented (declaration_text v) ≡ piece.now))) }
{
    if !lines.is_empty() {
        return Ok(None);
    }
    declaration(alloc, piece)
}

/// What a line adds to a function, where it may stand in it.
fn addition(alloc: Global, begun: &Open, piece: &[u8]) -> Result<Option<Added>, Memory>
    requires { AreNamed begun.now.vars }
    ensures { IfOk result (λ found. MatchOption found (AddsNothing begun.now piece.now) (Adds begun.now piece.now)) }
{
    if let Some(declared) = declaration_behind(alloc, &begun.lines, piece)? {
        return Ok(Some(Added::Variable(declared)));
    }
    match line(alloc, &begun.vars, begun.lines.labels(), piece)? {
        Some(line) => Ok(Some(Added::Line(line))),
        None => Ok(None),
    }
}

/// A function with what a line adds to it.
fn with_added(alloc: Global, begun: Open, added: Added) -> Result<Open, Memory>
    ensures { IfOk result (λ grown. grown ≡ with_added begun added) }
{
    let Open { head, vars, lines } = begun;
    match added {
        Added::Variable(declared) => {
            let vars = vars.and(alloc, declared)?;
            Ok(Open { head, vars, lines })
        }
        Added::Line(line) => {
            let lines = lines.and(line)?;
            Ok(Open { head, vars, lines })
        }
    }
}

fn behind_inside(
    alloc: Global,
    above: Above,
    begun: Open,
    piece: &[u8],
) -> Result<Option<Part>, Memory>
    requires above { IsAbove above }
    requires begun { IsOpen begun }
    ensures { IfOk result (GoesOn (variant.Inside above begun) piece.now) }
{
    if is(piece, b"}") {
        let part = behind_end(alloc, above, begun)?;
        return Ok(Some(part));
    }
    let Some(added) = addition(alloc, &begun, piece)? else {
        return Ok(None);
    };
    let grown = with_added(alloc, begun, added)?;
    Ok(Some(Part::Inside(above, grown)))
}

/// The part behind one more line, where the line may follow.
pub(crate) fn behind_line(alloc: Global, part: Part, piece: &[u8]) -> Result<Option<Part>, Memory>
    requires { IsFine part }
    ensures { IfOk result (GoesOn part piece.now) }
{
    match part {
        Part::Start => Ok(behind_start(alloc, piece)),
        Part::Between(above) => behind_between(alloc, above, piece),
        Part::Inside(above, begun) => behind_inside(alloc, above, begun, piece),
        Part::Closed(_) => Ok(None),
    }
}
