//! The code of statements.
ghost use Rattle.std.specs.Prelude.{◌≡◌, [], map, Option, None, IfOk, OnOk, ℕ};
ghost use Rattle.std.specs.Option.{option_map, option_copied};
ghost use Rattle.py_typed.specs.Sorts.{Sort, sort};
ghost use Rattle.py_typed.specs.Statements.{TypedSuite, typed_stmt, typed_suite, typed_arm, arms_of};
ghost use Rattle.ir_builder_frames.specs.Building.{Extends};
ghost use Rattle.ir_builder_frames.specs.Matching.{HasRoom};
ghost use Rattle.ir_builder_expressions.specs.Site.{setting_of};
ghost use Rattle.ir_builder_loops_and_jumps.specs.Means.{means_loop, means_statement, means_suite};
ghost use Rattle.ir_builder_loops_and_jumps.specs.Around.{Begins};
ghost use Rattle.ir_builder_loops_and_jumps.specs.Runs.{Emitted};
ghost use Rattle.ir_builder_loops_and_jumps.specs.Tested.{Tested};
ghost use Rattle.ir_builder_statements.specs.Suiting.{LoopSuits, StatementSuits, SuiteSuits, ArmsSuit};
ghost use Rattle.ir_builder_statements.specs.Counting.{StepsOn, HasCounter};
ghost use Rattle.ir_builder_statements.specs.Kinds.{GivesResult};
ghost use Rattle.ir_builder_statements.specs.Lined.{arm_pieces, head_pieces, LinedPieces, LinedStatement, LinedSuite};

use crate::alone::emit_alone;
use crate::branch::{emit_split, end_arm, end_loop, join};
use crate::counting::{Begun, emit_step};
use crate::exits::leave_by;
use crate::lists::begin_list;
use crate::ranges::begin_range;
use crate::simple::{emit_assignment, emit_return, emit_update};
use ir_builder_expressions::Site;
use ir_builder_frames::Emitter;
use ir_builder_loops_and_jumps::{Exit, LoopStart, Way};
use py_typed::{TExpr, TStmt, TStmtKind, Ty};
use value_core::{Many, Memory};

/// Emits statements one after another. The exits by which they are left are added to a list. `gives` is the type of the
/// function's result, and none in the module's own code; `looping` says whether a loop is around. It fails for
/// want of memory.
#[cycle(statement)]
pub fn emit_block(
    b: &mut Emitter,
    site: Site,
    gives: Option<&Ty>,
    looping: bool,
    body: &[TStmt],
    exits: &mut Vec<Exit>,
) -> Result<(), Memory>
    requires suits { SuiteSuits (setting_of site).source (setting_of site).variables (option_map sort (option_copied gives)) looping (typed_suite body.now) }
    requires room { HasRoom (setting_of site) b.old }
    requires alone { site.frame.ret ≡ None }
    requires result { GivesResult (option_map sort (option_copied gives)) b.old.among }
    ensures kept { Extends b.old b.new }
    ensures emitted { OnOk result (Emitted (setting_of site.entry) (option_map sort (option_copied gives.entry)) looping (means_suite (setting_of site.entry) (typed_suite body.now)) b.old b.new exits.old.items exits.new.items) }
    ensures lined { OnOk result (LinedSuite (setting_of site.entry) (typed_suite body.now) b.old b.new) }
{
    for s in body {
        emit_statement(b, site, gives, looping, s, exits)?;
    }
    Ok(())
}

// A statement (Python Language Reference, "Simple statements" and "Compound statements").
#[cycle(statement)]
fn emit_statement(
    b: &mut Emitter,
    site: Site,
    gives: Option<&Ty>,
    looping: bool,
    s: &TStmt,
    exits: &mut Vec<Exit>,
) -> Result<(), Memory>
    requires suits { StatementSuits (setting_of site).source (setting_of site).variables (option_map sort (option_copied gives)) looping (typed_stmt s.now) }
    requires room { HasRoom (setting_of site) b.old }
    requires alone { site.frame.ret ≡ None }
    requires result { GivesResult (option_map sort (option_copied gives)) b.old.among }
    ensures kept { Extends b.old b.new }
    ensures emitted { OnOk result (Emitted (setting_of site.entry) (option_map sort (option_copied gives.entry)) looping (means_statement (setting_of site.entry) (typed_stmt s.now)) b.old b.new exits.old.items exits.new.items) }
    ensures lined { OnOk result (LinedStatement (setting_of site.entry) (typed_stmt s.now) b.old b.new) }
{
    let site = Site {
        line: s.line,
        ..site
    };
    match &s.kind {
        TStmtKind::Expr(e) => emit_alone(b, site, e),
        TStmtKind::Assign(targets, e) => {
            let targets = targets.as_slice();
            emit_assignment(b, site, targets, e)
        }
        TStmtKind::Aug(target, op, e, t) => emit_update(b, site, target, *op, e, t),
        TStmtKind::If(arms, other) => {
            let arms = arms.as_slice();
            let other = other.as_slice();
            emit_if(b, site, gives, looping, s, arms, other, exits)
        }
        TStmtKind::While(_, body) => {
            let body = body.as_slice();
            emit_loop(b, site, gives, looping, s, body, exits)
        }
        TStmtKind::ForRange(_, _, _, body) => {
            let body = body.as_slice();
            emit_loop(b, site, gives, looping, s, body, exits)
        }
        TStmtKind::ForList(_, _, body) => {
            let body = body.as_slice();
            emit_loop(b, site, gives, looping, s, body, exits)
        }
        TStmtKind::Return(value) => emit_return(b, site, value),
        TStmtKind::Break => leave_by(b, Way::Break, exits),
        TStmtKind::Continue => leave_by(b, Way::Continue, exits),
        TStmtKind::Pass => Ok(()),
        _ => unreachable!(),
    }
}

// The `if` statement `s`, with its arms and the body of its `else`.
#[cycle(statement)]
fn emit_if(
    b: &mut Emitter,
    site: Site,
    gives: Option<&Ty>,
    looping: bool,
    s: &TStmt,
    arms: &[(TExpr, Many<TStmt>)],
    other: &[TStmt],
    exits: &mut Vec<Exit>,
) -> Result<(), Memory>
    requires is { s.now.kind ≡ TStmtKind.If arms.now other.now }
    requires arms_suit { ArmsSuit (setting_of site).source (setting_of site).variables (option_map sort (option_copied gives)) looping (arms_of (map typed_arm arms.now)) }
    requires other_suits { SuiteSuits (setting_of site).source (setting_of site).variables (option_map sort (option_copied gives)) looping (typed_suite other.now) }
    requires room { HasRoom (setting_of site) b.old }
    requires alone { site.frame.ret ≡ None }
    requires result { GivesResult (option_map sort (option_copied gives)) b.old.among }
    ensures kept { Extends b.old b.new }
    ensures emitted { OnOk result (Emitted (setting_of site.entry) (option_map sort (option_copied gives.entry)) looping (means_statement (setting_of site.entry) (typed_stmt s.now)) b.old b.new exits.old.items exits.new.items) }
    ensures lined { OnOk result (LinedStatement (setting_of site.entry) (typed_stmt s.now) b.old b.new) }
{
    let mut inner = Vec::new(site.alloc);
    emit_arms(b, site, gives, looping, arms, &mut inner)?;
    emit_block(b, site, gives, looping, other, &mut inner)?;
    join(b, &inner, exits)
}

// The arms of an `if`: each body is left by an exit to behind the `if`.
#[cycle(statement)]
fn emit_arms(
    b: &mut Emitter,
    site: Site,
    gives: Option<&Ty>,
    looping: bool,
    arms: &[(TExpr, Many<TStmt>)],
    exits: &mut Vec<Exit>,
) -> Result<(), Memory>
    requires none { exits.old.items ≡ [] }
    requires suits { ArmsSuit (setting_of site).source (setting_of site).variables (option_map sort (option_copied gives)) looping (arms_of (map typed_arm arms.now)) }
    requires room { HasRoom (setting_of site) b.old }
    requires alone { site.frame.ret ≡ None }
    requires result { GivesResult (option_map sort (option_copied gives)) b.old.among }
    ensures kept { Extends b.old b.new }
    ensures tested { OnOk result (Tested (setting_of site.entry) (option_map sort (option_copied gives.entry)) looping [] arms.now b.old b.new exits.new.items) }
    ensures lined { OnOk result ((l : ℕ) → LinedPieces (setting_of site.entry) l (arm_pieces (arms_of (map typed_arm arms.now))) b.old b.new) }
{
    for (e, body) in arms {
        let test = emit_split(b, site, e)?;
        let body = body.as_slice();
        emit_block(b, site, gives, looping, body, exits)?;
        end_arm(b, test, exits)?;
    }
    Ok(())
}

// Begins the loop `s`: what comes before its body.
fn begin_loop(b: &mut Emitter, site: Site, s: &TStmt) -> Result<Begun, Memory>
    requires suits { (gives : Option Sort) × (body : TypedSuite) × LoopSuits (setting_of site).source (setting_of site).variables gives (typed_stmt s.now) body }
    requires room { HasRoom (setting_of site) b.old }
    ensures kept { Extends b.old b.new }
    ensures begins { IfOk result (λ o. Begins (setting_of site.entry) (StepsOn o.counter) (means_loop (setting_of site.entry) (typed_stmt s.now)) b.old b.new o.start) }
    ensures counter { IfOk result (λ o. HasCounter o.counter b.new) }
    ensures lined { OnOk result (LinedPieces (setting_of site.entry) s.now.line (head_pieces (typed_stmt s.now)) b.old b.new) }
{
    match &s.kind {
        TStmtKind::While(e, _) => {
            let head = b.step_on()?;
            let test = emit_split(b, site, e)?;
            Ok(Begun {
                start: LoopStart { head, test },
                counter: None,
            })
        }
        TStmtKind::ForRange(targets, start, stop, _) => {
            let site = Site {
                line: s.line,
                ..site
            };
            let targets = targets.as_slice();
            begin_range(b, site, targets, start, stop)
        }
        TStmtKind::ForList(targets, e, _) => {
            let site = Site {
                line: s.line,
                ..site
            };
            let targets = targets.as_slice();
            begin_list(b, site, targets, e)
        }
        _ => unreachable!(),
    }
}

// The loop `s`, with its body: behind the body it spends a turn.
#[cycle(statement)]
fn emit_loop(
    b: &mut Emitter,
    site: Site,
    gives: Option<&Ty>,
    looping: bool,
    s: &TStmt,
    body: &[TStmt],
    exits: &mut Vec<Exit>,
) -> Result<(), Memory>
    requires suits { LoopSuits (setting_of site).source (setting_of site).variables (option_map sort (option_copied gives)) (typed_stmt s.now) (typed_suite body.now) }
    requires room { HasRoom (setting_of site) b.old }
    requires alone { site.frame.ret ≡ None }
    requires result { GivesResult (option_map sort (option_copied gives)) b.old.among }
    ensures kept { Extends b.old b.new }
    ensures emitted { OnOk result (Emitted (setting_of site.entry) (option_map sort (option_copied gives.entry)) looping (means_statement (setting_of site.entry) (typed_stmt s.now)) b.old b.new exits.old.items exits.new.items) }
    ensures lined { OnOk result (LinedStatement (setting_of site.entry) (typed_stmt s.now) b.old b.new) }
{
    let mut inner = Vec::new(site.alloc);
    let begun = begin_loop(b, site, s)?;
    emit_block(b, site, gives, true, body, &mut inner)?;
    let next = b.step_on()?;
    emit_step(b, site.alloc, begun.counter, s.line)?;
    end_loop(b, begun.start, next, &inner, exits, s.line)
}
