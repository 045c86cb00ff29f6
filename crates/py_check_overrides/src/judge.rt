//! The verdicts on the classes of a module.
ghost use Rattle.std.specs.Prelude.{◌≡◌, ◌<◌, ℕ, List, true, if◌then◌else◌, map, length, Some, slice_get, IfOk};
ghost use Rattle.std.specs.Option.{option_map};
ghost use Rattle.std.specs.Str.{bytes_eq};
ghost use Rattle.indexmap.specs.IndexMap.{get};
ghost use Rattle.std.specs.List.{list_all};
ghost use Rattle.py_check_classes.specs.Headers.{entry};
ghost use Rattle.py_check_classes.specs.Kept as kept;
ghost use Rattle.py_typed.specs.Classes.{bases_of};
ghost use Rattle.py_check_overrides.specs.Overrides as spec;
ghost use Rattle.py_check_overrides.specs.declared.lines.Lines as declared;
ghost use Rattle.py_check_overrides.specs.Lines as lines_spec;
ghost use Rattle.py_check_overrides.specs.Judged as judged_spec;
ghost use Rattle.py_check_overrides.specs.Views as view;

use crate::below::{Place, new_below};
use crate::clash::clash_along;
use crate::lines::{Lines, Said, firsts_by};
use crate::member::{OwnMember, defined_along};
use crate::verdict::Verdict;
use indexmap::IndexMap;
use py_check_classes::{Header, order_row};
use std::alloc::Global;
use value_core::{Many, Memory, Name};

/// The classes of a module by their numbers: their headers, what is kept of their orders, and their own members in the order of the
/// text.
#[derive(Clone, Copy)]
pub struct Classes<'c, 'a> {
    pub headers: &'c [Header],
    pub orders: &'c Many<Many<usize>>,
    pub members: &'c [Many<OwnMember<'a>>],
}

/// A verdict, and what is kept of the class: the class that it stands below, and what is new of it.
#[derive(Drop)]
struct Judged<'a> {
    verdict: Verdict<'a>,
    above: Option<usize>,
    new: IndexMap<Name, Said<'a>>,
}

/// The verdicts on all classes of a module, by their numbers.
///
/// # Errors
///
/// `Memory` alone.
pub fn verdicts<'a>(alloc: Global, classes: &Classes<'_, 'a>) -> Result<Many<Verdict<'a>>, Memory>
    requires { kept.AreKept (map entry classes.now.headers.now) classes.now.orders.now }
    ensures { IfOk result (λ verdicts. map view.verdict verdicts ≡ spec.verdicts classes.now.headers.now (view.owns classes.now.members.now)) }
{
    let mut verdicts = Many::new(alloc);
    let mut lines = Lines::new(alloc);
    for header in classes.headers {
        let judged = judge(alloc, classes, verdicts.as_slice(), &lines, header)?;
        lines.add(alloc, judged.above, &judged.new)?;
        verdicts.push(judged.verdict)?;
    }
    Ok(verdicts)
}

/// The verdict on a class of this header behind these.
fn judge<'a>(
    alloc: Global,
    classes: &Classes<'_, 'a>,
    before: &[Verdict<'a>],
    lines: &Lines<'a>,
    header: &Header,
) -> Result<Judged<'a>, Memory>
    requires kept { kept.AreKept (map entry classes.now.headers.now) classes.now.orders.now }
    requires next { slice_get classes.now.headers.now (length before.now) ≡ Some header.now }
    requires lines { lines_spec.AreLines lines.now }
    requires told { judged_spec.AllTold (map entry classes.now.headers.now) (view.owns classes.now.members.now) (map view.verdict before.now) lines.now }
    ensures verdict { IfOk result (λ judged. view.verdict judged.verdict ≡ spec.verdict (map entry classes.now.headers.now) (view.owns classes.now.members.now) (map view.verdict before.now) header.now) }
    ensures judged { IfOk result (λ judged. judged_spec.IsJudged (map entry classes.now.headers.now) (view.owns classes.now.members.now) lines.now (length before.now) judged) }
{
    match header {
        Header::Typed(shape) => judge_typed(alloc, classes, before, lines, shape.bases.as_slice()),
        Header::Untyped(_) => Ok(silent(alloc)),
    }
}

fn silent<'a>(alloc: Global) -> Judged<'a>
    ensures verdict { view.verdict result.verdict ≡ spec.silent }
    ensures above { result.above ≡ None }
    ensures new { (name : List ℕ) → get bytes_eq result.new name ≡ None }
{
    Judged {
        verdict: Verdict::Silent,
        above: None,
        new: IndexMap::new(alloc),
    }
}

/// The verdict on a class that has a type, and these bases.
fn judge_typed<'a>(
    alloc: Global,
    classes: &Classes<'_, 'a>,
    before: &[Verdict<'a>],
    lines: &Lines<'a>,
    bases: &[usize],
) -> Result<Judged<'a>, Memory>
    requires kept { kept.AreKept (map entry classes.now.headers.now) classes.now.orders.now }
    requires there { length before.now < length classes.now.headers.now }
    requires bases { bases.now ≡ bases_of (map entry classes.now.headers.now) (length before.now) }
    requires lines { lines_spec.AreLines lines.now }
    requires told { judged_spec.AllTold (map entry classes.now.headers.now) (view.owns classes.now.members.now) (map view.verdict before.now) lines.now }
    ensures verdict { IfOk result (λ judged. view.verdict judged.verdict ≡ (if list_all (λ b. spec.passed (slice_get (map view.verdict before.now) b)) bases.now then spec.judged (spec.clash_of (map entry classes.now.headers.now) (view.owns classes.now.members.now) (length before.now)) else spec.silent)) }
    ensures judged { IfOk result (λ judged. judged_spec.IsJudged (map entry classes.now.headers.now) (view.owns classes.now.members.now) lines.now (length before.now) judged) }
{
    if !all_pass(before, bases) {
        return Ok(silent(alloc));
    }
    let class = before.len();
    if let [base] = bases {
        let place = Place {
            lines,
            base: *base,
            class,
        };
        if let Some(new) = new_below(alloc, &place, classes.members)? {
            return Ok(Judged {
                verdict: Verdict::Passes,
                above: Some(*base),
                new,
            });
        }
    }
    judge_along(alloc, classes, class)
}

/// Whether classes all pass.
fn all_pass(before: &[Verdict<'_>], bases: &[usize]) -> bool
    ensures { result ≡ list_all (λ b. spec.passed (slice_get (map view.verdict before.now) b)) bases.now }
{
    for base in bases {
        if !passes(before, *base) {
            return false;
        }
    }
    true
}

#[tactic(auto, using(crate::proofs::ViewLemmas::verdict_found))]
fn passes(before: &[Verdict<'_>], class: usize) -> bool
    ensures { result ≡ spec.passed (slice_get (map view.verdict before.now) class) }
{
    match before.get(class) {
        None => false,
        Some(Verdict::Passes) => true,
        Some(Verdict::Fails(_)) => false,
        Some(Verdict::Silent) => false,
    }
}

/// The verdict by all definitions along the order of a class.
fn judge_along<'a>(
    alloc: Global,
    classes: &Classes<'_, 'a>,
    class: usize,
) -> Result<Judged<'a>, Memory>
    requires kept { kept.AreKept (map entry classes.now.headers.now) classes.now.orders.now }
    requires there { class < length classes.now.headers.now }
    ensures verdict { IfOk result (λ judged. view.verdict judged.verdict ≡ spec.judged (spec.clash_of (map entry classes.now.headers.now) (view.owns classes.now.members.now) class)) }
    ensures judged { IfOk result (λ judged. (lines : declared.Lines) → judged_spec.IsJudged (map entry classes.now.headers.now) (view.owns classes.now.members.now) lines class judged) }
{
    let row = order_row(alloc, classes.headers, classes.orders, class)?;
    let row = row.as_slice();
    let members = defined_along(alloc, classes.members, row)?;
    let members = members.as_slice();
    let clash = clash_along(alloc, classes.members, row, members)?;
    let new = firsts_by(alloc, class, members)?;
    Ok(Judged {
        verdict: verdict_of(clash),
        above: None,
        new,
    })
}

fn verdict_of(clash: Option<crate::verdict::Clash<'_>>) -> Verdict<'_>
    ensures { view.verdict result ≡ spec.judged (option_map view.clash clash.entry) }
{
    match clash {
        None => Verdict::Passes,
        Some(clash) => Verdict::Fails(clash),
    }
}
