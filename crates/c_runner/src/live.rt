//! The cells that are there, as a report has them.
ghost use Rattle.std.specs.Prelude.{◌≡◌, IfOk, None};
ghost use Rattle.std.specs.Option.{option_copied};
ghost use Rattle.c_runner.specs.Report as report;
ghost use Rattle.c_runner.specs.Report.{live_cells, name_of_class};
ghost use Rattle.c_runner.specs.Live.{live_at};
ghost use Rattle.cell_heap.specs.Contents.{name_of, number_of, content_of};
ghost use Rattle.cell_heap.specs.Ours.{IsOurs};
ghost use Rattle.cell_heap.specs.Numbered.{numbered};

use crate::report::{LiveCell, Report};
use c_core::{CClass, Code};
use c_runner_deeds::{Cells, Ending, State};
use cell_heap::{Content, Key};
use std::alloc::Global;
use value_core::{Many, Memory, Text};

/// The cells that are there, in the order in which they were made.
pub(crate) fn live(
    alloc: Global,
    classes: &[CClass],
    cells: &Cells,
) -> Result<Many<LiveCell>, Memory>
    ensures { IfOk result (λ live. live ≡ live_cells classes.now (numbered cells.now)) }
{
    let keys = cells.keys(alloc)?;
    let mut live = Many::new(alloc);
    for key in keys.as_slice() {
        match live_cell(alloc, classes, cells, *key)? {
            None => {}
            Some(cell) => live.push(cell)?,
        }
    }
    Ok(live)
}

/// How the cell of a key stands in a report, if it is there.
fn live_cell(
    alloc: Global,
    classes: &[CClass],
    cells: &Cells,
    key: Key,
) -> Result<Option<LiveCell>, Memory>
    requires { IsOurs cells.now (name_of key) }
    ensures { IfOk result (λ live. live ≡ live_at classes.now (numbered cells.now) (number_of key)) }
{
    let Ok(content) = cells.content(key) else {
        return Ok(None);
    };
    let Ok(count) = cells.count(key) else {
        return Ok(None);
    };
    Ok(Some(LiveCell {
        kind: Text::from_str(alloc, kind_name(classes, content))?,
        count,
    }))
}

/// What a cell holds, by name.
fn kind_name<'a>(classes: &'a [CClass], content: &Content) -> &'a str
    ensures { result.now ≡ report.kind_name classes.now (content_of content.now) }
{
    match content {
        Content::Int(_) => "Int",
        Content::Str(_) => "Str",
        Content::List(_) => "List",
        Content::Dict(_) => "Dict",
        Content::Tuple(_) => "Tuple",
        Content::Inst(class, _) => class_name(classes.get(*class)),
        Content::Exc(class, _) => class.name(),
    }
}

/// The name of a class, empty where there is none.
fn class_name(class: Option<&CClass>) -> &str
    ensures { result.now ≡ name_of_class (option_copied class.entry) }
{
    match class {
        None => "",
        Some(class) => class.name.as_str(),
    }
}

/// The report of a run of a code that ends so, and wrote something or not.
pub(crate) fn report_of(
    state: &State,
    alloc: Global,
    code: &Code,
    ending: Ending,
    has_output: bool,
) -> Result<Report, Memory>
    ensures ending { IfOk result (λ report. report.ending ≡ ending) }
    ensures live { IfOk result (λ report. report.live ≡ live_cells code.now.classes (numbered state.now.cells)) }
    ensures turns { IfOk result (λ report. report.turns_left ≡ state.now.turns) }
    ensures output { IfOk result (λ report. report.has_output ≡ has_output) }
{
    Ok(Report {
        ending,
        live: live(alloc, code.classes.as_slice(), &state.cells)?,
        turns_left: state.turns,
        has_output,
    })
}
