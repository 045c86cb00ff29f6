ghost use Rattle.std.specs.Prelude.{◌≡◌, ◌++◌, IfOk, OnOk};
ghost use Rattle.std.specs.List.{flat_map};
ghost use Rattle.c_runner_deeds.specs.States.{ending_of};
ghost use Rattle.mypyc_top_running.specs.Summary.{ending_name, fault_name, cell_line, summary_text};

use c_core::Fault;
use c_runner::{Ending, LiveCell, Report};
use itoa::Buffer;
use std::alloc::Global;
use value_core::{Many, Memory};

/// The summary of a run: how it ended, how many cells were left, and each of them.
pub(crate) fn summary_of(alloc: Global, report: &Report) -> Result<Vec<u8>, Memory>
    ensures { IfOk result (λ text. text.items
        ≡ summary_text (ending_of report.now.ending) report.now.live) }
{
    let mut text = Vec::from_slice(alloc, b"-- ")?;
    push_ending(&mut text, &report.ending)?;
    text.extend_from_slice(b"\n-- live ")?;
    text.extend_from_slice(Buffer::new().format(report.live.len()).as_bytes())?;
    text.extend_from_slice(b"\n")?;
    push_cells(&mut text, &report.live)?;
    Ok(text)
}

/// Adds the name of an ending.
fn push_ending(text: &mut Vec<u8>, ending: &Ending) -> Result<(), Memory>
    ensures { OnOk result (text.new.items ≡ text.old.items ++ ending_name (ending_of ending.now)) }
{
    match ending {
        Ending::Done => text.extend_from_slice(b"Done")?,
        Ending::Raised(class, _) => {
            text.extend_from_slice(b"Raised ")?;
            text.extend_from_slice(class.name().as_bytes())?;
        }
        Ending::Cut => text.extend_from_slice(b"Cut")?,
        Ending::Over => text.extend_from_slice(b"Over")?,
        Ending::Fault(fault) => {
            text.extend_from_slice(b"Fault ")?;
            text.extend_from_slice(name_of(*fault).as_bytes())?;
        }
    }
    Ok(())
}

fn name_of(fault: Fault) -> &'static str
    ensures { result.now ≡ fault_name fault }
{
    match fault {
        Fault::Kind => "Kind",
        Fault::Dead => "Dead",
        Fault::NotOwned => "NotOwned",
        Fault::Leak => "Leak",
    }
}

/// Adds the lines of the cells that were left.
fn push_cells(text: &mut Vec<u8>, cells: &Many<LiveCell>) -> Result<(), Memory>
    ensures { OnOk result (text.new.items ≡ text.old.items ++ flat_map cell_line cells.now) }
{
    for cell in cells.as_slice() {
        push_cell(text, cell)?;
    }
    Ok(())
}

/// Adds the line of a cell: what it holds, and its count.
fn push_cell(text: &mut Vec<u8>, cell: &LiveCell) -> Result<(), Memory>
    ensures { OnOk result (text.new.items ≡ text.old.items ++ cell_line cell.now) }
{
    text.extend_from_slice(b"-- ")?;
    text.extend_from_slice(cell.kind.as_str().as_bytes())?;
    text.extend_from_slice(b" ")?;
    text.extend_from_slice(Buffer::new().format(cell.count).as_bytes())?;
    text.extend_from_slice(b"\n")?;
    Ok(())
}
