//! The code of a function's body.
ghost use Rattle.std.specs.Prelude.{◌≡◌, ℕ, suc, ◌≤◌, ◌<◌, ◌^◌, [], ◌∷◌, map, length, OnOk, false};
ghost use Rattle.std.specs.Option.{option_map, option_copied};
ghost use Rattle.py_typed.specs.Sorts.{sort};
ghost use Rattle.py_typed.specs.Statements.{typed_module, typed_suite, variable};
ghost use Rattle.ir_builder_frames.specs.Settings.{setting};
ghost use Rattle.ir_builder_frames.specs.Kinds.{LiteralFits};
ghost use Rattle.ir_builder_frames.specs.Matching.{HasRoom};
ghost use Rattle.ir_builder_frames.specs.Shaped.{AllFit};
ghost use Rattle.ir_builder_frames.specs.Lines.{OwnLines};
ghost use Rattle.ir_builder_loops_and_jumps.specs.Means.{means_suite};
ghost use Rattle.ir_builder_statements.specs.Kinds.{GivesResult};
ghost use Rattle.ir_builder_statements.specs.Suiting.{SuiteSuits};
ghost use Rattle.ir_builder_statements.specs.Lined.{body as body_piece, LinedPieces};
ghost use Rattle.ir_builder.specs.Bodies.{Filled, Bodied, body_frame};

use ir_builder_expressions::Site;
use ir_builder_frames::{Emitter, Frame, Vars};
use ir_builder_statements::emit_block;
use ir_core::{Last, Lit, RType};
use py_typed::{Checked, TStmt, Ty, Var};
use std::alloc::Global;
use value_core::Memory;

/// The line of what no statement stands for.
pub const NO_LINE: usize = 0;

/// Emits the body of a function, which gives a literal of a type where its statements come to their end.
pub fn emit_body(
    b: &mut Emitter,
    alloc: Global,
    checked: &Checked,
    locals: &[Var],
    vars: Vars,
    gives: Option<&Ty>,
    t: RType,
    last: Lit,
    body: &[TStmt],
) -> Result<(), Memory>
    requires suits { SuiteSuits (typed_module checked.now) (map variable locals.now) (option_map sort (option_copied gives)) false (typed_suite body.now) }
    requires room { HasRoom (setting checked.now locals.now (body_frame vars)) b.old }
    requires result { GivesResult (option_map sort (option_copied gives)) b.old.among }
    requires ret { b.old.among.ret ≡ t }
    requires literal { LiteralFits t last }
    ensures bodied { OnOk result (Bodied (setting checked.now locals.now (body_frame vars)) (option_map sort (option_copied gives.entry)) t last (means_suite (setting checked.now locals.now (body_frame vars)) (typed_suite body.now)) b.old b.new) }
    ensures fits { OnOk result ((m : ℕ) → length b.new.blocks ≡ suc m → AllFit m 0 b.new.blocks) }
    ensures lined { OnOk result (LinedPieces (setting checked.now locals.now (body_frame vars)) 0 (body_piece (typed_suite body.now) ∷ []) b.old b.new) }
    ensures few { OnOk result (length b.new.blocks < 2 ^ 64) }
{
    let start = b.here();
    let frame = Frame {
        locals: vars,
        ret: None,
    };
    let site = Site {
        alloc,
        checked,
        locals,
        frame,
        line: NO_LINE,
    };
    let mut exits = Vec::new(alloc);
    emit_block(b, site, gives, false, body, &mut exits)?;
    let r = b.literal(t, last, NO_LINE)?;
    let end = b.here();
    b.close(Last::Return(r))?;
    fill(b, start, end);
    // there are no more blocks than numbers
    let _count = b.here();
    Ok(())
}

// Writes the ends that are still open in a stretch, as jumps to the block behind it. No run comes to them.
fn fill(b: &mut Emitter, from: usize, to: usize)
    requires order { from ≤ to }
    requires room { to ≤ length b.old.blocks }
    ensures filled { Filled b.old b.new from to to }
    ensures within { (m : ℕ) → to ≤ m → AllFit m 0 b.old.blocks → AllFit m 0 b.new.blocks }
    ensures lined { (l : ℕ) → OwnLines l b.old b.new }
{
    for k in from..to {
        if b.is_open(k) {
            b.patch(k, Last::Goto(to));
        }
    }
}
