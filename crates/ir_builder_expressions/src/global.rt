//! Variables of the module that are read.
ghost use Rattle.std.specs.Prelude.{◌<◌, length, IfOk};
ghost use Rattle.py_typed.specs.Expressions.{Global};
ghost use Rattle.ir_builder_frames.specs.Building.{Extends};
ghost use Rattle.ir_builder_frames.specs.Lines.{OwnLines};
ghost use Rattle.ir_builder_frames.specs.Matching.{HasRoom};
ghost use Rattle.ir_builder_expressions.specs.Site.{setting_of};
ghost use Rattle.ir_builder_expressions.specs.Reading.{EmitsRead};

use crate::site::Site;
use crate::types::register_type;
use c_core::{GlobalPrim, Prim};
use ir_builder_frames::Emitter;
use ir_core::{PArg, Reg};
use value_core::{Many, Memory};

/// The register that has the value of a variable of the module (Python Language Reference, "Naming and binding"). Where the
/// variable is unset the read fails.
pub(crate) fn emit_global_value(b: &mut Emitter, site: Site, i: usize) -> Result<Reg, Memory>
    requires there { i < length site.checked.now.globals }
    requires room { HasRoom (setting_of site) b.old }
    ensures kept { Extends b.old b.new }
    ensures emitted { IfOk result (λ r. EmitsRead (setting_of site.entry) (setting_of site.entry).source.globals i (Global i) b.old b.new r.0) }
    ensures lined { OwnLines site.entry.line b.old b.new }
{
    let variable = &site.checked.globals.as_slice()[i];
    let mut args = Many::new(site.alloc);
    args.push(PArg::Global(variable.name.clone()?))?;
    b.primitive(
        register_type(&variable.ty),
        Prim::Global(GlobalPrim::Get),
        args,
        site.line,
    )
}
