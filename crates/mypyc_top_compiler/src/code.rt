//! The code that is built for a module.
ghost use Rattle.std.specs.Prelude.{IfOk};
ghost use Rattle.py_typed.specs.Statements.{typed_module};
ghost use Rattle.ir_builder_statements.specs.Modules.{ModuleSuits};
ghost use Rattle.mypyc_top_compiler.specs.Faithful.{Faithful};

use c_core::Code;
use error_edges::add_error_edges;
use ir_builder::build;
use py_typed::Checked;
use refcount_insert::insert_counts;
use std::alloc::Global;
use unset_tests::without_sure_tests;
use value_core::Memory;

/// The code of a module all of whose forms are compiled: its intermediate code, without tests of variables that are surely set, with error
/// edges and counts, as C text.
pub fn code_of(alloc: Global, checked: &Checked) -> Result<Code, Memory>
    requires { ModuleSuits (typed_module checked.now) }
    ensures { IfOk result (Faithful (typed_module checked.now)) }
{
    let program = build(alloc, checked)?;
    let tested = without_sure_tests(alloc, program)?;
    let edged = add_error_edges(alloc, tested)?;
    insert_counts(alloc, &edged)
}
