//! The C text and its machine.
//!
//! What comes in is a `Code`, the C text as data; what stands here is what it is and what it does: its one text
//! (`specs/Text.antt`), when it is well formed (`specs/WellFormed.antt`), and the machine that runs it, cells, counts
//! and ledgers included (`specs/Machine.antt`, `specs/Step.antt`, `specs/Run.antt`). The promise: these definitions
//! are total, and the public calls are exactly them.
#![tactic(auto)]

mod checked;
mod classes;
mod code;
mod decimal;
mod fault;
mod laws;
mod names;
mod primitive;
mod rows;
mod shapes;
mod well_formed;

pub use checked::check_well_formed;
pub use code::{CArg, CClass, CFunc, CLit, Code, Kind, Line};
pub use decimal::long_decimal;
pub use fault::Fault;
pub use laws::{
    ledgers_ascend, release_in_any_order, release_keeps_counts, run_exists, run_keeps_counts,
    run_stays_small, step_stays_small,
};
pub use primitive::{
    AttrPrim, BoolPrim, DictPrim, ErrPrim, ExcPrim, GlobalPrim, InstancePrim, Int64Prim, IoPrim,
    ListPrim, ObjectPrim, Primitive as Prim, StrPrim, TaggedPrim, TuplePrim,
};
pub use well_formed::{is_call_name, is_identifier, is_spelled, is_well_formed};
