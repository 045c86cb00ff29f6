//! Types, and the typed tree of a module.
//!
//! Types and trees are plain data with public parts. Computed are only what fits what, joins, copies and texts of types,
//! each exactly its definition. All else are definitions that the crates above are proved against: `specs/Sorts.antt`,
//! `specs/Classes.antt`, `specs/Expressions.antt` and `specs/Statements.antt` have the types, classes and trees as plain
//! data, with what declared ones stand for; `specs/Fits.antt` and `specs/TypeTexts.antt` what fits what, joins and the
//! texts of types; `specs/Order.antt` the orders of classes and their members, `specs/TargetTypes.antt` the types of what is
//! assigned to. `specs/Narrowing.antt`, `specs/WellTypedExpr.antt`, `specs/WellTyped.antt` and `specs/WellTypedModule.antt` say
//! which modules are well typed, and `specs/Laws.antt` what holds of types. For proofs above, `proofs/ExpressionLemmas.antt` and
//! `proofs/StatementLemmas.antt` have what each kind of a declared tree stands for, as equations for crates that make or walk trees.
#![tactic(auto)]

mod checked;
mod class_list;
mod classes;
mod copies;
mod expression;
mod fitting;
mod laws;
mod statement;
mod types;

pub use checked::{Checked, TFunc, Var};
pub use class_list::ClassList;
pub use classes::{ClassInfo, Classes, Sig};
pub use copies::{copy_of, type_text};
pub use expression::{TExpr, TKind};
pub use fitting::{
    fits, is_dict, is_key_type, is_nothing, is_number, is_same_type, is_text, join, number_join,
    optional, same,
};
pub use laws::{
    fits_goes_on, fits_itself, join_holds_both, join_is_symmetric, same_fits, same_goes_on,
    under_by_bases,
};
pub use statement::{THandler, TStmt, TStmtKind, Target};
pub use types::Ty;
