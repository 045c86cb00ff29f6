//! What is known where an expression stands.
use py_check_context::{Context, Variables};

/// What is known where an expression stands: what names mean there, the types of variables so far, and the numbers of the locals
/// that are not None.
#[derive(Clone, Copy)]
pub struct Environment<'a> {
    pub scope: &'a Context<'a>,
    pub vars: &'a Variables,
    pub known: &'a [usize],
}
