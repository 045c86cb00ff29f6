//! Where a call stands.
use py_check_context::{Context, Want};
use py_syntax::Span;

/// Where a call stands: what is known there of names, functions and classes, its place in the text, and what it is there for.
#[derive(Clone, Copy)]
pub struct CallSite<'a> {
    pub scope: &'a Context<'a>,
    pub span: Span,
    pub want: Want<'a>,
}
