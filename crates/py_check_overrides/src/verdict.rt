//! What comes of the test for a class.
use value_core::Name;

/// What comes of the test that all definitions of each member of a class agree.
#[derive(Clone, Copy)]
pub enum Verdict<'a> {
    /// They do.
    Passes,
    /// They do not.
    Fails(Clash<'a>),
    /// The class is not asked: it has no type, or a base does not pass.
    Silent,
}

/// A member of which not all definitions agree with the first.
#[derive(Clone, Copy)]
pub struct Clash<'a> {
    pub name: &'a Name,
    /// The first class along the order whose definition does not.
    pub class: usize,
}
