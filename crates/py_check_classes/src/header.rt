//! What the header of a class gives.
use value_core::Many;

/// What the name, the decorators and the bases of a class give.
#[derive(Drop)]
pub enum Header {
    /// The class has a type.
    Typed(Shape),
    /// It has none.
    Untyped(Untyped),
}

/// Of what kind a class is, and its bases by their numbers.
#[derive(Drop)]
pub struct Shape {
    pub is_trait: bool,
    pub bases: Many<usize>,
}

/// A class without a type.
#[derive(Clone, Copy)]
pub struct Untyped {
    /// It is marked `trait`.
    pub is_trait: bool,
    /// What is wrong with its header. There is nothing where a base has no type, and then nothing is said of it.
    pub fault: Option<HeaderFault>,
}

/// What is wrong with the header of a class.
#[derive(Clone, Copy)]
pub enum HeaderFault {
    /// The name is a builtin, or was defined before in the text.
    AlreadyDefined,
    /// There is a decorator besides one `trait`.
    OutsideProfile,
    /// A base is no class that stands earlier, or two are the same.
    InvalidBase,
    /// The rules on traits do not hold.
    InvalidBases,
    /// The class and those above it stand in no order (C3).
    NoOrder,
}
