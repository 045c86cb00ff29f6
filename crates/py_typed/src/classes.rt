//! Classes and signatures.
use crate::class_list::ClassList;
use crate::types::Ty;
use value_core::{Many, Name};

/// What a function takes and gives. Of a method, without its first parameter.
#[derive(Drop)]
pub struct Sig {
    pub params: Many<Ty>,
    pub ret: Ty,
}

/// A class: its bases by their numbers, the attributes that it declares itself, and its own methods by the numbers of their
/// functions.
#[derive(Drop)]
pub struct ClassInfo {
    pub name: Name,
    pub is_trait: bool,
    pub bases: Many<usize>,
    pub attrs: Many<(Name, Ty)>,
    pub methods: Many<(Name, usize)>,
}

/// The classes by their numbers, and the signatures of functions by theirs.
#[derive(Drop)]
pub struct Classes {
    pub list: ClassList,
    pub sigs: Many<Sig>,
}
