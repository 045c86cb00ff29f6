//! Where each class has its attributes and methods, and the function that it has for a method.
ghost use Rattle.std.specs.Prelude.{◌≡◌, true, map, is_some, Some, IfOk};
ghost use Rattle.std.specs.List.{list_all};
ghost use Rattle.class_layout_members.specs.Names.{place_of};
ghost use Rattle.class_layout_members.specs.Tables.{names_at};
ghost use Rattle.class_layout.specs.Layouts.{slot_in, method_slot_in, member_in, functions_in, attribute_names_in, method_names_in};

use class_layout_members::names_of;
use indexmap::IndexSet;
use std::alloc::Global;
use value_core::{Many, Memory, Name};

/// Where each class, by its number, has its attributes and methods. All look-ups are without memory.
#[derive(Drop)]
pub struct LayoutTable {
    /// The names of the attributes of each class by their places.
    pub(crate) attributes: Many<IndexSet<Name>>,
    /// The names of the methods of each class by their places.
    pub(crate) methods: Many<IndexSet<Name>>,
    /// The functions of these methods by the same places.
    pub(crate) functions: Many<Many<usize>>,
}

impl LayoutTable {
    /// The place of an attribute in an instance of a class. `None` for an attribute that the class lacks, and only then.
    pub fn slot_of(&self, class: usize, attr: &Name) -> Option<usize>
        ensures { result ≡ slot_in self.now class attr.now }
    {
        place_in(self.attributes.as_slice(), class, attr)
    }

    /// The place of a method in the list of the methods of a class. `None` for a method that the class lacks, and only then.
    pub fn method_slot(&self, class: usize, m: &Name) -> Option<usize>
        ensures { result ≡ method_slot_in self.now class m.now }
    {
        place_in(self.methods.as_slice(), class, m)
    }

    /// The place of a method in the list that a class under a trait has for the trait. `None` exactly where the trait has no such
    /// method.
    pub fn trait_slot(&self, t: usize, m: &Name) -> Option<usize>
        ensures { result ≡ method_slot_in self.now t m.now }
    {
        self.method_slot(t, m)
    }

    /// The function that a class has for a method: that of the first class along its order that has one. `None` exactly where the class
    /// has no such method.
    pub fn member(&self, class: usize, m: &Name) -> Option<usize>
        ensures { result ≡ member_in self.now class m.now }
    {
        let place = self.method_slot(class, m)?;
        self.functions(class).get(place).copied()
    }

    /// The functions of the methods of a class by their places.
    pub fn functions(&self, class: usize) -> &[usize]
        ensures { result.now ≡ functions_in self.now.functions class }
    {
        functions_at(self.functions.as_slice(), class)
    }

    /// The functions that a class has for the methods of another one, or of a trait, by their places there.
    ///
    /// # Errors
    ///
    /// `Memory` alone.
    pub fn functions_for(
        &self,
        alloc: Global,
        class: usize,
        t: usize,
    ) -> Result<Many<usize>, Memory>
        requires { list_all (λ name. is_some (member_in self.now class name)) (method_names_in self.now t) ≡ true }
        ensures { IfOk result (λ functions. map Some functions ≡ map (member_in self.now class) (method_names_in self.now t)) }
    {
        let mut functions = Many::new(alloc);
        let names = self.method_names(t);
        for name in names {
            let Some(function) = self.member(class, name) else {
                continue;
            };
            functions.push(function)?;
        }
        Ok(functions)
    }

    /// The names of the attributes of an instance of a class by their places.
    pub fn attribute_names(&self, class: usize) -> &[Name]
        ensures { result.now ≡ attribute_names_in self.now class }
    {
        names_of(self.attributes.as_slice(), class)
    }

    /// The names of the methods of a class, or of those that are asked for through a trait, by their places.
    pub fn method_names(&self, class: usize) -> &[Name]
        ensures { result.now ≡ method_names_in self.now class }
    {
        names_of(self.methods.as_slice(), class)
    }
}

/// The place of a name among those of a class.
fn place_in(tables: &[IndexSet<Name>], class: usize, name: &Name) -> Option<usize>
    ensures { result ≡ place_of name.now (names_at tables.now class) }
{
    match tables.get(class) {
        Some(names) => names.get_index_of(name),
        None => None,
    }
}

/// The functions of a class: none where there is no such class.
pub(crate) fn functions_at(functions: &[Many<usize>], class: usize) -> &[usize]
    ensures { result.now ≡ functions_in functions.now class }
{
    match functions.get(class) {
        Some(functions) => functions.as_slice(),
        None => &[],
    }
}
