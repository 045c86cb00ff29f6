//! The laws. Each function is its clause, and does nothing when it runs.
ghost use Rattle.class_layout.specs.Laws.{ListsAreWhole, ListsHoldMembers, NamesHavePlaces, PlacesAreNumbered, PlacesStay, WellTypedClassesFit};

/// A class under one that is no trait has each attribute and each method of it at the same place.
pub fn places_stay()
    ensures { PlacesStay }
{}

/// The places of the attributes of a class, and those of the methods of a class or a trait, are the numbers from 0, each once.
pub fn places_are_numbered()
    ensures { PlacesAreNumbered }
{}

/// A class has a place for exactly the attributes and methods that a class along its order has.
pub fn names_have_places()
    ensures { NamesHavePlaces }
{}

/// The list that a class has for itself, or for a trait above it, has the class's own function at the place of each method.
pub fn lists_hold_members()
    ensures { ListsHoldMembers }
{}

/// The list that a class has for itself, or for a trait above it, is whole: the class has a function for each method.
pub fn lists_are_whole()
    ensures { ListsAreWhole }
{}

/// The classes of a well-typed module have a layout: bases come before them, traits stand behind the first base, each class has an order, and
/// all definitions of a member agree.
pub fn well_typed_classes_fit()
    ensures { WellTypedClassesFit }
{}
