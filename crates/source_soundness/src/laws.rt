//! The laws. Each function is its clause, and does nothing when it runs.
ghost use Rattle.source_soundness.specs.Laws.{AttributesKeepPlaces, LinesAreUtf8, NoneIsStuck, TextsAreUtf8, TypesAreSound};

/// No well-typed module is ever stuck, for any number of turns on any input.
pub fn never_stuck()
    ensures { NoneIsStuck }
{}

/// Each value that is read or made in a run of a well-typed module has its type's shape.
pub fn types_are_sound()
    ensures { TypesAreSound }
{}

/// In a well-typed module an attribute of a class has its place in each class under it.
pub fn attributes_keep_places()
    ensures { AttributesKeepPlaces }
{}

/// Where identifiers and lines of input are in UTF-8, so is every text of a run of a well-typed module.
pub fn texts_are_utf8()
    ensures { TextsAreUtf8 }
{}

/// The lines of any input are in UTF-8.
pub fn lines_are_utf8()
    ensures { LinesAreUtf8 }
{}
