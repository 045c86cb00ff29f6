//! The laws. The calls do nothing.
ghost use Rattle.py_check_source_laws.specs.Written.{QuietFileIsWellTyped, TreeIsWritten};

/// The tree of a file is one that a text can write: its literals are within bounds, its bodies are not empty, its names are identifiers.
pub fn trees_of_files_are_written()
    ensures { TreeIsWritten }
{}

/// A file of which typing says nothing has a well typed module.
pub fn quiet_files_are_well_typed()
    ensures { QuietFileIsWellTyped }
{}
