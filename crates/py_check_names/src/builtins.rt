//! What builtins and imports mean.
ghost use Rattle.std.specs.Prelude.{◌≡◌, map};
ghost use Rattle.std.specs.Map.{lookup};
ghost use Rattle.std.specs.Str.{bytes_eq};
ghost use Rattle.py_check_names.specs.Builtins as spec;

use py_check_context::{Builtin, Imported, Meaning};
use value_core::{ExcClass, Name};

const PLAIN_BUILTINS: [(&str, Meaning); 12] = [
    ("print", Meaning::Builtin(Builtin::Print)),
    ("input", Meaning::Builtin(Builtin::Input)),
    ("len", Meaning::Builtin(Builtin::Len)),
    ("range", Meaning::Builtin(Builtin::Range)),
    ("str", Meaning::Builtin(Builtin::Str)),
    ("int", Meaning::Builtin(Builtin::Int)),
    ("bool", Meaning::Builtin(Builtin::Bool)),
    ("list", Meaning::Builtin(Builtin::List)),
    ("dict", Meaning::Builtin(Builtin::Dict)),
    ("tuple", Meaning::Builtin(Builtin::Tuple)),
    ("super", Meaning::Builtin(Builtin::Super)),
    ("__name__", Meaning::ModuleName),
];

const OF_TYPING: [(&str, Meaning); 4] = [
    ("Optional", Meaning::Import(Imported::Optional)),
    ("List", Meaning::Import(Imported::List)),
    ("Dict", Meaning::Import(Imported::Dict)),
    ("Tuple", Meaning::Import(Imported::Tuple)),
];

const OF_EXTENSIONS: [(&str, Meaning); 2] = [
    ("i64", Meaning::Import(Imported::I64)),
    ("trait", Meaning::Import(Imported::Trait)),
];

const OF_FUTURE: [(&str, Meaning); 1] = [("annotations", Meaning::Import(Imported::Annotations))];

/// What a builtin name means; nothing for any other name
/// (Python Library Reference, "Built-in Functions" and "Built-in Exceptions").
pub fn builtin_meaning(name: &Name) -> Option<Meaning>
    ensures { result ≡ spec.builtin_meaning name.now }
{
    match named(&PLAIN_BUILTINS, name.as_str()) {
        Some(meaning) => Some(meaning),
        None => exception_meaning(ExcClass::named(name.as_str())),
    }
}

fn exception_meaning(class: Option<ExcClass>) -> Option<Meaning>
    ensures { result ≡ spec.exception_meaning class }
{
    match class {
        Some(class) => Some(Meaning::Exception(class)),
        None => None,
    }
}

/// What a name means that is imported from a module; nothing where it may not be
/// (Python Library Reference, "typing" and "`__future__`"; mypyc's `mypy_extensions`).
pub fn import_meaning(source: &Name, name: &Name) -> Option<Meaning>
    ensures { result ≡ spec.import_meaning source.now name.now }
{
    if source.as_str() == "typing" {
        return named(&OF_TYPING, name.as_str());
    }
    if source.as_str() == "mypy_extensions" {
        return named(&OF_EXTENSIONS, name.as_str());
    }
    if source.as_str() == "__future__" {
        return named(&OF_FUTURE, name.as_str());
    }
    None
}

fn named(pairs: &[(&str, Meaning)], name: &str) -> Option<Meaning>
    ensures { result ≡ lookup (bytes_eq name.now) (map spec.with_text pairs.now) }
{
    for (other, meaning) in pairs {
        if name == *other {
            return Some(*meaning);
        }
    }
    None
}
