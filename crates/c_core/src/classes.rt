//! Whether the classes of a code are spelled and fit, tested without memory.
ghost use Rattle.std.specs.Prelude.{◌≡◌, map};
ghost use Rattle.std.specs.List.{list_all};
ghost use Rattle.std.specs.Str.{is_utf8};
ghost use Rattle.c_core.specs.WellFormed as spec;

use crate::code::{CClass, Code, Kind};
use crate::names::{is_name_in, names_differ};
use crate::well_formed::{is_identifier, is_text};
use value_core::{Many, Name};

pub(crate) fn spelled_classes(classes: &[CClass]) -> bool
    ensures { result ≡ list_all spec.spelled_class classes.now }
{
    classes.iter().all(|class| spelled_class(class))
}

fn spelled_class(class: &CClass) -> bool
    ensures { result ≡ spec.spelled_class class.now }
{
    is_identifier(class.name.as_str())
        && spelled_attributes(class.attrs.as_slice())
        && are_identifiers(class.methods.as_slice())
        && spelled_traits(class.traits.as_slice())
}

fn spelled_attributes(attributes: &[(Name, Kind)]) -> bool
    ensures { result ≡ list_all (λ a. is_utf8 a.0) attributes.now }
{
    attributes
        .iter()
        .all(|attribute| is_text(attribute.0.as_str()))
}

fn are_identifiers(names: &[Name]) -> bool
    ensures { result ≡ list_all spec.is_identifier names.now }
{
    names.iter().all(|name| is_identifier(name.as_str()))
}

fn spelled_traits(traits: &[(Name, Many<Name>)]) -> bool
    ensures { result ≡ list_all spec.spelled_trait traits.now }
{
    traits.iter().all(|entry| spelled_trait(entry))
}

fn spelled_trait(entry: &(Name, Many<Name>)) -> bool
    ensures { result ≡ spec.spelled_trait entry.now }
{
    is_identifier(entry.0.as_str()) && are_identifiers(entry.1.as_slice())
}

/// Whether the names of the classes differ, and each of them fits.
pub(crate) fn classes_fit(code: &Code) -> bool
    ensures { result ≡ spec.classes_fit code.now }
{
    names_differ(code.classes.as_slice()) && each_fits(code, code.classes.as_slice())
}

fn each_fits(code: &Code, classes: &[CClass]) -> bool
    ensures { result ≡ list_all (spec.class_fits code.now) classes.now }
{
    classes.iter().all(|class| class_fits(code, class))
}

fn class_fits(code: &Code, class: &CClass) -> bool
    ensures { result ≡ spec.class_fits code.now class.now }
{
    names_differ(class.attrs.as_slice())
        && have_functions(code, class.methods.as_slice())
        && traits_fit(code, class.traits.as_slice())
}

fn have_functions(code: &Code, names: &[Name]) -> bool
    ensures { result ≡ list_all (spec.has_function code.now) names.now }
{
    names.iter().all(|name| has_function(code, name.as_str()))
}

fn has_function(code: &Code, name: &str) -> bool
    ensures { result ≡ spec.has_function code.now name.now }
{
    is_name_in(name, code.funcs.as_slice())
}

fn traits_fit(code: &Code, traits: &[(Name, Many<Name>)]) -> bool
    ensures { result ≡ list_all (spec.trait_fits code.now) traits.now }
{
    traits.iter().all(|entry| trait_fits(code, entry))
}

fn trait_fits(code: &Code, entry: &(Name, Many<Name>)) -> bool
    ensures { result ≡ spec.trait_fits code.now entry.now }
{
    is_name_in(entry.0.as_str(), code.classes.as_slice())
        && have_functions(code, entry.1.as_slice())
}
