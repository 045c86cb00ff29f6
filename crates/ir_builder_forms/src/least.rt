//! The lesser of two forms that are not compiled.
ghost use Rattle.std.specs.Prelude.{◌≡◌};
ghost use Rattle.ir_builder_forms.specs.Least as spec;

use crate::form::Unbuilt;

/// The one on the lesser line, of a form and of one found before it; on one line the one found before.
pub fn lesser(unbuilt: Unbuilt, found: Option<Unbuilt>) -> Unbuilt
    ensures { result ≡ spec.lesser unbuilt found }
{
    match found {
        None => unbuilt,
        Some(before) => {
            if unbuilt.line < before.line {
                unbuilt
            } else {
                before
            }
        }
    }
}
