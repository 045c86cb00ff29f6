//! What stands in the lists of a class: attributes, methods by the names of their functions, and traits with theirs.
ghost use Rattle.std.specs.Prelude.{◌≡◌, ◌≢◌, ℕ, List, MatchOption};
ghost use Rattle.c_core.specs.declared.code.Kind.{Kind};
ghost use Rattle.c_core.specs.Text.{attribute_text, method_text, slot_text, trait_text};
ghost use Rattle.c_core.specs.WellFormed.{is_identifier, spelled_trait};
ghost use Rattle.std.specs.Str.{is_utf8};
ghost use Rattle.c_text.specs.Classes.{slot_behind};

use crate::braces::{Item, next_items, write_next_items};
use crate::quote::write_quoted;
use crate::unquote::unquoted;
use crate::word::{behind, name, past, up_to_comma, up_to_end};
use crate::written::{name_word, write_word, write_words};
use c_core::Kind;
use outside_core::{Sink, WriteFault};
use std::alloc::Global;
use value_core::{Many, Memory, Name};

/// The kind of an attribute, from behind its name on, and what stands behind the attribute.
fn slot(text: &[u8]) -> Option<(Kind, &[u8])>
    ensures { MatchOption result ((kind : Kind) (rest : List ℕ) → slot_behind kind rest ≢ text.now) (λ p. slot_behind p.0 p.1.now ≡ text.now) }
{
    if let Some(rest) = behind(text, b", CPyTagged}") {
        Some((Kind::Tagged, rest))
    } else if let Some(rest) = behind(text, b", int64_t}") {
        Some((Kind::Int64, rest))
    } else if let Some(rest) = behind(text, b", char}") {
        Some((Kind::Char, rest))
    } else if let Some(rest) = behind(text, b", PyObject *}") {
        Some((Kind::Object, rest))
    } else {
        None
    }
}

/// The kind of an attribute as it is written.
fn slot_word(kind: &Kind) -> &[u8]
    ensures { result.now ≡ slot_text kind.now }
{
    match kind {
        Kind::Tagged => b"CPyTagged",
        Kind::Int64 => b"int64_t",
        Kind::Char => b"char",
        Kind::Object => b"PyObject *",
    }
}

/// An attribute.
impl Item for (Name, Kind) {
    ghost shown = { attribute_text };

    ghost spelled = { λ attribute. is_utf8 attribute.0 };

    fn read(alloc: Global, text: &[u8]) -> Result<Option<((Name, Kind), &[u8])>, Memory> {
        let Some(inside) = behind(text, b"{\"") else {
            return Ok(None);
        };
        let Some((quoted, after)) = unquoted(alloc, inside)? else {
            return Ok(None);
        };
        match slot(after) {
            Some((kind, rest)) => {
                let name = Name::from_string(quoted.into_string());
                Ok(Some(((name, kind), rest)))
            }
            None => Ok(None),
        }
    }

    fn write<O: Sink>(&self, separator: &[u8], out: &mut O) -> Result<(), WriteFault> {
        let name = name_word(&self.0);
        let kind = slot_word(&self.1);
        write_words(&[separator, b"{"], out)?;
        write_quoted(b"", name, out)?;
        write_words(&[b", ", kind, b"}"], out)
    }
}

/// A method, by the name of its function.
impl Item for Name {
    ghost shown = { method_text };

    ghost spelled = { is_identifier };

    fn read(alloc: Global, text: &[u8]) -> Result<Option<(Name, &[u8])>, Memory> {
        let Some(inside) = behind(text, b"CPyDef_") else {
            return Ok(None);
        };
        let (word, rest) = up_to_end(inside);
        match name(alloc, word)? {
            Some(name) => Ok(Some((name, rest))),
            None => Ok(None),
        }
    }

    fn write<O: Sink>(&self, separator: &[u8], out: &mut O) -> Result<(), WriteFault> {
        let name = name_word(self);
        write_words(&[separator, b"CPyDef_", name], out)
    }
}

/// A trait with its methods.
impl Item for (Name, Many<Name>) {
    ghost shown = { trait_text };

    ghost spelled = { spelled_trait };

    fn read(alloc: Global, text: &[u8]) -> Result<Option<((Name, Many<Name>), &[u8])>, Memory> {
        let Some(inside) = behind(text, b"{CPyType_") else {
            return Ok(None);
        };
        let (word, after) = up_to_comma(inside);
        let Some(name) = name(alloc, word)? else {
            return Ok(None);
        };
        let (methods, last) = next_items(alloc, after)?;
        Ok(Some(((name, methods), past(last, b"}"))))
    }

    fn write<O: Sink>(&self, separator: &[u8], out: &mut O) -> Result<(), WriteFault> {
        let name = name_word(&self.0);
        write_words(&[separator, b"{CPyType_", name], out)?;
        write_next_items(&self.1, out)?;
        write_word(b"}", out)
    }
}
