//! Texts that know whether their characters are their bytes.
ghost use Rattle.std.specs.Prelude.{◌≡◌, slice_get};
ghost use Rattle.std.specs.Str.{chars};
ghost use Rattle.value_core.specs.Characters as characters;

use std::marker::Model;
use value_core::{Text, char_len};

/// A text that knows whether it is ASCII alone, so that its code points need no walk. Contracts see it as the text.
#[derive(Drop)]
pub struct Letters {
    text: Text,
    is_ascii: bool,
}

impl Model for Letters {
    ghost use Rattle.std.specs.Prelude.{◌≡◌, ℕ, List, true, IsAscii};

    ghost Value = { List ℕ };

    ghost view = { λ letters. letters.text };

    ghost invariant = { λ letters. letters.is_ascii ≡ true → IsAscii letters.text };
}

impl Letters {
    /// Takes a text over. It takes no memory.
    pub fn of(text: Text) -> Letters
        ensures { result ≡ text }
    {
        let is_ascii = text.as_str().is_ascii();
        Letters { text, is_ascii }
    }

    /// The text alone. It takes no memory.
    pub fn into_text(self) -> Text
        ensures { result ≡ self }
    {
        self.text
    }

    pub fn as_text(&self) -> &Text
        ensures { result.now ≡ self.now }
    {
        &self.text
    }

    pub fn as_str(&self) -> &str
        ensures { result.now ≡ self.now }
    {
        self.text.as_str()
    }

    /// How many code points the text has.
    pub fn char_len(&self) -> usize
        ensures { result ≡ characters.char_len self.now }
    {
        let text = self.text.as_str();
        if self.is_ascii {
            text.len()
        } else {
            char_len(text)
        }
    }

    /// The code point at a place.
    pub fn char_at_place(&self, place: usize) -> Option<char>
        ensures { result ≡ slice_get (chars self.now) place }
    {
        let text = self.text.as_str();
        if self.is_ascii {
            byte_at(text, place)
        } else {
            text.chars().nth(place)
        }
    }
}

// The byte at a place, as a code point.
fn byte_at(text: &str, place: usize) -> Option<char>
    ensures { result ≡ slice_get text.now place }
{
    match text.as_bytes().get(place) {
        None => None,
        Some(byte) => Some(char::from(*byte)),
    }
}
