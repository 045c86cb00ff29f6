//! What fits what, and the type of a choice, among a few types and a small tree of classes.

use crate::case::check;
use py_typed::{ClassInfo, ClassList, Classes, Ty, fits, join, type_text};
use std::alloc::Global;
use std::test::Fail;
use value_core::{ExcClass, Many, Memory, Name};

/// A class: its name and its bases.
fn class(alloc: Global, name: &str, bases: &[usize]) -> Result<ClassInfo, Memory> {
    Ok(ClassInfo {
        name: Name::from_str(alloc, name)?,
        is_trait: false,
        bases: Many::from_slice(alloc, bases)?,
        attrs: Many::new(alloc),
        methods: Many::new(alloc),
    })
}

/// A; B(A); C(B); D(A).
fn classes(alloc: Global) -> Result<Classes, Memory> {
    let list = ClassList::new(alloc)
        .and(alloc, class(alloc, "A", &[])?)?
        .and(alloc, class(alloc, "B", &[0])?)?
        .and(alloc, class(alloc, "C", &[1])?)?
        .and(alloc, class(alloc, "D", &[0])?)?;
    let sigs = Many::new(alloc);
    Ok(Classes { list, sigs })
}

/// The type that a letter stands for: a class's, or that of int, i64 (`w`), bool, str, None, `Exception` or `KeyError`.
fn plain_type(letter: char) -> Ty {
    match letter {
        'A' => Ty::Class(0),
        'B' => Ty::Class(1),
        'C' => Ty::Class(2),
        'D' => Ty::Class(3),
        'i' => Ty::Int,
        'w' => Ty::I64,
        'b' => Ty::Bool,
        's' => Ty::Str,
        'e' => Ty::Exc(ExcClass::Exception),
        'k' => Ty::Exc(ExcClass::KeyError),
        _ => Ty::Nothing,
    }
}

/// The type of some letters, outermost last: `?` an Optional, `l` a list, `t` a tuple of what stands before.
fn type_of(alloc: Global, letters: &str) -> Result<Ty, Memory> {
    let mut made = Ty::Nothing;
    for letter in letters.chars() {
        made = match letter {
            '?' => Ty::Optional(Box::new(alloc, made)?),
            'l' => Ty::List(Box::new(alloc, made)?),
            't' => {
                let mut parts = Many::new(alloc);
                parts.push(made)?;
                Ty::Tuple(parts)
            }
            _ => plain_type(letter),
        };
    }
    Ok(made)
}

/// Whether the first type fits the second, and the text of their join.
fn seen(alloc: Global, s: &str, t: &str) -> Result<String, Memory> {
    let classes = classes(alloc)?;
    let s = type_of(alloc, s)?;
    let t = type_of(alloc, t)?;
    let mut text = String::new(alloc);
    if fits(&s, &t, &classes) {
        text.push_str("fits, ")?;
    }
    match join(alloc, &s, &t, &classes)? {
        None => text.push_str("no join")?,
        Some(joined) => text.push_str(type_text(alloc, &joined, &classes)?.as_str())?,
    }
    Ok(text)
}

/// Two types, and what comes of them.
const ROWS: &[(&str, &str, &str)] = &[
    ("i", "i", "fits, int"),
    ("b", "i", "fits, int"),
    ("i", "b", "int"),
    ("i", "w", "fits, i64"),
    ("w", "i", "fits, i64"),
    ("b", "b", "fits, bool"),
    ("b", "w", "fits, i64"),
    ("i", "s", "no join"),
    ("n", "i", "Optional[int]"),
    ("n", "i?", "fits, Optional[int]"),
    ("i?", "n", "Optional[int]"),
    ("b", "i?", "fits, no join"),
    ("b?", "i?", "no join"),
    ("n", "n", "fits, None"),
    ("B", "A", "fits, A"),
    ("A", "B", "A"),
    ("C", "A?", "fits, Optional[A]"),
    ("B?", "A?", "fits, Optional[A]"),
    ("B", "D", "no join"),
    ("bl", "il", "no join"),
    ("Bl", "Al", "no join"),
    ("Ct", "At", "fits, tuple[A]"),
    ("bt", "it", "no join"),
    ("nt", "s?t", "fits, tuple[Optional[str]]"),
    ("k", "e", "fits, Exception"),
    ("e", "k", "Exception"),
];

#[test]
fn types(rt: HostRuntime) -> Result<(), Fail> {
    for (s, t, wanted) in ROWS {
        let Ok(text) = seen(rt.alloc(), s, t) else {
            check(&rt, &"memory", false);
            return Ok(());
        };
        check(&rt, &(s, t, text.as_str()), text.as_str() == *wanted);
    }
    Ok(())
}
