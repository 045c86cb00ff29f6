//! Texts with their tokens or their faults, as CPython has them.
use crate::case::check;
use py_lexer::{LexError, LexKind, tokens};
use py_syntax::TokenKind;
use std::alloc::{AllocError, Global};
use std::process::Abort;
use std::test::Fail;

/// Texts with their tokens, each behind its place, as CPython's `tokenize` has them: but that `Newline` stands directly
/// behind the last token of its line, `Indent` and `Dedent` at the first one of theirs, and `...` is three dots.
const ROWS: &[(&str, &str)] = &[
    ("", "1:1 End"),
    ("\n\n", "3:1 End"),
    ("x", "1:1 Name(x) 1:2 Newline 2:1 End"),
    (
        "if a:\r\n  b\r\n",
        "1:1 if 1:4 Name(a) 1:5 : 1:6 Newline 2:3 Indent 2:3 Name(b) 2:4 Newline 3:1 Dedent 3:1 End",
    ),
    (
        "a\rb\r\nc\n",
        "1:1 Name(a) 1:2 Newline 2:1 Name(b) 2:2 Newline 3:1 Name(c) 3:2 Newline 4:1 End",
    ),
    (
        "if a:\n  b\n# c\n\n  d\ne\n",
        "1:1 if 1:4 Name(a) 1:5 : 1:6 Newline 2:3 Indent 2:3 Name(b) 2:4 Newline 5:3 Name(d) 5:4 Newline 6:1 Dedent 6:1 Name(e) 6:2 Newline 7:1 End",
    ),
    (
        "class A:\n\tx: int = 0\n\n\tdef f(self) -> A:  # eight\n\t\tself.x += 1; return self\n\nx = None\n",
        "1:1 class 1:7 Name(A) 1:8 : 1:9 Newline 2:2 Indent 2:2 Name(x) 2:3 : 2:5 Name(int) 2:9 = 2:11 Int(0) 2:12 Newline 4:2 def 4:6 Name(f) 4:7 ( 4:8 Name(self) 4:12 ) 4:14 -> 4:17 Name(A) 4:18 : 4:19 Newline 5:3 Indent 5:3 Name(self) 5:7 . 5:8 Name(x) 5:10 += 5:13 Int(1) 5:14 ; 5:16 return 5:23 Name(self) 5:27 Newline 7:1 Dedent 7:1 Dedent 7:1 Name(x) 7:3 = 7:5 None 7:9 Newline 8:1 End",
    ),
    (
        "if a:\n        b\nelse:\n\tc\n",
        "1:1 if 1:4 Name(a) 1:5 : 1:6 Newline 2:9 Indent 2:9 Name(b) 2:10 Newline 3:1 Dedent 3:1 else 3:5 : 3:6 Newline 4:2 Indent 4:2 Name(c) 4:3 Newline 5:1 Dedent 5:1 End",
    ),
    (
        "f(a,\n  [1,\n# c\n\n 2]\n)\n",
        "1:1 Name(f) 1:2 ( 1:3 Name(a) 1:4 , 2:3 [ 2:4 Int(1) 2:5 , 5:2 Int(2) 5:3 ] 6:1 ) 6:2 Newline 7:1 End",
    ),
    (
        "x = 1 \\\n  + 2 # \\\n",
        "1:1 Name(x) 1:3 = 1:5 Int(1) 2:3 + 2:5 Int(2) 2:6 Newline 3:1 End",
    ),
    (
        "é = 'ß' + ﬁ\n日本(é)\n",
        "1:1 Name(é) 1:3 = 1:5 Str(ß) 1:9 + 1:11 Name(fi) 1:12 Newline 2:1 Name(日本) 2:3 ( 2:4 Name(é) 2:5 ) 2:6 Newline 3:1 End",
    ),
    (
        "if x:\n pass\n#\n  # deep\n",
        "1:1 if 1:4 Name(x) 1:5 : 1:6 Newline 2:2 Indent 2:2 pass 2:6 Newline 5:1 Dedent 5:1 End",
    ),
    (
        "not x in y is None",
        "1:1 not 1:5 Name(x) 1:7 in 1:10 Name(y) 1:12 is 1:15 None 1:19 Newline 2:1 End",
    ),
    (
        "match = case or type",
        "1:1 Name(match) 1:7 = 1:9 Name(case) 1:14 or 1:17 Name(type) 1:21 Newline 2:1 End",
    ),
    (
        "a//=b//c/d>>=e>>f>g**=h**i*j",
        "1:1 Name(a) 1:2 //= 1:5 Name(b) 1:6 // 1:8 Name(c) 1:9 / 1:10 Name(d) 1:11 >>= 1:14 Name(e) 1:15 >> 1:17 Name(f) 1:18 > 1:19 Name(g) 1:20 **= 1:23 Name(h) 1:24 ** 1:26 Name(i) 1:27 * 1:28 Name(j) 1:29 Newline 2:1 End",
    ),
    (
        "a<=b<<c<<=d!=e==f:=g->h|=i|j",
        "1:1 Name(a) 1:2 <= 1:4 Name(b) 1:5 << 1:7 Name(c) 1:8 <<= 1:11 Name(d) 1:12 != 1:14 Name(e) 1:15 == 1:17 Name(f) 1:18 := 1:20 Name(g) 1:21 -> 1:23 Name(h) 1:24 |= 1:26 Name(i) 1:27 | 1:28 Name(j) 1:29 Newline 2:1 End",
    ),
    (
        "a&b^c~d@e%f&=g^=h@=i%=j-=k...",
        "1:1 Name(a) 1:2 & 1:3 Name(b) 1:4 ^ 1:5 Name(c) 1:6 ~ 1:7 Name(d) 1:8 @ 1:9 Name(e) 1:10 % 1:11 Name(f) 1:12 &= 1:14 Name(g) 1:15 ^= 1:17 Name(h) 1:18 @= 1:20 Name(i) 1:21 %= 1:23 Name(j) 1:24 -= 1:26 Name(k) 1:27 . 1:28 . 1:29 . 1:30 Newline 2:1 End",
    ),
    (
        "a = '''x\n y''' 'z'\nb",
        "1:1 Name(a) 1:3 = 1:5 Str(x\n y) 2:7 Str(z) 2:10 Newline 3:1 Name(b) 3:2 Newline 4:1 End",
    ),
    (
        "u'a' R'\\n' \"\" ''",
        "1:1 Str(a) 1:6 Str(\\n) 1:12 Str() 1:15 Str() 1:17 Newline 2:1 End",
    ),
    (
        "0x_fF 0B1_0 0o17 1_000 00 0_0 170141183460469231731687303715884105727",
        "1:1 Int(255) 1:7 Int(2) 1:13 Int(15) 1:18 Int(1000) 1:24 Int(0) 1:27 Int(0) 1:31 Int(170141183460469231731687303715884105727) 1:70 Newline 2:1 End",
    ),
    (
        "'\\\\\\'\\\"\\a\\b\\f\\t\\v'",
        "1:1 Str(\\'\"\u{7}\u{8}\u{c}\t\u{b}) 1:19 Newline 2:1 End",
    ),
    (
        "'\\0\\7\\101\\1018\\377\\x41\\u00e9\\U0001F600\\q'",
        "1:1 Str(\u{0}\u{7}AA8ÿAé😀\\q) 1:42 Newline 2:1 End",
    ),
    (
        "'a\\\nb' r'c\\\nd'",
        "1:1 Str(ab) 2:4 Str(c\\\nd) 3:3 Newline 4:1 End",
    ),
    (
        "def f(a: int, b) -> None:\n    while True: break\n    return\n",
        "1:1 def 1:5 Name(f) 1:6 ( 1:7 Name(a) 1:8 : 1:10 Name(int) 1:13 , 1:15 Name(b) 1:16 ) 1:18 -> 1:21 None 1:25 : 1:26 Newline 2:5 Indent 2:5 while 2:11 True 2:15 : 2:17 break 2:22 Newline 3:5 return 3:11 Newline 4:1 Dedent 4:1 End",
    ),
];

/// Texts with the line and the kind of their first fault.
const FAULTS: &[(&str, usize, LexKind)] = &[
    ("a\n  b\n c\n", 3, LexKind::BadIndent),
    ("if a:\n    b\n  \\\n\n  c\n", 5, LexKind::BadIndent),
    ("if a:\n    b\n  \\\n  c\n", 3, LexKind::BadIndent),
    ("if a:\n\tb\n    c\n", 3, LexKind::BadIndent),
    ("if True:\n        a = 1\n\tb = 2\n", 3, LexKind::Tab),
    ("if a:\n \tb\n\tc\n", 3, LexKind::Tab),
    ("a $ b", 1, LexKind::BadCharacter),
    ("a\n\nb ! c", 3, LexKind::BadCharacter),
    ("x \\ y", 1, LexKind::BadCharacter),
    ("(\n?", 2, LexKind::BadCharacter),
    ("\u{b7}x", 1, LexKind::BadCharacter),
    ("x\u{0}", 1, LexKind::BadCharacter),
    ("print(03)", 1, LexKind::BadNumber),
    ("1__0", 1, LexKind::BadNumber),
    ("1_", 1, LexKind::BadNumber),
    ("0x", 1, LexKind::BadNumber),
    ("0o8", 1, LexKind::BadNumber),
    ("1.5", 1, LexKind::BadNumber),
    ("x\n.5", 2, LexKind::BadNumber),
    ("1if", 1, LexKind::BadNumber),
    (
        "170141183460469231731687303715884105728",
        1,
        LexKind::BadNumber,
    ),
    ("b'a'", 1, LexKind::BadString),
    ("fR'a'", 1, LexKind::BadString),
    ("'\\xg0'", 1, LexKind::BadString),
    ("'\\u12'", 1, LexKind::BadString),
    ("'\\uDFFF'", 1, LexKind::BadString),
    ("'\\U00110000'", 1, LexKind::BadString),
    ("'\\N{DIGIT ONE}'", 1, LexKind::BadString),
    ("'''\n\\N", 2, LexKind::BadString),
    ("'a", 1, LexKind::Unended),
    ("\n'a\nb'", 2, LexKind::Unended),
    ("'''a\nb\n", 1, LexKind::Unended),
    ("print(1", 1, LexKind::Unended),
    ("(\n[\n1}\n", 1, LexKind::Unended),
    ("(\n[\n1\n", 2, LexKind::Unended),
    ("a \\\n", 1, LexKind::Unended),
    ("a \\", 1, LexKind::Unended),
];

/// A token as the rows have it: a keyword or a sign as source texts write it.
fn word_of(alloc: Global, kind: &TokenKind) -> Result<String, AllocError> {
    let word = match kind {
        TokenKind::Name(name) => return format!(in alloc; "Name({})", name.as_str()),
        TokenKind::Str(text) => return format!(in alloc; "Str({})", text.as_str()),
        TokenKind::Int(value) => return format!(in alloc; "Int({value})"),
        TokenKind::Key(key) => key.text(),
        TokenKind::Sign(sign) => sign.text(),
        TokenKind::Newline => "Newline",
        TokenKind::Indent => "Indent",
        TokenKind::Dedent => "Dedent",
        TokenKind::End => "End",
    };
    String::from_str(alloc, word)
}

/// The tokens of a text, each behind its place.
fn shown(alloc: Global, text: &str) -> Result<String, AllocError> {
    let mut out = String::new(alloc);
    if let Ok(found) = tokens(alloc, text) {
        for token in found.list.as_slice() {
            let word = word_of(alloc, &token.kind)?;
            let gap = if out.is_empty() { "" } else { " " };
            let place = token.span;
            let shown = format!(in alloc; "{gap}{}:{} {word}", place.line, place.col)?;
            out.push_str(shown.as_str())?;
        }
    }
    Ok(out)
}

fn check_fault(rt: &impl Abort, alloc: Global, text: &str, want: Option<LexError>) {
    let found = tokens(alloc, text).err();
    check(rt, &text, found == want);
}

#[test]
fn tokens_are_cpythons(rt: HostRuntime) -> Result<(), Fail> {
    for (text, want) in ROWS {
        let found = shown(rt.alloc(), text)?;
        check(&rt, &(text, found.as_str()), found.as_str() == *want);
    }
    Ok(())
}

#[test]
fn faults_are_the_first_ones(rt: HostRuntime) {
    for (text, line, kind) in FAULTS {
        check_fault(&rt, rt.alloc(), text, Some(LexError::Fault(*line, *kind)));
    }
}
