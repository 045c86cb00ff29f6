//! Lists of tokens, with their trees or their faults.

/// Token by token, each but `End`, and the tree of CPython's `ast`. A token stands in line 1, in the column of its
/// number, from 1, and `@` is before the column of a node. But a tuple in brackets begins at its first item's first
/// token, and a decorated definition at its first `@`.
pub(crate) const ROWS: &[(&str, &str)] = &[
    ("x NEWLINE", "[Expr(Name(x)@1)@1]"),
    ("a ; b ; NEWLINE", "[Expr(Name(a)@1)@1, Expr(Name(b)@3)@3]"),
    ("", "[]"),
    (
        "pass ; break ; continue NEWLINE",
        "[Pass@1, Break@3, Continue@5]",
    ),
    ("return NEWLINE", "[Return(None)@1]"),
    (
        "return a , b NEWLINE",
        "[Return(Tuple([Name(a)@2, Name(b)@4])@2)@1]",
    ),
    ("raise NEWLINE", "[Raise(None)@1]"),
    (
        "raise E ( 1 ) NEWLINE",
        "[Raise(Call(Name(E)@2, [Int(1)@4])@2)@1]",
    ),
    ("global a , b NEWLINE", "[Global([a, b])@1]"),
    (
        "assert a ; assert a , 'm NEWLINE",
        "[Assert(Name(a)@2, None)@1, Assert(Name(a)@5, Str(m)@7)@4]",
    ),
    (
        "del a [ b ] NEWLINE",
        "[Del(Index(Name(a)@2, Name(b)@4)@2)@1]",
    ),
    ("import a NEWLINE", "[Import(a, None)@1]"),
    ("import a . b . c as d NEWLINE", "[Import(a.b.c, d)@1]"),
    ("from a . b import c NEWLINE", "[From(a.b, [(c, None)])@1]"),
    (
        "from a import b as c , d NEWLINE",
        "[From(a, [(b, c), (d, None)])@1]",
    ),
    (
        "from a import ( b as c , d , ) NEWLINE",
        "[From(a, [(b, c), (d, None)])@1]",
    ),
    ("from a import ( b ) NEWLINE", "[From(a, [(b, None)])@1]"),
    (
        "a = b , c NEWLINE",
        "[Assign(Name(a)@1, Tuple([Name(b)@3, Name(c)@5])@3)@1]",
    ),
    ("a : int NEWLINE", "[Annot(Name(a)@1, Name(int)@3, None)@1]"),
    (
        "( a ) : b = c , NEWLINE",
        "[Annot(Name(a)@2, Name(b)@5, Tuple([Name(c)@7])@7)@1]",
    ),
    (
        "a += b , c ; a -= 1 ; a *= 1 ; a //= 1 ; a %= 1 ; a <<= 1 ; a >>= 1 NEWLINE",
        "[Aug(Name(a)@1, Add, Tuple([Name(b)@3, Name(c)@5])@3)@1, Aug(Name(a)@7, Sub, Int(1)@9)@7, Aug(Name(a)@11, Mul, Int(1)@13)@11, Aug(Name(a)@15, FloorDiv, Int(1)@17)@15, Aug(Name(a)@19, Mod, Int(1)@21)@19, Aug(Name(a)@23, Shl, Int(1)@25)@23, Aug(Name(a)@27, Shr, Int(1)@29)@27]",
    ),
    (
        "a . b [ c ] = ( a ) . b NEWLINE",
        "[Assign(Index(Attr(Name(a)@1, b)@1, Name(c)@5)@1, Attr(Name(a)@9, b)@8)@1]",
    ),
    (
        "x = 7 ; x = 'a 'b 'c ; True ; False ; None NEWLINE",
        "[Assign(Name(x)@1, Int(7)@3)@1, Assign(Name(x)@5, Str(abc)@7)@5, Expr(True@11)@11, Expr(False@13)@13, Expr(Nothing@15)@15]",
    ),
    (
        "a if b else c if d else e NEWLINE",
        "[Expr(Cond(Name(a)@1, Name(b)@3, Cond(Name(c)@5, Name(d)@7, Name(e)@9)@5)@1)@1]",
    ),
    (
        "( a if b else c ) if d else e NEWLINE",
        "[Expr(Cond(Cond(Name(a)@2, Name(b)@4, Name(c)@6)@2, Name(d)@9, Name(e)@11)@1)@1]",
    ),
    (
        "a or b or c and d and not not e NEWLINE",
        "[Expr(Or(Or(Name(a)@1, Name(b)@3)@1, And(And(Name(c)@5, Name(d)@7)@5, Not(Not(Name(e)@11)@10)@9)@5)@1)@1]",
    ),
    (
        "a < b <= c > d >= e == f != g NEWLINE",
        "[Expr(Compare(Name(a)@1, [(Lt, Name(b)@3), (Le, Name(c)@5), (Gt, Name(d)@7), (Ge, Name(e)@9), (Eq, Name(f)@11), (Ne, Name(g)@13)])@1)@1]",
    ),
    (
        "a in b not in c is d is not e NEWLINE",
        "[Expr(Compare(Name(a)@1, [(Member, Name(b)@3), (NotMember, Name(c)@6), (Is, Name(d)@8), (IsNot, Name(e)@11)])@1)@1]",
    ),
    (
        "not a in b NEWLINE",
        "[Expr(Not(Compare(Name(a)@2, [(Member, Name(b)@4)])@2)@1)@1]",
    ),
    (
        "a | b | c << d >> e NEWLINE",
        "[Expr(Bin(Bar, Bin(Bar, Name(a)@1, Name(b)@3)@1, Bin(Shr, Bin(Shl, Name(c)@5, Name(d)@7)@5, Name(e)@9)@5)@1)@1]",
    ),
    (
        "a + b * c - d // e % f NEWLINE",
        "[Expr(Bin(Sub, Bin(Add, Name(a)@1, Bin(Mul, Name(b)@3, Name(c)@5)@3)@1, Bin(Mod, Bin(FloorDiv, Name(d)@7, Name(e)@9)@7, Name(f)@11)@7)@1)@1]",
    ),
    (
        "( a + b ) * ( c ) NEWLINE",
        "[Expr(Bin(Mul, Bin(Add, Name(a)@2, Name(b)@4)@2, Name(c)@8)@1)@1]",
    ),
    (
        "- a * + - b - - c NEWLINE",
        "[Expr(Bin(Sub, Bin(Mul, Neg(Name(a)@2)@1, Plus(Neg(Name(b)@6)@5)@4)@1, Neg(Name(c)@9)@8)@1)@1]",
    ),
    (
        "- a . b ( c ) [ d ] NEWLINE",
        "[Expr(Neg(Index(Call(Attr(Name(a)@2, b)@2, [Name(c)@6])@2, Name(d)@9)@2)@1)@1]",
    ),
    (
        "f ( ) ; f ( a , c , k = b , ) NEWLINE",
        "[Expr(Call(Name(f)@1, [])@1)@1, Expr(Call(Name(f)@5, [Name(a)@7, Name(c)@9, (Name(k)@11, Name(b)@13)])@5)@5]",
    ),
    (
        "a [ b , c ] ; a [ b , ] ; a [ b ] NEWLINE",
        "[Expr(Index(Name(a)@1, Tuple([Name(b)@3, Name(c)@5])@3)@1)@1, Expr(Index(Name(a)@8, Tuple([Name(b)@10])@10)@8)@8, Expr(Index(Name(a)@14, Name(b)@16)@14)@14]",
    ),
    (
        "( ) ; ( a ) ; ( a , ) ; ( a , b ) ; ( ( a ) , b ) ; ( a ) , ( b ) NEWLINE",
        "[Expr(Tuple([])@1)@1, Expr(Name(a)@5)@4, Expr(Tuple([Name(a)@9])@9)@8, Expr(Tuple([Name(a)@14, Name(b)@16])@14)@13, Expr(Tuple([Name(a)@21, Name(b)@24])@20)@19, Expr(Tuple([Name(a)@28, Name(b)@32])@27)@27]",
    ),
    (
        "[ ] ; [ a ] ; [ a , b , ] NEWLINE",
        "[Expr(List([])@1)@1, Expr(List([Name(a)@5])@4)@4, Expr(List([Name(a)@9, Name(b)@11])@8)@8]",
    ),
    (
        "{ } ; { a : b } ; { a : b , c : d , } NEWLINE",
        "[Expr(Dict([])@1)@1, Expr(Dict([(Name(a)@5, Name(b)@7)])@4)@4, Expr(Dict([(Name(a)@11, Name(b)@13), (Name(c)@15, Name(d)@17)])@10)@10]",
    ),
    (
        "( a ) or b ; ( a ) < b ; ( a ) if b else c ; ( a ) ( b ) ; ( a ) [ b ] NEWLINE",
        "[Expr(Or(Name(a)@2, Name(b)@5)@1)@1, Expr(Compare(Name(a)@8, [(Lt, Name(b)@11)])@7)@7, Expr(Cond(Name(a)@14, Name(b)@17, Name(c)@19)@13)@13, Expr(Call(Name(a)@22, [Name(b)@25])@21)@21, Expr(Index(Name(a)@29, Name(b)@32)@28)@28]",
    ),
    (
        "if a : b NEWLINE",
        "[If([(Name(a)@2, [Expr(Name(b)@4)@4])], [])@1]",
    ),
    (
        "if a : b NEWLINE elif c : d NEWLINE elif e : f NEWLINE else : g NEWLINE",
        "[If([(Name(a)@2, [Expr(Name(b)@4)@4]), (Name(c)@7, [Expr(Name(d)@9)@9]), (Name(e)@12, [Expr(Name(f)@14)@14])], [Expr(Name(g)@18)@18])@1]",
    ),
    (
        "if a : NEWLINE INDENT if b : c NEWLINE else : d NEWLINE DEDENT",
        "[If([(Name(a)@2, [If([(Name(b)@7, [Expr(Name(c)@9)@9])], [Expr(Name(d)@13)@13])@6])], [])@1]",
    ),
    (
        "if a : NEWLINE INDENT if b : c NEWLINE DEDENT else : d NEWLINE",
        "[If([(Name(a)@2, [If([(Name(b)@7, [Expr(Name(c)@9)@9])], [])@6])], [Expr(Name(d)@14)@14])@1]",
    ),
    (
        "while a : b ; c NEWLINE",
        "[While(Name(a)@2, [Expr(Name(b)@4)@4, Expr(Name(c)@6)@6])@1]",
    ),
    (
        "for a in b : c NEWLINE",
        "[For(Name(a)@2, Name(b)@4, [Expr(Name(c)@6)@6])@1]",
    ),
    (
        "for a , ( b ) in c , d : NEWLINE INDENT e NEWLINE f NEWLINE DEDENT",
        "[For(Tuple([Name(a)@2, Name(b)@5])@2, Tuple([Name(c)@8, Name(d)@10])@8, [Expr(Name(e)@14)@14, Expr(Name(f)@16)@16])@1]",
    ),
    (
        "for a , in b : c NEWLINE",
        "[For(Tuple([Name(a)@2])@2, Name(b)@5, [Expr(Name(c)@7)@7])@1]",
    ),
    (
        "try : a NEWLINE finally : b NEWLINE",
        "[Try([Expr(Name(a)@3)@3], [], [Expr(Name(b)@7)@7])@1]",
    ),
    (
        "try : a NEWLINE except : b NEWLINE",
        "[Try([Expr(Name(a)@3)@3], [Handler(None, None, [Expr(Name(b)@7)@7])@5], None)@1]",
    ),
    (
        "try : a NEWLINE except E : b NEWLINE except ( E , F ) as e : c NEWLINE finally : d NEWLINE",
        "[Try([Expr(Name(a)@3)@3], [Handler(Name(E)@6, None, [Expr(Name(b)@8)@8])@5, Handler(Tuple([Name(E)@12, Name(F)@14])@12, e, [Expr(Name(c)@19)@19])@10], [Expr(Name(d)@23)@23])@1]",
    ),
    (
        "def f ( ) : a NEWLINE",
        "[Def(f, [], None, [Expr(Name(a)@6)@6], [])@1]",
    ),
    (
        "def f ( a , b : c , ) -> d : NEWLINE INDENT return a NEWLINE DEDENT",
        "[Def(f, [(a, None), (b, Name(c)@8)], Name(d)@12, [Return(Name(a)@17)@16], [])@1]",
    ),
    ("class C : pass NEWLINE", "[Class(C, [], [Pass@4], [])@1]"),
    (
        "class C ( ) : pass NEWLINE",
        "[Class(C, [], [Pass@6], [])@1]",
    ),
    (
        "class C ( A , B , ) : NEWLINE INDENT a : int NEWLINE def f ( self ) : pass NEWLINE b = c NEWLINE DEDENT",
        "[Class(C, [Name(A)@4, Name(B)@6], [Annot(Name(a)@12, Name(int)@14, None)@12, Def(f, [(self, None)], None, [Pass@22], [])@16, Assign(Name(b)@24, Name(c)@26)@24], [])@1]",
    ),
    (
        "@ a NEWLINE @ b . c NEWLINE class C : pass NEWLINE",
        "[Class(C, [], [Pass@12], [Name(a)@2, Attr(Name(b)@5, c)@5])@1]",
    ),
    (
        "@ a NEWLINE def f ( ) : pass NEWLINE",
        "[Def(f, [], None, [Pass@9], [Name(a)@2])@1]",
    ),
];

/// Statements of a line, with the index of the first token that cannot stand there.
pub(crate) const LINES: &[(&str, usize)] = &[
    ("x", 1),
    ("a ; b", 3),
    ("a b NEWLINE", 1),
    ("NEWLINE", 0),
    ("pass", 1),
    ("pass x NEWLINE", 1),
    ("return a ,", 3),
    ("raise a , b NEWLINE", 2),
    ("global NEWLINE", 1),
    ("global a , NEWLINE", 3),
    ("assert NEWLINE", 1),
    ("assert a , NEWLINE", 3),
    ("del NEWLINE", 1),
    ("del a , b NEWLINE", 2),
    ("import NEWLINE", 1),
    ("import a . NEWLINE", 3),
    ("import a as NEWLINE", 3),
    ("import a , b NEWLINE", 2),
    ("from NEWLINE", 1),
    ("from a NEWLINE", 2),
    ("from a import NEWLINE", 3),
    ("from a import b , NEWLINE", 5),
    ("from a import ( ) NEWLINE", 4),
    ("from a import ( b NEWLINE", 5),
    ("from a import ( b , , NEWLINE", 6),
    ("a = NEWLINE", 2),
    ("a = b = c NEWLINE", 3),
    ("a : NEWLINE", 2),
    ("a : b , c NEWLINE", 3),
    ("a : b = NEWLINE", 4),
    ("a += NEWLINE", 2),
    ("a @= b NEWLINE", 1),
];

/// The same of expressions.
pub(crate) const EXPRESSIONS: &[(&str, usize)] = &[
    ("a if b NEWLINE", 3),
    ("a if b else NEWLINE", 4),
    ("a if b if c else d NEWLINE", 3),
    ("a or NEWLINE", 2),
    ("a and NEWLINE", 2),
    ("not NEWLINE", 1),
    ("a < NEWLINE", 2),
    ("a < not b NEWLINE", 2),
    ("a not NEWLINE", 2),
    ("a not b NEWLINE", 2),
    ("a is NEWLINE", 2),
    ("a is not NEWLINE", 3),
    ("a | NEWLINE", 2),
    ("a << NEWLINE", 2),
    ("a + NEWLINE", 2),
    ("a * NEWLINE", 2),
    ("a * not b NEWLINE", 2),
    ("a ** b NEWLINE", 1),
    ("- NEWLINE", 1),
    ("- not a NEWLINE", 1),
    ("~ a NEWLINE", 0),
    ("a . NEWLINE", 2),
    ("a . 1 NEWLINE", 2),
    ("a ( NEWLINE", 2),
    ("a ( b NEWLINE", 3),
    ("a ( b = NEWLINE", 4),
    ("a ( , ) NEWLINE", 2),
    ("a ( b , , ) NEWLINE", 4),
    ("a [ ] NEWLINE", 2),
    ("a [ b NEWLINE", 3),
    ("a [ b : c ] NEWLINE", 3),
    ("( NEWLINE", 1),
    ("( a NEWLINE", 2),
    ("( , ) NEWLINE", 1),
    ("[ NEWLINE", 1),
    ("[ a NEWLINE", 2),
    ("[ , ] NEWLINE", 1),
    ("{ NEWLINE", 1),
    ("{ a } NEWLINE", 2),
    ("{ a : } NEWLINE", 3),
    ("{ a : b NEWLINE", 4),
    ("a 'b NEWLINE", 1),
    ("1 2 NEWLINE", 1),
];

/// The same of statements with blocks.
pub(crate) const BLOCKS: &[(&str, usize)] = &[
    ("if NEWLINE", 1),
    ("if a NEWLINE", 2),
    ("if a : if b : c NEWLINE", 3),
    ("if a : NEWLINE b NEWLINE", 4),
    ("if a : NEWLINE INDENT DEDENT", 5),
    ("if a : NEWLINE INDENT b NEWLINE", 7),
    ("if a : NEWLINE INDENT def f ( ) : b NEWLINE DEDENT", 5),
    ("if a : b NEWLINE elif NEWLINE", 6),
    ("if a : b NEWLINE else c NEWLINE", 6),
    ("if a : b NEWLINE else : c NEWLINE else : d NEWLINE", 9),
    ("else : a NEWLINE", 0),
    ("while a NEWLINE", 2),
    ("for a b NEWLINE", 2),
    ("for a in NEWLINE", 3),
    ("for a in b NEWLINE", 4),
    ("for not a in b : c NEWLINE", 1),
    ("for a , not b in c : d NEWLINE", 3),
    ("try a NEWLINE", 1),
    ("try : a NEWLINE", 4),
    ("try : a NEWLINE except E as NEWLINE", 7),
    ("try : a NEWLINE except E , F : b NEWLINE", 6),
    ("try : a NEWLINE finally : b NEWLINE except : c NEWLINE", 8),
    ("def NEWLINE", 1),
    ("def f NEWLINE", 2),
    ("def f ( NEWLINE", 3),
    ("def f ( a NEWLINE", 4),
    ("def f ( a : ) : b NEWLINE", 5),
    ("def f ( ) NEWLINE", 4),
    ("def f ( ) -> : a NEWLINE", 5),
    ("def f ( ) : NEWLINE a NEWLINE", 6),
    ("class NEWLINE", 1),
    ("class C NEWLINE", 2),
    ("class C ( A NEWLINE", 4),
    ("class C : def f ( ) : a NEWLINE", 3),
    ("class C : NEWLINE INDENT @ a NEWLINE", 5),
    ("class C : NEWLINE INDENT class D : a NEWLINE DEDENT", 5),
    ("@ NEWLINE", 1),
    ("@ a def", 2),
    ("@ a NEWLINE a NEWLINE", 3),
    ("DEDENT", 0),
    ("INDENT a NEWLINE", 0),
    ("x = class NEWLINE", 2),
];

/// The same, where the token is a keyword that is left out.
pub(crate) const LEFT_OUT: &[(&str, usize)] = &[
    ("async", 0),
    ("x = await", 2),
    ("lambda : a", 0),
    ("a ; nonlocal b", 2),
    ("if a : with b : c NEWLINE", 3),
    ("a . yield", 2),
    ("a NEWLINE with", 2),
];
