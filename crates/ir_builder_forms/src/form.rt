//! The forms of the language that are not compiled yet, and what they are called.
ghost use Rattle.std.specs.Prelude.{◌≡◌};
ghost use Rattle.ir_builder_forms.specs.Forms.{kind_name, form_words, form_kind};

use std::fmt;

/// What kind of type something has.
#[derive(Clone, Copy)]
pub enum TypeKind {
    Int,
    I64,
    Bool,
    Str,
    Nothing,
    List,
    Dict,
    Tuple,
    Optional,
    Class,
    Exception,
}

impl TypeKind {
    /// The name of the types of this kind.
    pub fn name(self) -> &'static str
        ensures { result.now ≡ kind_name self }
    {
        match self {
            TypeKind::Int => "int",
            TypeKind::I64 => "i64",
            TypeKind::Bool => "bool",
            TypeKind::Str => "str",
            TypeKind::Nothing => "None",
            TypeKind::List => "list",
            TypeKind::Dict => "dict",
            TypeKind::Tuple => "tuple",
            TypeKind::Optional => "Optional",
            TypeKind::Class => "class",
            TypeKind::Exception => "exception",
        }
    }
}

/// A form of the language that is not compiled yet. It is written in words.
#[derive(Clone, Copy)]
pub enum Form {
    Class,
    Del,
    Try,
    Raise,
    Assert,
    For,
    /// The name `super`.
    NameSuper,
    /// The name of a class of exceptions.
    ExceptionClass,
    DictDisplay,
    ListDisplay,
    Tuple,
    /// `in`.
    Member,
    /// `not in`.
    NotMember,
    IsNone,
    IsNotNone,
    Attribute,
    MethodCall,
    /// The method `append` of lists.
    Append,
    /// The method `pop` of lists.
    Pop,
    /// An index of a value of such a type.
    Index(TypeKind),
    /// `len` of one.
    Length(TypeKind),
    Parameter(TypeKind),
    Variable(TypeKind),
    /// What a function returns.
    Returned(TypeKind),
    /// A value whose truth is asked for.
    Condition(TypeKind),
    Value(TypeKind),
}

/// A form that is not compiled, and the line that it stands on.
#[derive(Clone, Copy)]
pub struct Unbuilt {
    pub line: usize,
    pub form: Form,
}

impl Form {
    /// What it is called, up to the kind of type that it has.
    fn words(self) -> &'static str
        ensures { result.now ≡ form_words self }
    {
        match self {
            Form::Class => "class",
            Form::Del => "del",
            Form::Try => "try",
            Form::Raise => "raise",
            Form::Assert => "assert",
            Form::For => "for",
            Form::NameSuper => "the name super",
            Form::ExceptionClass => "exception class",
            Form::DictDisplay => "dict display",
            Form::ListDisplay => "list display",
            Form::Tuple => "tuple",
            Form::Member => "in",
            Form::NotMember => "not in",
            Form::IsNone => "is None",
            Form::IsNotNone => "is not None",
            Form::Attribute => "attribute",
            Form::MethodCall => "method call",
            Form::Append => "append",
            Form::Pop => "pop",
            Form::Index(_) => "index of a",
            Form::Length(_) => "len of a",
            Form::Parameter(_) => "parameter of type",
            Form::Variable(_) => "variable of type",
            Form::Returned(_) => "result of type",
            Form::Condition(_) => "condition of type",
            Form::Value(_) => "value of type",
        }
    }

    /// The kind of type that it has, where its name says it.
    fn kind(self) -> Option<TypeKind>
        ensures { result ≡ form_kind self }
    {
        match self {
            Form::Index(kind) => Some(kind),
            Form::Length(kind) => Some(kind),
            Form::Parameter(kind) => Some(kind),
            Form::Variable(kind) => Some(kind),
            Form::Returned(kind) => Some(kind),
            Form::Condition(kind) => Some(kind),
            Form::Value(kind) => Some(kind),
            _ => None,
        }
    }
}

impl fmt::Display for Form {
    ghost use Rattle.std.specs.Prelude.{Some};
    ghost use Rattle.ir_builder_forms.specs.Forms.{form_text};

    ghost output = { λ form. Some (form_text form) };

    fn fmt<W: fmt::Write>(&self, f: &mut fmt::Formatter<W>) -> fmt::Result {
        let words = self.words();
        match self.kind() {
            None => f.write_str(words),
            Some(kind) => write!(f, "{words} {}", kind.name()),
        }
    }
}
