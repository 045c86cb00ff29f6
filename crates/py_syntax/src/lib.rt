//! Tokens and the syntax tree: what the lexer gives to the parser, and the parser to the passes behind it.
//!
//! Nothing is computed here but the texts of keywords and signs. `specs/Texts.antt` has those texts,
//! `specs/Tokens.antt` what holds of every whole list of tokens, and `specs/Expressions.antt` and
//! `specs/Statements.antt` the tree as plain data, with what each declared node stands for. For proofs above,
//! `proofs/ExpressionLemmas.antt` and `proofs/StatementLemmas.antt` have an equation for each kind of node.
#![tactic(auto)]

mod expression;
mod key;
mod sign;
mod statement;
mod token;

pub use expression::{Arg, BinOp, CmpOp, Expr, ExprKind};
pub use key::Key;
pub use sign::Sign;
pub use statement::{Class, Func, Handler, Module, Stmt, StmtKind};
pub use token::{Span, Token, TokenKind, Tokens};
