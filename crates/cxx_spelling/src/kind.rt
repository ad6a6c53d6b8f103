//! What tokens are.

use crate::integers::IntegerWord;
use crate::qualifiers::Qualifier;

/// What a token is (C++, [lex.token]), as far as the grammar tells tokens apart.
#[derive(Clone, Copy)]
pub(crate) enum Kind {
    /// Nothing is left.
    End,
    /// An identifier, `(anonymous namespace)`, or a type's keyword that needs no rule of its own.
    Name,
    Double,
    Float,
    /// `wchar_t`
    WideCharacter,
    Bool,
    Void,
    Integer(IntegerWord),
    Qualifier(Qualifier),
    /// `true` or `false`.
    Truth,
    Operator,
    /// An integer literal, which may begin with `-`.
    Number,
    /// A floating-point literal, which may too.
    Floating,
    Character,
    /// `::`
    Scope,
    Less,
    Greater,
    OpenParenthesis,
    CloseParenthesis,
    OpenBracket,
    CloseBracket,
    Comma,
    Star,
    /// `&`
    Reference,
    /// `&&`
    RvalueReference,
    Ellipsis,
    /// What no rule takes, a shift operator `>>` among them.
    Other,
}
