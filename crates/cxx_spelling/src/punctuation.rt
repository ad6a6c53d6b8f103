//! The tokens that are neither words nor literals (C++, [lex.operators]).

ghost use Rattle.std.specs.Prelude.{◌≡◌};
ghost use Rattle.cxx_spelling.specs.Tokens.{sign, colon, ampersand, point, parenthesis, punctuation};

use crate::bytes::byte_at;
use crate::kind::Kind;

/// Stands for a namespace without a name, in one token.
const ANONYMOUS: &[u8] = b"(anonymous namespace)";

// A token of one byte, in sight of the byte behind it: `>>`, `>=` and `*=` are tokens of their own, which no rule takes.
fn sign(first: u8, second: u8) -> Kind
    ensures { result ≡ sign first second }
{
    match first {
        b',' => Kind::Comma,
        b')' => Kind::CloseParenthesis,
        b'[' => Kind::OpenBracket,
        b']' => Kind::CloseBracket,
        b'<' if second != b'<' && second != b'=' => Kind::Less,
        b'>' if second != b'>' && second != b'=' => Kind::Greater,
        b'*' if second != b'=' => Kind::Star,
        _ => Kind::Other,
    }
}

// `::`
fn colon(second: u8) -> (Kind, usize)
    ensures { result ≡ colon second }
{
    if second == b':' {
        (Kind::Scope, 2)
    } else {
        (Kind::Other, 1)
    }
}

// `&` and `&&`, and `&=`, which no rule takes.
fn ampersand(second: u8) -> (Kind, usize)
    ensures { result ≡ ampersand second }
{
    match second {
        b'&' => (Kind::RvalueReference, 2),
        b'=' => (Kind::Other, 2),
        _ => (Kind::Reference, 1),
    }
}

// `...`
fn point(second: u8, third: u8) -> (Kind, usize)
    ensures { result ≡ point second third }
{
    if second == b'.' && third == b'.' {
        (Kind::Ellipsis, 3)
    } else {
        (Kind::Other, 1)
    }
}

// `(` and `(anonymous namespace)`
fn parenthesis(bytes: &[u8]) -> (Kind, usize)
    ensures { result ≡ parenthesis bytes.now }
{
    if bytes.starts_with(ANONYMOUS) {
        (Kind::Name, 21)
    } else {
        (Kind::OpenParenthesis, 1)
    }
}

/// A token that is neither a word nor a literal, and how many bytes it has.
pub(crate) fn punctuation(bytes: &[u8]) -> (Kind, usize)
    ensures { result ≡ punctuation bytes.now }
{
    let first = byte_at(bytes, 0);
    let second = byte_at(bytes, 1);
    match first {
        b'(' => parenthesis(bytes),
        b':' => colon(second),
        b'&' => ampersand(second),
        b'.' => point(second, byte_at(bytes, 2)),
        _ => (sign(first, second), 1),
    }
}
