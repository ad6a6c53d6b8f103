//! The words that aren't names (C++, [lex.key]).

ghost use Rattle.std.specs.Prelude.{◌≡◌};
ghost use Rattle.cxx_spelling.specs.Keywords.{keyword, sign_keyword, width_keyword, type_keyword, floating_keyword, value_keyword, class_keyword, other_keyword, cast_keyword};

use crate::integers::IntegerWord;
use crate::kind::Kind;
use crate::qualifiers::Qualifier;

/// What a word is.
pub(crate) fn keyword(word: &[u8]) -> Kind
    ensures { result ≡ keyword word.now }
{
    if word == b"const".as_slice() {
        Kind::Qualifier(Qualifier::Const)
    } else if word == b"volatile".as_slice() {
        Kind::Qualifier(Qualifier::Volatile)
    } else if word == b"restrict".as_slice() {
        Kind::Qualifier(Qualifier::Restrict)
    } else {
        sign_keyword(word)
    }
}

fn sign_keyword(word: &[u8]) -> Kind
    ensures { result ≡ sign_keyword word.now }
{
    if word == b"signed".as_slice() {
        Kind::Integer(IntegerWord::Signed)
    } else if word == b"unsigned".as_slice() {
        Kind::Integer(IntegerWord::Unsigned)
    } else if word == b"char".as_slice() {
        Kind::Integer(IntegerWord::Char)
    } else {
        width_keyword(word)
    }
}

fn width_keyword(word: &[u8]) -> Kind
    ensures { result ≡ width_keyword word.now }
{
    if word == b"int".as_slice() {
        Kind::Integer(IntegerWord::Int)
    } else if word == b"long".as_slice() {
        Kind::Integer(IntegerWord::Long)
    } else if word == b"short".as_slice() {
        Kind::Integer(IntegerWord::Short)
    } else {
        type_keyword(word)
    }
}

fn type_keyword(word: &[u8]) -> Kind
    ensures { result ≡ type_keyword word.now }
{
    if word == b"void".as_slice() {
        Kind::Void
    } else if word == b"bool".as_slice() {
        Kind::Bool
    } else if word == b"wchar_t".as_slice() {
        Kind::WideCharacter
    } else {
        floating_keyword(word)
    }
}

fn floating_keyword(word: &[u8]) -> Kind
    ensures { result ≡ floating_keyword word.now }
{
    if word == b"double".as_slice() {
        Kind::Double
    } else if word == b"float".as_slice() {
        Kind::Float
    } else {
        value_keyword(word)
    }
}

fn value_keyword(word: &[u8]) -> Kind
    ensures { result ≡ value_keyword word.now }
{
    if word == b"true".as_slice() {
        Kind::Truth
    } else if word == b"false".as_slice() {
        Kind::Truth
    } else if word == b"operator".as_slice() {
        Kind::Operator
    } else {
        class_keyword(word)
    }
}

// Keywords of classes, which no rule takes.
fn class_keyword(word: &[u8]) -> Kind
    ensures { result ≡ class_keyword word.now }
{
    if word == b"struct".as_slice() || word == b"class".as_slice() || word == b"union".as_slice() {
        Kind::Other
    } else {
        other_keyword(word)
    }
}

// Further ones.
fn other_keyword(word: &[u8]) -> Kind
    ensures { result ≡ other_keyword word.now }
{
    if word == b"enum".as_slice()
        || word == b"template".as_slice()
        || word == b"sizeof".as_slice()
    {
        Kind::Other
    } else if word == b"new".as_slice() || word == b"delete".as_slice() {
        Kind::Other
    } else {
        cast_keyword(word)
    }
}

// Casts by a word.
fn cast_keyword(word: &[u8]) -> Kind
    ensures { result ≡ cast_keyword word.now }
{
    if word == b"static_cast".as_slice()
        || word == b"dynamic_cast".as_slice()
        || word == b"reinterpret_cast".as_slice()
    {
        Kind::Other
    } else {
        Kind::Name
    }
}
