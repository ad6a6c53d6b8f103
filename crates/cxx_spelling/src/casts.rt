//! Literals in parentheses, and casts: the rules.

ghost use Rattle.std.specs.Prelude.{◌≡◌, option_map};
ghost use Rattle.cxx_spelling.specs.Casts.{parenthesised, group_end, cast_words, cast_bool, cast_floating, cast_end, cast_operand, cast_group, integer_operand, bool_operand, floating_operand};

use crate::kind::Kind;
use crate::symbol::Action::{
    BeginQualifiers, Skip, Take, TakeBoolCast, TakeCharacter, TakeFloating, TakeFloatingCast,
    TakeIntegerCast, TakeLongDouble, TakeNumber, TakeOperand, TakeWord, WriteBool, WriteOpen,
    WriteWords,
};
use crate::symbol::CastSymbol::{
    BoolOperand, CastBool, CastEnd, CastFloating, CastGroup, CastOperand, CastWords,
    FloatingOperand, GroupEnd, IntegerOperand, Parenthesised,
};
use crate::symbol::DeclaratorSymbol::{Declarator, ParenthesisEnd};
use crate::symbol::NameSymbol::Address;
use crate::symbol::Nonterminal::{Casts, Declarators, Names, Types};
use crate::symbol::Symbol;
use crate::symbol::Symbol::{Do, Expand};
use crate::symbol::TypeSymbol::{CvQualifiers, TypeId};

/// Behind a `(`, which is not written yet: an address, a literal, or a cast ([expr.cast]).
pub(crate) fn parenthesised(kind: Kind) -> Option<&'static [Symbol]>
    ensures { option_map (λ symbols. symbols.now) result ≡ parenthesised kind }
{
    match kind {
        Kind::Reference => Some(&[Do(Take), Expand(Names(Address)), Expand(Casts(GroupEnd))]),
        Kind::Number => Some(&[Do(TakeNumber), Expand(Casts(GroupEnd))]),
        Kind::Character => Some(&[Do(TakeCharacter), Expand(Casts(GroupEnd))]),
        Kind::Truth => Some(&[Do(Take), Expand(Casts(GroupEnd))]),
        Kind::Floating => Some(&[Do(TakeFloating), Expand(Casts(GroupEnd))]),
        Kind::OpenParenthesis => Some(&[
            Do(Skip),
            Expand(Casts(Parenthesised)),
            Expand(Casts(GroupEnd)),
        ]),
        Kind::Integer(_) => Some(&[Do(TakeWord), Expand(Casts(CastWords))]),
        Kind::Bool => Some(&[Do(Skip), Expand(Casts(CastBool))]),
        Kind::Double | Kind::Float => Some(&[Do(WriteOpen), Do(Take), Expand(Casts(CastFloating))]),
        _ => Some(&[Do(WriteOpen), Expand(Types(TypeId)), Expand(Casts(CastEnd))]),
    }
}

/// The end of a group whose parentheses fall.
pub(crate) fn group_end(kind: Kind) -> Option<&'static [Symbol]>
    ensures { option_map (λ symbols. symbols.now) result ≡ group_end kind }
{
    match kind {
        Kind::CloseParenthesis => Some(&[Do(Skip)]),
        _ => None,
    }
}

/// A cast to an integer type: of a literal, it is written as the literal's suffix where the type has one.
pub(crate) fn cast_words(kind: Kind) -> Option<&'static [Symbol]>
    ensures { option_map (λ symbols. symbols.now) result ≡ cast_words kind }
{
    match kind {
        Kind::Integer(_) => Some(&[Do(TakeWord), Expand(Casts(CastWords))]),
        Kind::CloseParenthesis => Some(&[Do(Skip), Expand(Casts(IntegerOperand))]),
        Kind::Double => Some(&[
            Do(WriteOpen),
            Do(TakeLongDouble),
            Expand(Casts(CastFloating)),
        ]),
        _ => Some(&[
            Do(WriteOpen),
            Do(WriteWords),
            Do(BeginQualifiers),
            Expand(Types(CvQualifiers)),
            Expand(Declarators(Declarator)),
            Expand(Casts(CastEnd)),
        ]),
    }
}

/// A cast to `bool`.
pub(crate) fn cast_bool(kind: Kind) -> Option<&'static [Symbol]>
    ensures { option_map (λ symbols. symbols.now) result ≡ cast_bool kind }
{
    match kind {
        Kind::CloseParenthesis => Some(&[Do(Skip), Expand(Casts(BoolOperand))]),
        _ => Some(&[
            Do(WriteOpen),
            Do(WriteBool),
            Do(BeginQualifiers),
            Expand(Types(CvQualifiers)),
            Expand(Declarators(Declarator)),
            Expand(Casts(CastEnd)),
        ]),
    }
}

/// A cast to a floating-point type: a literal is written in brackets.
pub(crate) fn cast_floating(kind: Kind) -> Option<&'static [Symbol]>
    ensures { option_map (λ symbols. symbols.now) result ≡ cast_floating kind }
{
    match kind {
        Kind::CloseParenthesis => Some(&[Do(Take), Expand(Casts(FloatingOperand))]),
        _ => Some(&[
            Do(BeginQualifiers),
            Expand(Types(CvQualifiers)),
            Expand(Declarators(Declarator)),
            Expand(Casts(CastEnd)),
        ]),
    }
}

/// The end of any other cast.
pub(crate) fn cast_end(kind: Kind) -> Option<&'static [Symbol]>
    ensures { option_map (λ symbols. symbols.now) result ≡ cast_end kind }
{
    match kind {
        Kind::CloseParenthesis => Some(&[Do(Take), Expand(Casts(CastOperand))]),
        _ => None,
    }
}

/// What is cast: a literal, which stands without a suffix, or something in parentheses.
pub(crate) fn cast_operand(kind: Kind) -> Option<&'static [Symbol]>
    ensures { option_map (λ symbols. symbols.now) result ≡ cast_operand kind }
{
    match kind {
        Kind::Number | Kind::Character | Kind::Truth | Kind::Floating => Some(&[Do(TakeOperand)]),
        Kind::OpenParenthesis => Some(&[Do(Skip), Expand(Casts(CastGroup))]),
        _ => None,
    }
}

/// Behind a `(` that is not written yet: a literal, which stands without parentheses, or an address.
pub(crate) fn cast_group(kind: Kind) -> Option<&'static [Symbol]>
    ensures { option_map (λ symbols. symbols.now) result ≡ cast_group kind }
{
    match kind {
        Kind::Number | Kind::Character | Kind::Truth | Kind::Floating => {
            Some(&[Do(TakeOperand), Expand(Casts(GroupEnd))])
        }
        Kind::Reference => Some(&[
            Do(WriteOpen),
            Do(Take),
            Expand(Names(Address)),
            Expand(Declarators(ParenthesisEnd)),
        ]),
        _ => None,
    }
}

/// The literal of an integer type.
pub(crate) fn integer_operand(kind: Kind) -> Option<&'static [Symbol]>
    ensures { option_map (λ symbols. symbols.now) result ≡ integer_operand kind }
{
    match kind {
        Kind::Number | Kind::Character | Kind::Truth | Kind::Floating => {
            Some(&[Do(TakeIntegerCast)])
        }
        _ => None,
    }
}

/// The literal of `bool`.
pub(crate) fn bool_operand(kind: Kind) -> Option<&'static [Symbol]>
    ensures { option_map (λ symbols. symbols.now) result ≡ bool_operand kind }
{
    match kind {
        Kind::Number | Kind::Character | Kind::Truth | Kind::Floating => Some(&[Do(TakeBoolCast)]),
        _ => None,
    }
}

/// The literal of a floating-point type.
pub(crate) fn floating_operand(kind: Kind) -> Option<&'static [Symbol]>
    ensures { option_map (λ symbols. symbols.now) result ≡ floating_operand kind }
{
    match kind {
        Kind::Number | Kind::Character | Kind::Truth | Kind::Floating => {
            Some(&[Do(TakeFloatingCast)])
        }
        _ => None,
    }
}
