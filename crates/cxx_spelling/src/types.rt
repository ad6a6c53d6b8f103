//! Types, the bounds of arrays and the parameters of functions: the rules.

ghost use Rattle.std.specs.Prelude.{◌≡◌, option_map};
ghost use Rattle.cxx_spelling.specs.Types.{type_id, type_specifier, more_words, cv_qualifiers, array, array_bound, bracket_end, more_arrays, parameters, parameter_list, after_void, more_parameters, parameter};

use crate::kind::Kind;
use crate::symbol::Action::{
    BeginQualifiers, EndQualifiers, Skip, Take, TakeCharacter, TakeLongDouble, TakeNumber,
    TakeQualifier, TakeWord, WriteSpace, WriteVoid, WriteWords,
};
use crate::symbol::DeclaratorSymbol::Declarator;
use crate::symbol::NameSymbol::QualifiedName;
use crate::symbol::Nonterminal::{Declarators, Names, Types};
use crate::symbol::Symbol;
use crate::symbol::Symbol::{Do, Expand};
use crate::symbol::TypeSymbol::{
    AfterVoid, Array, ArrayBound, BracketEnd, CvQualifiers, MoreArrays, MoreParameters, MoreWords,
    Parameter, ParameterList, TypeId, TypeSpecifier,
};

/// Type-id ([dcl.name]): what specifies a type, and a declarator without a name.
pub(crate) fn type_id(_kind: Kind) -> Option<&'static [Symbol]>
    ensures { option_map (λ symbols. symbols.now) result ≡ type_id _kind }
{
    Some(&[
        Do(BeginQualifiers),
        Expand(Types(TypeSpecifier)),
        Expand(Declarators(Declarator)),
    ])
}

/// Type-specifier-seq ([dcl.type]): one type, and qualifiers on both sides of it.
pub(crate) fn type_specifier(kind: Kind) -> Option<&'static [Symbol]>
    ensures { option_map (λ symbols. symbols.now) result ≡ type_specifier kind }
{
    match kind {
        Kind::Qualifier(_) => Some(&[Do(TakeQualifier), Expand(Types(TypeSpecifier))]),
        Kind::Integer(_) => Some(&[
            Do(TakeWord),
            Expand(Types(MoreWords)),
            Expand(Types(CvQualifiers)),
        ]),
        Kind::Scope => Some(&[
            Do(Skip),
            Expand(Names(QualifiedName)),
            Expand(Types(CvQualifiers)),
        ]),
        Kind::Name => Some(&[Expand(Names(QualifiedName)), Expand(Types(CvQualifiers))]),
        Kind::Double | Kind::Float | Kind::WideCharacter | Kind::Bool | Kind::Void => {
            Some(&[Do(Take), Expand(Types(CvQualifiers))])
        }
        _ => None,
    }
}

/// Further words of an integer type ([dcl.type.simple]); `long double` is no integer type.
pub(crate) fn more_words(kind: Kind) -> Option<&'static [Symbol]>
    ensures { option_map (λ symbols. symbols.now) result ≡ more_words kind }
{
    match kind {
        Kind::Integer(_) => Some(&[Do(TakeWord), Expand(Types(MoreWords))]),
        Kind::Double => Some(&[Do(TakeLongDouble)]),
        _ => Some(&[Do(WriteWords)]),
    }
}

/// Cv-qualifier-seq ([dcl.decl]), written where it ends.
pub(crate) fn cv_qualifiers(kind: Kind) -> Option<&'static [Symbol]>
    ensures { option_map (λ symbols. symbols.now) result ≡ cv_qualifiers kind }
{
    match kind {
        Kind::Qualifier(_) => Some(&[Do(TakeQualifier), Expand(Types(CvQualifiers))]),
        _ => Some(&[Do(EndQualifiers)]),
    }
}

/// The bound of an array ([dcl.array]).
pub(crate) fn array(kind: Kind) -> Option<&'static [Symbol]>
    ensures { option_map (λ symbols. symbols.now) result ≡ array kind }
{
    match kind {
        Kind::OpenBracket => Some(&[Do(Take), Expand(Types(ArrayBound))]),
        _ => None,
    }
}

/// The number of elements, or nothing.
pub(crate) fn array_bound(kind: Kind) -> Option<&'static [Symbol]>
    ensures { option_map (λ symbols. symbols.now) result ≡ array_bound kind }
{
    match kind {
        Kind::Number => Some(&[Do(TakeNumber), Expand(Types(BracketEnd))]),
        Kind::Character => Some(&[Do(TakeCharacter), Expand(Types(BracketEnd))]),
        Kind::CloseBracket => Some(&[Do(Take)]),
        _ => None,
    }
}

/// The end of a bound.
pub(crate) fn bracket_end(kind: Kind) -> Option<&'static [Symbol]>
    ensures { option_map (λ symbols. symbols.now) result ≡ bracket_end kind }
{
    match kind {
        Kind::CloseBracket => Some(&[Do(Take)]),
        _ => None,
    }
}

/// Further bounds, without a blank between them.
pub(crate) fn more_arrays(kind: Kind) -> Option<&'static [Symbol]>
    ensures { option_map (λ symbols. symbols.now) result ≡ more_arrays kind }
{
    match kind {
        Kind::OpenBracket => Some(&[Expand(Types(Array)), Expand(Types(MoreArrays))]),
        _ => Some(&[]),
    }
}

/// Parameters-and-qualifiers ([dcl.fct]).
pub(crate) fn parameters(kind: Kind) -> Option<&'static [Symbol]>
    ensures { option_map (λ symbols. symbols.now) result ≡ parameters kind }
{
    match kind {
        Kind::OpenParenthesis => Some(&[Do(Take), Expand(Types(ParameterList))]),
        _ => None,
    }
}

/// Parameter-declaration-clause, which may be empty.
pub(crate) fn parameter_list(kind: Kind) -> Option<&'static [Symbol]>
    ensures { option_map (λ symbols. symbols.now) result ≡ parameter_list kind }
{
    match kind {
        Kind::CloseParenthesis => Some(&[
            Do(Take),
            Do(BeginQualifiers),
            Expand(Types(CvQualifiers)),
        ]),
        Kind::Void => Some(&[Do(Skip), Expand(Types(AfterVoid))]),
        _ => Some(&[Expand(Types(TypeId)), Expand(Types(MoreParameters))]),
    }
}

/// `void` alone is an empty one.
pub(crate) fn after_void(kind: Kind) -> Option<&'static [Symbol]>
    ensures { option_map (λ symbols. symbols.now) result ≡ after_void kind }
{
    match kind {
        Kind::CloseParenthesis => Some(&[
            Do(Take),
            Do(BeginQualifiers),
            Expand(Types(CvQualifiers)),
        ]),
        _ => Some(&[
            Do(WriteVoid),
            Do(BeginQualifiers),
            Expand(Types(CvQualifiers)),
            Expand(Declarators(Declarator)),
            Expand(Types(MoreParameters)),
        ]),
    }
}

/// Further parameters, up to the end, behind which qualifiers stand.
pub(crate) fn more_parameters(kind: Kind) -> Option<&'static [Symbol]>
    ensures { option_map (λ symbols. symbols.now) result ≡ more_parameters kind }
{
    match kind {
        Kind::Comma => Some(&[
            Do(Take),
            Do(WriteSpace),
            Expand(Types(Parameter)),
            Expand(Types(MoreParameters)),
        ]),
        Kind::CloseParenthesis => Some(&[
            Do(Take),
            Do(BeginQualifiers),
            Expand(Types(CvQualifiers)),
        ]),
        _ => None,
    }
}

/// Parameter-declaration; an ellipsis stands behind another parameter.
pub(crate) fn parameter(kind: Kind) -> Option<&'static [Symbol]>
    ensures { option_map (λ symbols. symbols.now) result ≡ parameter kind }
{
    match kind {
        Kind::Ellipsis => Some(&[Do(Take)]),
        _ => Some(&[Expand(Types(TypeId))]),
    }
}
