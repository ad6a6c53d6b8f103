//! Whole names: types, functions and conversion functions: the rules.

ghost use Rattle.std.specs.Prelude.{◌≡◌, option_map};
ghost use Rattle.cxx_spelling.specs.Functions.{start, start_rest, start_parenthesis, start_name, start_arguments, start_end, start_next, local, conversion_rest};

use crate::kind::Kind;
use crate::symbol::Action::{BeginQualifiers, Skip, Take, WriteOpen, WriteSpace};
use crate::symbol::DeclaratorSymbol::{
    Declarator, DeclaratorSuffix, InnerDeclarator, MemberPointer, ParenthesisEnd, PtrOperator,
};
use crate::symbol::FunctionSymbol::{
    ConversionRest, Local, Start, StartArguments, StartEnd, StartName, StartNext, StartParenthesis,
    StartRest,
};
use crate::symbol::NameSymbol::{MoreArguments, TemplateArgument};
use crate::symbol::Nonterminal::{Declarators, Functions, Names, Types};
use crate::symbol::Symbol;
use crate::symbol::Symbol::{Do, Expand};
use crate::symbol::TypeSymbol::{ParameterList, Parameters, TypeSpecifier};

/// A whole name: a conversion function ([class.conv.fct]), a type, or a function.
pub(crate) fn start(kind: Kind) -> Option<&'static [Symbol]>
    ensures { option_map (λ symbols. symbols.now) result ≡ start kind }
{
    match kind {
        Kind::Operator => Some(&[
            Do(Take),
            Do(WriteSpace),
            Do(BeginQualifiers),
            Expand(Types(TypeSpecifier)),
            Expand(Functions(ConversionRest)),
        ]),
        _ => Some(&[
            Do(BeginQualifiers),
            Expand(Types(TypeSpecifier)),
            Expand(Functions(StartRest)),
        ]),
    }
}

/// What stands behind the type or the name that a whole name begins with.
pub(crate) fn start_rest(kind: Kind) -> Option<&'static [Symbol]>
    ensures { option_map (λ symbols. symbols.now) result ≡ start_rest kind }
{
    match kind {
        Kind::OpenParenthesis => Some(&[Do(Skip), Expand(Functions(StartParenthesis))]),
        Kind::Name => Some(&[Do(WriteSpace), Expand(Functions(StartName))]),
        Kind::Scope => Some(&[Do(WriteSpace), Do(Skip), Expand(Functions(StartName))]),
        _ => Some(&[Expand(Declarators(Declarator))]),
    }
}

/// Behind a `(`, which is not written yet: a declarator, or the parameters of a function.
pub(crate) fn start_parenthesis(kind: Kind) -> Option<&'static [Symbol]>
    ensures { option_map (λ symbols. symbols.now) result ≡ start_parenthesis kind }
{
    match kind {
        Kind::Star | Kind::Reference | Kind::RvalueReference => Some(&[
            Do(WriteSpace),
            Do(WriteOpen),
            Expand(Declarators(InnerDeclarator)),
            Expand(Declarators(ParenthesisEnd)),
            Expand(Declarators(DeclaratorSuffix)),
        ]),
        _ => Some(&[
            Do(WriteOpen),
            Expand(Types(ParameterList)),
            Expand(Functions(Local)),
        ]),
    }
}

/// A pointer to a member, or a function behind the type that it returns.
pub(crate) fn start_name(kind: Kind) -> Option<&'static [Symbol]>
    ensures { option_map (λ symbols. symbols.now) result ≡ start_name kind }
{
    match kind {
        Kind::Name => Some(&[Do(Take), Expand(Functions(StartArguments))]),
        _ => None,
    }
}

/// The template arguments there.
pub(crate) fn start_arguments(kind: Kind) -> Option<&'static [Symbol]>
    ensures { option_map (λ symbols. symbols.now) result ≡ start_arguments kind }
{
    match kind {
        Kind::Less => Some(&[
            Do(Take),
            Expand(Names(TemplateArgument)),
            Expand(Names(MoreArguments)),
            Expand(Functions(StartEnd)),
        ]),
        _ => Some(&[Expand(Functions(StartEnd))]),
    }
}

/// The scope of a member or of a function, or the parameters of a function.
pub(crate) fn start_end(kind: Kind) -> Option<&'static [Symbol]>
    ensures { option_map (λ symbols. symbols.now) result ≡ start_end kind }
{
    match kind {
        Kind::Scope => Some(&[Do(Take), Expand(Functions(StartNext))]),
        Kind::OpenParenthesis => Some(&[Expand(Types(Parameters)), Expand(Functions(Local))]),
        _ => Some(&[]),
    }
}

/// `*`, or what stands in that scope.
pub(crate) fn start_next(kind: Kind) -> Option<&'static [Symbol]>
    ensures { option_map (λ symbols. symbols.now) result ≡ start_next kind }
{
    match kind {
        Kind::Star => Some(&[
            Expand(Declarators(PtrOperator)),
            Expand(Declarators(Declarator)),
        ]),
        _ => Some(&[Expand(Functions(StartName))]),
    }
}

/// A name inside of a function.
pub(crate) fn local(kind: Kind) -> Option<&'static [Symbol]>
    ensures { option_map (λ symbols. symbols.now) result ≡ local kind }
{
    match kind {
        Kind::Scope => Some(&[Do(Take), Expand(Functions(Start))]),
        _ => Some(&[]),
    }
}

/// The declarator of the type to which a conversion function converts.
pub(crate) fn conversion_rest(kind: Kind) -> Option<&'static [Symbol]>
    ensures { option_map (λ symbols. symbols.now) result ≡ conversion_rest kind }
{
    match kind {
        Kind::Star | Kind::Reference | Kind::RvalueReference => Some(&[
            Expand(Declarators(PtrOperator)),
            Expand(Functions(ConversionRest)),
        ]),
        Kind::Name | Kind::Scope => Some(&[
            Do(WriteSpace),
            Expand(Declarators(MemberPointer)),
            Expand(Functions(ConversionRest)),
        ]),
        Kind::OpenParenthesis => Some(&[Do(Skip), Expand(Functions(StartParenthesis))]),
        _ => Some(&[Expand(Declarators(Declarator))]),
    }
}
