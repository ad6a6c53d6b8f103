//! Types as template arguments in gdb 16, types of functions among them: the rules.
//!
//! No blank stands before the parameters of a function, and one stands before a declarator in parentheses. Which of them a
//! parenthesis begins is known behind a name that may stand first in it: until then there is a gap before it.

ghost use Rattle.std.specs.Prelude.{◌≡◌, option_map};
ghost use Rattle.cxx_spelling.specs.Arguments.{argument_type, argument_rest, argument_parenthesis, first_name, first_arguments, first_end, first_next};

use crate::kind::Kind;
use crate::symbol::Action::{BeginGap, BeginQualifiers, FillSpace, LeaveGap, Skip, Take, TakeWord};
use crate::symbol::ArgumentSymbol::{
    ArgumentParenthesis, ArgumentRest, FirstArguments, FirstEnd, FirstName, FirstNext,
};
use crate::symbol::DeclaratorSymbol::{
    Declarator, DeclaratorSuffix, InnerDeclarator, InnerRest, ParenthesisEnd, PtrOperator,
};
use crate::symbol::NameSymbol::{MoreArguments, QualifiedName, TemplateArgument};
use crate::symbol::Nonterminal::{Arguments, Declarators, Names, Types};
use crate::symbol::Symbol;
use crate::symbol::Symbol::{Do, Expand};
use crate::symbol::TypeSymbol::{CvQualifiers, MoreParameters, MoreWords, ParameterList, TypeId};

/// Type-id ([dcl.name]) as an argument. Only behind a type without qualifiers the parameters of a function may stand.
pub(crate) fn argument_type(kind: Kind) -> Option<&'static [Symbol]>
    ensures { option_map (λ symbols. symbols.now) result ≡ argument_type kind }
{
    match kind {
        Kind::Qualifier(_) => Some(&[Expand(Types(TypeId))]),
        Kind::Integer(_) => Some(&[
            Do(TakeWord),
            Expand(Types(MoreWords)),
            Expand(Arguments(ArgumentRest)),
        ]),
        Kind::Scope => Some(&[
            Do(Skip),
            Expand(Names(QualifiedName)),
            Expand(Arguments(ArgumentRest)),
        ]),
        Kind::Name => Some(&[
            Expand(Names(QualifiedName)),
            Expand(Arguments(ArgumentRest)),
        ]),
        Kind::Double | Kind::Float | Kind::WideCharacter | Kind::Bool | Kind::Void => {
            Some(&[Do(Take), Expand(Arguments(ArgumentRest))])
        }
        _ => None,
    }
}

/// What stands behind such a type.
pub(crate) fn argument_rest(kind: Kind) -> Option<&'static [Symbol]>
    ensures { option_map (λ symbols. symbols.now) result ≡ argument_rest kind }
{
    match kind {
        Kind::OpenParenthesis => Some(&[
            Do(BeginGap),
            Do(Take),
            Expand(Arguments(ArgumentParenthesis)),
        ]),
        _ => Some(&[
            Do(BeginQualifiers),
            Expand(Types(CvQualifiers)),
            Expand(Declarators(Declarator)),
        ]),
    }
}

/// Behind a `(` that has a gap before it: a declarator, or the parameters of a function.
pub(crate) fn argument_parenthesis(kind: Kind) -> Option<&'static [Symbol]>
    ensures { option_map (λ symbols. symbols.now) result ≡ argument_parenthesis kind }
{
    match kind {
        Kind::Star | Kind::Reference | Kind::RvalueReference => Some(&[
            Do(FillSpace),
            Expand(Declarators(InnerDeclarator)),
            Expand(Declarators(ParenthesisEnd)),
            Expand(Declarators(DeclaratorSuffix)),
        ]),
        Kind::Name => Some(&[Expand(Arguments(FirstName))]),
        Kind::Scope => Some(&[Do(Skip), Expand(Arguments(FirstName))]),
        _ => Some(&[Do(LeaveGap), Expand(Types(ParameterList))]),
    }
}

/// The name that stands first there: the class of a member, or the type of a parameter.
pub(crate) fn first_name(kind: Kind) -> Option<&'static [Symbol]>
    ensures { option_map (λ symbols. symbols.now) result ≡ first_name kind }
{
    match kind {
        Kind::Name => Some(&[Do(Take), Expand(Arguments(FirstArguments))]),
        _ => None,
    }
}

/// Its template arguments.
pub(crate) fn first_arguments(kind: Kind) -> Option<&'static [Symbol]>
    ensures { option_map (λ symbols. symbols.now) result ≡ first_arguments kind }
{
    match kind {
        Kind::Less => Some(&[
            Do(Take),
            Expand(Names(TemplateArgument)),
            Expand(Names(MoreArguments)),
            Expand(Arguments(FirstEnd)),
        ]),
        _ => Some(&[Expand(Arguments(FirstEnd))]),
    }
}

/// What stands behind it: a parameter ends with its declarator.
pub(crate) fn first_end(kind: Kind) -> Option<&'static [Symbol]>
    ensures { option_map (λ symbols. symbols.now) result ≡ first_end kind }
{
    match kind {
        Kind::Scope => Some(&[Do(Take), Expand(Arguments(FirstNext))]),
        _ => Some(&[
            Do(LeaveGap),
            Do(BeginQualifiers),
            Expand(Types(CvQualifiers)),
            Expand(Declarators(Declarator)),
            Expand(Types(MoreParameters)),
        ]),
    }
}

/// `*`, which makes it the class of a member, or what stands in its scope.
pub(crate) fn first_next(kind: Kind) -> Option<&'static [Symbol]>
    ensures { option_map (λ symbols. symbols.now) result ≡ first_next kind }
{
    match kind {
        Kind::Star => Some(&[
            Do(FillSpace),
            Expand(Declarators(PtrOperator)),
            Expand(Declarators(InnerRest)),
            Expand(Declarators(ParenthesisEnd)),
            Expand(Declarators(DeclaratorSuffix)),
        ]),
        _ => Some(&[Expand(Arguments(FirstName))]),
    }
}
