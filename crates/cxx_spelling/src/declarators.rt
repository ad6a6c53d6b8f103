//! Declarators without a name: the rules.

ghost use Rattle.std.specs.Prelude.{◌≡◌, option_map};
ghost use Rattle.cxx_spelling.specs.Declarators.{declarator, ptr_operator, inner_declarator, inner_rest, nested_declarator, nested_suffix, declarator_suffix, parenthesis_end, member_pointer, member_name, member_arguments, member_scope, member_next};

use crate::kind::Kind;
use crate::symbol::Action::{
    BeginQualifiers, FillSpace, LeaveGap, Skip, Take, TakeReference, WriteNestedOpen, WriteOpen,
    WriteSpace,
};
use crate::symbol::DeclaratorSymbol::{
    Declarator, DeclaratorSuffix, InnerDeclarator, InnerRest, MemberArguments, MemberName,
    MemberNext, MemberPointer, MemberScope, NestedDeclarator, NestedSuffix, ParenthesisEnd,
    PtrOperator,
};
use crate::symbol::NameSymbol::{MoreArguments, TemplateArgument};
use crate::symbol::Nonterminal::{Declarators, Names, Types};
use crate::symbol::Symbol;
use crate::symbol::Symbol::{Do, Expand};
use crate::symbol::TypeSymbol::{Array, CvQualifiers, MoreArrays, Parameters};

/// Abstract-declarator ([dcl.name]): pointers, references, pointers to members, and functions or arrays behind them.
pub(crate) fn declarator(kind: Kind) -> Option<&'static [Symbol]>
    ensures { option_map (λ symbols. symbols.now) result ≡ declarator kind }
{
    match kind {
        Kind::Star | Kind::Reference | Kind::RvalueReference => Some(&[
            Expand(Declarators(PtrOperator)),
            Expand(Declarators(Declarator)),
        ]),
        Kind::Name | Kind::Scope => Some(&[
            Do(WriteSpace),
            Expand(Declarators(MemberPointer)),
            Expand(Declarators(Declarator)),
        ]),
        Kind::OpenParenthesis => Some(&[
            Do(WriteSpace),
            Do(Take),
            Expand(Declarators(InnerDeclarator)),
            Expand(Declarators(ParenthesisEnd)),
            Expand(Declarators(DeclaratorSuffix)),
        ]),
        Kind::OpenBracket => Some(&[
            Do(WriteSpace),
            Expand(Types(Array)),
            Expand(Types(MoreArrays)),
        ]),
        _ => Some(&[]),
    }
}

/// Ptr-operator ([dcl.decl]): a pointer with its qualifiers, or a reference.
pub(crate) fn ptr_operator(kind: Kind) -> Option<&'static [Symbol]>
    ensures { option_map (λ symbols. symbols.now) result ≡ ptr_operator kind }
{
    match kind {
        Kind::Star => Some(&[Do(Take), Do(BeginQualifiers), Expand(Types(CvQualifiers))]),
        Kind::Reference | Kind::RvalueReference => Some(&[Do(TakeReference)]),
        _ => None,
    }
}

/// A declarator in parentheses: it begins with a ptr-operator.
pub(crate) fn inner_declarator(kind: Kind) -> Option<&'static [Symbol]>
    ensures { option_map (λ symbols. symbols.now) result ≡ inner_declarator kind }
{
    match kind {
        Kind::Star | Kind::Reference | Kind::RvalueReference => Some(&[
            Expand(Declarators(PtrOperator)),
            Expand(Declarators(InnerRest)),
        ]),
        Kind::Name | Kind::Scope => Some(&[
            Expand(Declarators(MemberPointer)),
            Expand(Declarators(InnerRest)),
        ]),
        _ => None,
    }
}

/// Further ptr-operators of a declarator in parentheses, and what stands behind them.
pub(crate) fn inner_rest(kind: Kind) -> Option<&'static [Symbol]>
    ensures { option_map (λ symbols. symbols.now) result ≡ inner_rest kind }
{
    match kind {
        Kind::Star | Kind::Reference | Kind::RvalueReference => Some(&[
            Expand(Declarators(PtrOperator)),
            Expand(Declarators(InnerRest)),
        ]),
        Kind::Name | Kind::Scope => Some(&[
            Do(WriteSpace),
            Expand(Declarators(MemberPointer)),
            Expand(Declarators(InnerRest)),
        ]),
        Kind::OpenParenthesis => Some(&[Do(Skip), Expand(Declarators(NestedDeclarator))]),
        Kind::OpenBracket => Some(&[
            Do(WriteSpace),
            Expand(Types(Array)),
            Expand(Types(MoreArrays)),
        ]),
        _ => Some(&[]),
    }
}

/// A declarator in parentheses inside of one, behind a `(` that is not written yet.
pub(crate) fn nested_declarator(kind: Kind) -> Option<&'static [Symbol]>
    ensures { option_map (λ symbols. symbols.now) result ≡ nested_declarator kind }
{
    match kind {
        Kind::Star | Kind::Reference | Kind::RvalueReference => Some(&[
            Do(WriteNestedOpen),
            Expand(Declarators(InnerDeclarator)),
            Expand(Declarators(ParenthesisEnd)),
            Expand(Declarators(NestedSuffix)),
        ]),
        Kind::Name | Kind::Scope => Some(&[
            Do(WriteSpace),
            Do(WriteOpen),
            Expand(Declarators(InnerDeclarator)),
            Expand(Declarators(ParenthesisEnd)),
            Expand(Declarators(DeclaratorSuffix)),
        ]),
        _ => None,
    }
}

/// Behind it: parameters, or bounds, before which it stands behind a blank.
pub(crate) fn nested_suffix(kind: Kind) -> Option<&'static [Symbol]>
    ensures { option_map (λ symbols. symbols.now) result ≡ nested_suffix kind }
{
    match kind {
        Kind::OpenParenthesis => Some(&[Do(LeaveGap), Expand(Types(Parameters))]),
        Kind::OpenBracket => Some(&[
            Do(FillSpace),
            Do(WriteSpace),
            Expand(Types(Array)),
            Expand(Types(MoreArrays)),
        ]),
        _ => None,
    }
}

/// Behind a declarator in parentheses: parameters or bounds.
pub(crate) fn declarator_suffix(kind: Kind) -> Option<&'static [Symbol]>
    ensures { option_map (λ symbols. symbols.now) result ≡ declarator_suffix kind }
{
    match kind {
        Kind::OpenParenthesis => Some(&[Expand(Types(Parameters))]),
        Kind::OpenBracket => Some(&[
            Do(WriteSpace),
            Expand(Types(Array)),
            Expand(Types(MoreArrays)),
        ]),
        _ => None,
    }
}

/// The end of parentheses.
pub(crate) fn parenthesis_end(kind: Kind) -> Option<&'static [Symbol]>
    ensures { option_map (λ symbols. symbols.now) result ≡ parenthesis_end kind }
{
    match kind {
        Kind::CloseParenthesis => Some(&[Do(Take)]),
        _ => None,
    }
}

/// Ptr-operator of a member ([dcl.mptr]).
pub(crate) fn member_pointer(kind: Kind) -> Option<&'static [Symbol]>
    ensures { option_map (λ symbols. symbols.now) result ≡ member_pointer kind }
{
    match kind {
        Kind::Scope => Some(&[Do(Skip), Expand(Declarators(MemberName))]),
        _ => Some(&[Expand(Declarators(MemberName))]),
    }
}

/// The class of a member.
pub(crate) fn member_name(kind: Kind) -> Option<&'static [Symbol]>
    ensures { option_map (λ symbols. symbols.now) result ≡ member_name kind }
{
    match kind {
        Kind::Name => Some(&[Do(Take), Expand(Declarators(MemberArguments))]),
        _ => None,
    }
}

/// Its template arguments.
pub(crate) fn member_arguments(kind: Kind) -> Option<&'static [Symbol]>
    ensures { option_map (λ symbols. symbols.now) result ≡ member_arguments kind }
{
    match kind {
        Kind::Less => Some(&[
            Do(Take),
            Expand(Names(TemplateArgument)),
            Expand(Names(MoreArguments)),
            Expand(Declarators(MemberScope)),
        ]),
        _ => Some(&[Expand(Declarators(MemberScope))]),
    }
}

/// The `::` behind a class.
pub(crate) fn member_scope(kind: Kind) -> Option<&'static [Symbol]>
    ensures { option_map (λ symbols. symbols.now) result ≡ member_scope kind }
{
    match kind {
        Kind::Scope => Some(&[Do(Take), Expand(Declarators(MemberNext))]),
        _ => None,
    }
}

/// `*`, or a class inside of the class.
pub(crate) fn member_next(kind: Kind) -> Option<&'static [Symbol]>
    ensures { option_map (λ symbols. symbols.now) result ≡ member_next kind }
{
    match kind {
        Kind::Star => Some(&[Expand(Declarators(PtrOperator))]),
        _ => Some(&[Expand(Declarators(MemberName))]),
    }
}
