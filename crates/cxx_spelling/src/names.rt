//! Names and their template arguments: the rules.

ghost use Rattle.std.specs.Prelude.{◌≡◌, option_map};
ghost use Rattle.cxx_spelling.specs.Names.{qualified_name, name_arguments, name_rest, more_arguments, template_argument, type_argument, address, address_name, address_rest, address_scope, address_member, address_arguments, address_next, conversion_pointers};

use crate::kind::Kind;
use crate::release::Release;
use crate::symbol::Action::{
    BeginGap, BeginQualifiers, FillOpen, LeaveGap, Skip, Take, TakeCharacter, TakeFloating,
    TakeGreater, TakeNumber, WriteClose, WriteSpace,
};
use crate::symbol::ArgumentSymbol::ArgumentType;
use crate::symbol::CastSymbol::Parenthesised;
use crate::symbol::DeclaratorSymbol::{MemberPointer, PtrOperator};
use crate::symbol::NameSymbol::{
    Address, AddressArguments, AddressMember, AddressName, AddressNext, AddressRest, AddressScope,
    ConversionPointers, MoreArguments, NameArguments, NameRest, QualifiedName, TemplateArgument,
};
use crate::symbol::Nonterminal::{Arguments, Casts, Declarators, Names, Types};
use crate::symbol::Symbol;
use crate::symbol::Symbol::{Do, Expand};
use crate::symbol::TypeSymbol::{TypeId, TypeSpecifier};

/// Qualified-id without what names the global namespace ([expr.prim.id.qual]).
pub(crate) fn qualified_name(kind: Kind) -> Option<&'static [Symbol]>
    ensures { option_map (λ symbols. symbols.now) result ≡ qualified_name kind }
{
    match kind {
        Kind::Name => Some(&[Do(Take), Expand(Names(NameArguments))]),
        _ => None,
    }
}

/// Simple-template-id ([temp.names]): a name may have arguments.
pub(crate) fn name_arguments(kind: Kind) -> Option<&'static [Symbol]>
    ensures { option_map (λ symbols. symbols.now) result ≡ name_arguments kind }
{
    match kind {
        Kind::Less => Some(&[
            Do(Take),
            Expand(Names(TemplateArgument)),
            Expand(Names(MoreArguments)),
            Expand(Names(NameRest)),
        ]),
        _ => Some(&[Expand(Names(NameRest))]),
    }
}

/// Nested-name-specifier: behind `::` a name goes on.
pub(crate) fn name_rest(kind: Kind) -> Option<&'static [Symbol]>
    ensures { option_map (λ symbols. symbols.now) result ≡ name_rest kind }
{
    match kind {
        Kind::Scope => Some(&[Do(Take), Expand(Names(QualifiedName))]),
        _ => Some(&[]),
    }
}

/// Template-argument-list ([temp.names]): it has an argument at least.
pub(crate) fn more_arguments(kind: Kind) -> Option<&'static [Symbol]>
    ensures { option_map (λ symbols. symbols.now) result ≡ more_arguments kind }
{
    match kind {
        Kind::Comma => Some(&[
            Do(Take),
            Do(WriteSpace),
            Expand(Names(TemplateArgument)),
            Expand(Names(MoreArguments)),
        ]),
        Kind::Greater => Some(&[Do(TakeGreater)]),
        _ => None,
    }
}

/// Template-argument: a type-id or a constant.
pub(crate) fn template_argument(release: Release, kind: Kind) -> Option<&'static [Symbol]>
    ensures { option_map (λ symbols. symbols.now) result ≡ template_argument release kind }
{
    match kind {
        Kind::Reference => Some(&[Do(Take), Expand(Names(Address))]),
        Kind::OpenParenthesis => Some(&[Do(Skip), Expand(Casts(Parenthesised))]),
        Kind::Number => Some(&[Do(TakeNumber)]),
        Kind::Character => Some(&[Do(TakeCharacter)]),
        Kind::Truth => Some(&[Do(Take)]),
        Kind::Floating => Some(&[Do(TakeFloating)]),
        _ => type_argument(release),
    }
}

// A type-id as an argument: gdb 16 reads types of functions there.
fn type_argument(release: Release) -> Option<&'static [Symbol]>
    ensures { option_map (λ symbols. symbols.now) result ≡ type_argument release }
{
    match release {
        Release::Gdb13 => Some(&[Expand(Types(TypeId))]),
        Release::Gdb16 => Some(&[Expand(Arguments(ArgumentType))]),
    }
}

/// The address of a variable or a function.
pub(crate) fn address(kind: Kind) -> Option<&'static [Symbol]>
    ensures { option_map (λ symbols. symbols.now) result ≡ address kind }
{
    match kind {
        Kind::Scope => Some(&[Do(Skip), Expand(Names(AddressName))]),
        _ => Some(&[Expand(Names(AddressName))]),
    }
}

/// The name whose address is taken, before which a parenthesis may come.
pub(crate) fn address_name(kind: Kind) -> Option<&'static [Symbol]>
    ensures { option_map (λ symbols. symbols.now) result ≡ address_name kind }
{
    match kind {
        Kind::Name => Some(&[Do(BeginGap), Do(Take), Expand(Names(AddressRest))]),
        _ => None,
    }
}

/// Its arguments, where it is a template.
pub(crate) fn address_rest(kind: Kind) -> Option<&'static [Symbol]>
    ensures { option_map (λ symbols. symbols.now) result ≡ address_rest kind }
{
    match kind {
        Kind::Less => Some(&[
            Do(Take),
            Expand(Names(TemplateArgument)),
            Expand(Names(MoreArguments)),
            Expand(Names(AddressScope)),
        ]),
        Kind::Scope => Some(&[Do(LeaveGap), Do(Take), Expand(Names(AddressMember))]),
        _ => Some(&[Do(LeaveGap)]),
    }
}

/// A template that isn't the scope of a name is written in parentheses.
pub(crate) fn address_scope(kind: Kind) -> Option<&'static [Symbol]>
    ensures { option_map (λ symbols. symbols.now) result ≡ address_scope kind }
{
    match kind {
        Kind::Scope => Some(&[Do(LeaveGap), Do(Take), Expand(Names(AddressMember))]),
        _ => Some(&[Do(FillOpen), Do(WriteClose)]),
    }
}

/// What stands in a scope: a name, or a conversion function ([class.conv.fct]).
pub(crate) fn address_member(kind: Kind) -> Option<&'static [Symbol]>
    ensures { option_map (λ symbols. symbols.now) result ≡ address_member kind }
{
    match kind {
        Kind::Name => Some(&[Do(Take), Expand(Names(AddressArguments))]),
        Kind::Operator => Some(&[
            Do(Take),
            Do(WriteSpace),
            Do(BeginQualifiers),
            Expand(Types(TypeSpecifier)),
            Expand(Names(ConversionPointers)),
        ]),
        _ => None,
    }
}

/// Its arguments.
pub(crate) fn address_arguments(kind: Kind) -> Option<&'static [Symbol]>
    ensures { option_map (λ symbols. symbols.now) result ≡ address_arguments kind }
{
    match kind {
        Kind::Less => Some(&[
            Do(Take),
            Expand(Names(TemplateArgument)),
            Expand(Names(MoreArguments)),
            Expand(Names(AddressNext)),
        ]),
        _ => Some(&[Expand(Names(AddressNext))]),
    }
}

/// What stands in it.
pub(crate) fn address_next(kind: Kind) -> Option<&'static [Symbol]>
    ensures { option_map (λ symbols. symbols.now) result ≡ address_next kind }
{
    match kind {
        Kind::Scope => Some(&[Do(Take), Expand(Names(AddressMember))]),
        _ => Some(&[]),
    }
}

/// Conversion-declarator: the pointers behind the type to which such a function converts.
pub(crate) fn conversion_pointers(kind: Kind) -> Option<&'static [Symbol]>
    ensures { option_map (λ symbols. symbols.now) result ≡ conversion_pointers kind }
{
    match kind {
        Kind::Star | Kind::Reference | Kind::RvalueReference => Some(&[
            Expand(Declarators(PtrOperator)),
            Expand(Names(ConversionPointers)),
        ]),
        Kind::Name | Kind::Scope => Some(&[
            Do(WriteSpace),
            Expand(Declarators(MemberPointer)),
            Expand(Names(ConversionPointers)),
        ]),
        _ => Some(&[]),
    }
}
