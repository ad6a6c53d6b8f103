//! The rules of the grammar: in sight of the next token, each symbol has one at most.

ghost use Rattle.std.specs.Prelude.{◌≡◌, option_map};
ghost use Rattle.cxx_spelling.specs.Rules.{rule, name_rule, type_rule, cast_rule, declarator_rule, function_rule, argument_rule};

use crate::arguments::{
    argument_parenthesis, argument_rest, argument_type, first_arguments, first_end, first_name,
    first_next,
};
use crate::casts::{
    bool_operand, cast_bool, cast_end, cast_floating, cast_group, cast_operand, cast_words,
    floating_operand, group_end, integer_operand, parenthesised,
};
use crate::declarators::{
    declarator, declarator_suffix, inner_declarator, inner_rest, member_arguments, member_name,
    member_next, member_pointer, member_scope, nested_declarator, nested_suffix, parenthesis_end,
    ptr_operator,
};
use crate::functions::{
    conversion_rest, local, start, start_arguments, start_end, start_name, start_next,
    start_parenthesis, start_rest,
};
use crate::kind::Kind;
use crate::names::{
    address, address_arguments, address_member, address_name, address_next, address_rest,
    address_scope, conversion_pointers, more_arguments, name_arguments, name_rest, qualified_name,
    template_argument,
};
use crate::release::Release;
use crate::symbol::{
    ArgumentSymbol, CastSymbol, DeclaratorSymbol, FunctionSymbol, NameSymbol, Nonterminal, Symbol,
    TypeSymbol,
};
use crate::types::{
    after_void, array, array_bound, bracket_end, cv_qualifiers, more_arrays, more_parameters,
    more_words, parameter, parameter_list, parameters, type_id, type_specifier,
};

/// What a symbol stands for in sight of the next token. None where the name is refused.
pub(crate) fn rule(release: Release, symbol: Nonterminal, kind: Kind) -> Option<&'static [Symbol]>
    ensures { option_map (λ symbols. symbols.now) result ≡ rule release symbol kind }
{
    match symbol {
        Nonterminal::Names(symbol) => name_rule(release, symbol, kind),
        Nonterminal::Types(symbol) => type_rule(symbol, kind),
        Nonterminal::Casts(symbol) => cast_rule(symbol, kind),
        Nonterminal::Declarators(symbol) => declarator_rule(symbol, kind),
        Nonterminal::Functions(symbol) => function_rule(symbol, kind),
        Nonterminal::Arguments(symbol) => argument_rule(symbol, kind),
    }
}

// The same of a symbol of names and their template arguments.
fn name_rule(release: Release, symbol: NameSymbol, kind: Kind) -> Option<&'static [Symbol]>
    ensures { option_map (λ symbols. symbols.now) result ≡ name_rule release symbol kind }
{
    match symbol {
        NameSymbol::QualifiedName => qualified_name(kind),
        NameSymbol::NameArguments => name_arguments(kind),
        NameSymbol::NameRest => name_rest(kind),
        NameSymbol::MoreArguments => more_arguments(kind),
        NameSymbol::TemplateArgument => template_argument(release, kind),
        NameSymbol::Address => address(kind),
        NameSymbol::AddressName => address_name(kind),
        NameSymbol::AddressRest => address_rest(kind),
        NameSymbol::AddressScope => address_scope(kind),
        NameSymbol::AddressMember => address_member(kind),
        NameSymbol::AddressArguments => address_arguments(kind),
        NameSymbol::AddressNext => address_next(kind),
        NameSymbol::ConversionPointers => conversion_pointers(kind),
    }
}

// The same of a symbol of types.
fn type_rule(symbol: TypeSymbol, kind: Kind) -> Option<&'static [Symbol]>
    ensures { option_map (λ symbols. symbols.now) result ≡ type_rule symbol kind }
{
    match symbol {
        TypeSymbol::TypeId => type_id(kind),
        TypeSymbol::TypeSpecifier => type_specifier(kind),
        TypeSymbol::MoreWords => more_words(kind),
        TypeSymbol::CvQualifiers => cv_qualifiers(kind),
        TypeSymbol::Array => array(kind),
        TypeSymbol::ArrayBound => array_bound(kind),
        TypeSymbol::BracketEnd => bracket_end(kind),
        TypeSymbol::MoreArrays => more_arrays(kind),
        TypeSymbol::Parameters => parameters(kind),
        TypeSymbol::ParameterList => parameter_list(kind),
        TypeSymbol::AfterVoid => after_void(kind),
        TypeSymbol::MoreParameters => more_parameters(kind),
        TypeSymbol::Parameter => parameter(kind),
    }
}

// The same of a symbol of literals in parentheses, and of casts.
fn cast_rule(symbol: CastSymbol, kind: Kind) -> Option<&'static [Symbol]>
    ensures { option_map (λ symbols. symbols.now) result ≡ cast_rule symbol kind }
{
    match symbol {
        CastSymbol::Parenthesised => parenthesised(kind),
        CastSymbol::GroupEnd => group_end(kind),
        CastSymbol::CastWords => cast_words(kind),
        CastSymbol::CastBool => cast_bool(kind),
        CastSymbol::CastFloating => cast_floating(kind),
        CastSymbol::CastEnd => cast_end(kind),
        CastSymbol::CastOperand => cast_operand(kind),
        CastSymbol::CastGroup => cast_group(kind),
        CastSymbol::IntegerOperand => integer_operand(kind),
        CastSymbol::BoolOperand => bool_operand(kind),
        CastSymbol::FloatingOperand => floating_operand(kind),
    }
}

// The same of a symbol of declarators.
fn declarator_rule(symbol: DeclaratorSymbol, kind: Kind) -> Option<&'static [Symbol]>
    ensures { option_map (λ symbols. symbols.now) result ≡ declarator_rule symbol kind }
{
    match symbol {
        DeclaratorSymbol::Declarator => declarator(kind),
        DeclaratorSymbol::PtrOperator => ptr_operator(kind),
        DeclaratorSymbol::InnerDeclarator => inner_declarator(kind),
        DeclaratorSymbol::InnerRest => inner_rest(kind),
        DeclaratorSymbol::NestedDeclarator => nested_declarator(kind),
        DeclaratorSymbol::NestedSuffix => nested_suffix(kind),
        DeclaratorSymbol::DeclaratorSuffix => declarator_suffix(kind),
        DeclaratorSymbol::ParenthesisEnd => parenthesis_end(kind),
        DeclaratorSymbol::MemberPointer => member_pointer(kind),
        DeclaratorSymbol::MemberName => member_name(kind),
        DeclaratorSymbol::MemberArguments => member_arguments(kind),
        DeclaratorSymbol::MemberScope => member_scope(kind),
        DeclaratorSymbol::MemberNext => member_next(kind),
    }
}

// The same of a symbol of whole names and functions.
fn function_rule(symbol: FunctionSymbol, kind: Kind) -> Option<&'static [Symbol]>
    ensures { option_map (λ symbols. symbols.now) result ≡ function_rule symbol kind }
{
    match symbol {
        FunctionSymbol::Start => start(kind),
        FunctionSymbol::StartRest => start_rest(kind),
        FunctionSymbol::StartParenthesis => start_parenthesis(kind),
        FunctionSymbol::StartName => start_name(kind),
        FunctionSymbol::StartArguments => start_arguments(kind),
        FunctionSymbol::StartEnd => start_end(kind),
        FunctionSymbol::StartNext => start_next(kind),
        FunctionSymbol::Local => local(kind),
        FunctionSymbol::ConversionRest => conversion_rest(kind),
    }
}

// The same of a symbol of types as template arguments.
fn argument_rule(symbol: ArgumentSymbol, kind: Kind) -> Option<&'static [Symbol]>
    ensures { option_map (λ symbols. symbols.now) result ≡ argument_rule symbol kind }
{
    match symbol {
        ArgumentSymbol::ArgumentType => argument_type(kind),
        ArgumentSymbol::ArgumentRest => argument_rest(kind),
        ArgumentSymbol::ArgumentParenthesis => argument_parenthesis(kind),
        ArgumentSymbol::FirstName => first_name(kind),
        ArgumentSymbol::FirstArguments => first_arguments(kind),
        ArgumentSymbol::FirstEnd => first_end(kind),
        ArgumentSymbol::FirstNext => first_next(kind),
    }
}
