//! The symbols of the grammar.

/// What a rule is made of: a symbol that rules expand, or something to do.
#[derive(Clone, Copy)]
pub(crate) enum Symbol {
    Expand(Nonterminal),
    Do(Action),
}

/// A symbol that rules expand. The rules say what each stands for; each kind of symbol has a file of them.
#[derive(Clone, Copy)]
pub(crate) enum Nonterminal {
    Names(NameSymbol),
    Types(TypeSymbol),
    Casts(CastSymbol),
    Declarators(DeclaratorSymbol),
    Functions(FunctionSymbol),
    Arguments(ArgumentSymbol),
}

/// The symbols of names and their template arguments.
#[derive(Clone, Copy)]
pub(crate) enum NameSymbol {
    QualifiedName,
    NameArguments,
    NameRest,
    MoreArguments,
    TemplateArgument,
    Address,
    AddressName,
    AddressRest,
    AddressScope,
    AddressMember,
    AddressArguments,
    AddressNext,
    ConversionPointers,
}

/// The symbols of types.
#[derive(Clone, Copy)]
pub(crate) enum TypeSymbol {
    TypeId,
    TypeSpecifier,
    MoreWords,
    CvQualifiers,
    Array,
    ArrayBound,
    BracketEnd,
    MoreArrays,
    Parameters,
    ParameterList,
    AfterVoid,
    MoreParameters,
    Parameter,
}

/// The symbols of literals in parentheses, and of casts.
#[derive(Clone, Copy)]
pub(crate) enum CastSymbol {
    Parenthesised,
    GroupEnd,
    CastWords,
    CastBool,
    CastFloating,
    CastEnd,
    CastOperand,
    CastGroup,
    IntegerOperand,
    BoolOperand,
    FloatingOperand,
}

/// The symbols of declarators.
#[derive(Clone, Copy)]
pub(crate) enum DeclaratorSymbol {
    Declarator,
    PtrOperator,
    InnerDeclarator,
    InnerRest,
    NestedDeclarator,
    NestedSuffix,
    DeclaratorSuffix,
    ParenthesisEnd,
    MemberPointer,
    MemberName,
    MemberArguments,
    MemberScope,
    MemberNext,
}

/// The symbols of whole names and functions.
#[derive(Clone, Copy)]
pub(crate) enum FunctionSymbol {
    Start,
    StartRest,
    StartParenthesis,
    StartName,
    StartArguments,
    StartEnd,
    StartNext,
    Local,
    ConversionRest,
}

/// The symbols of types as template arguments, types of functions among them.
#[derive(Clone, Copy)]
pub(crate) enum ArgumentSymbol {
    ArgumentType,
    ArgumentRest,
    ArgumentParenthesis,
    FirstName,
    FirstArguments,
    FirstEnd,
    FirstNext,
}

/// Something to do with the next token or the text.
#[derive(Clone, Copy)]
pub(crate) enum Action {
    /// The token is written as it stands.
    Take,
    /// The token falls.
    Skip,
    WriteSpace,
    /// `(`
    WriteOpen,
    /// `)`
    WriteClose,
    WriteVoid,
    WriteBool,
    /// A set of qualifiers begins, inside of the one that is open.
    BeginQualifiers,
    TakeQualifier,
    /// The set is written, and the one around it is open again.
    EndQualifiers,
    TakeWord,
    /// The integer type of the words is written.
    WriteWords,
    TakeLongDouble,
    /// The end of template arguments, never as `>>`.
    TakeGreater,
    /// A reference, which stands behind no other one.
    TakeReference,
    /// A gap begins: a byte may still come here.
    BeginGap,
    /// The last gap stays.
    LeaveGap,
    /// It becomes `(`.
    FillOpen,
    /// It becomes a blank.
    FillSpace,
    /// The `(` of a declarator inside of another one, behind a gap, which is a blank unless it stands behind a `*`.
    WriteNestedOpen,
    /// A literal, its suffix in its one form.
    TakeNumber,
    /// A literal without its suffix: that of a cast.
    TakeOperand,
    /// A floating-point literal, in brackets behind its type.
    TakeFloating,
    /// A literal of a floating-point type, in brackets.
    TakeFloatingCast,
    /// A character behind its type.
    TakeCharacter,
    /// A literal of the integer type of the words.
    TakeIntegerCast,
    /// A literal of `bool`.
    TakeBoolCast,
}
