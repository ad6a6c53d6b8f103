//! The words of integer types (C++, [dcl.type.simple]).

ghost use Rattle.std.specs.Prelude.{◌≡◌, option_map};
ghost use Rattle.cxx_spelling.specs.Integers.{with_word, is_long, integer_type, narrow_type, long_type, type_name, suffix_of};

/// A word of an integer type.
#[derive(Clone, Copy)]
pub(crate) enum IntegerWord {
    Signed,
    Unsigned,
    Char,
    Short,
    Int,
    Long,
}

/// The words of an integer type, in any order. No word has been read yet where none is set.
#[derive(Clone, Copy)]
pub(crate) struct IntegerWords {
    pub(crate) signed: bool,
    pub(crate) unsigned: bool,
    pub(crate) character: bool,
    pub(crate) short: bool,
    pub(crate) int: bool,
    pub(crate) long: bool,
    /// `long` stands more than once.
    pub(crate) long_long: bool,
}

/// An integer type.
#[derive(Clone, Copy)]
pub(crate) enum IntegerType {
    Char,
    SignedChar,
    UnsignedChar,
    Short,
    UnsignedShort,
    Int,
    UnsignedInt,
    Long,
    UnsignedLong,
    LongLong,
    UnsignedLongLong,
}

/// No word.
pub(crate) const NO_WORDS: IntegerWords = IntegerWords {
    signed: false,
    unsigned: false,
    character: false,
    short: false,
    int: false,
    long: false,
    long_long: false,
};

impl IntegerWords {
    /// These words and one more.
    pub(crate) fn with(self, word: IntegerWord) -> IntegerWords
        ensures { result ≡ with_word self word }
    {
        let mut words = self;
        match word {
            IntegerWord::Signed => words.signed = true,
            IntegerWord::Unsigned => words.unsigned = true,
            IntegerWord::Char => words.character = true,
            IntegerWord::Short => words.short = true,
            IntegerWord::Int => words.int = true,
            IntegerWord::Long => {
                words.long_long = self.long;
                words.long = true;
            }
        }
        words
    }

    /// Whether they are the one word `long`, behind which `double` may stand.
    pub(crate) fn is_long(self) -> bool
        ensures { result ≡ is_long self }
    {
        let others = self.signed || self.unsigned || self.character || self.short || self.int;
        self.long && !self.long_long && !others
    }

    /// The type that they name, in whatever order they stand. None where they name none.
    pub(crate) fn integer_type(self) -> Option<IntegerType>
        ensures { result ≡ integer_type self }
    {
        if self.signed && self.unsigned {
            return None;
        }
        if self.long {
            if self.character || self.short {
                None
            } else {
                Some(long_type(self.unsigned, self.long_long))
            }
        } else {
            self.narrow_type()
        }
    }

    // The type without `long`.
    fn narrow_type(self) -> Option<IntegerType>
        ensures { result ≡ narrow_type self.character self.short self.unsigned self.signed }
    {
        match (self.character, self.short, self.unsigned, self.signed) {
            (true, true, _, _) => None,
            (true, false, true, _) => Some(IntegerType::UnsignedChar),
            (true, false, false, true) => Some(IntegerType::SignedChar),
            (true, false, false, false) => Some(IntegerType::Char),
            (false, true, true, _) => Some(IntegerType::UnsignedShort),
            (false, true, false, _) => Some(IntegerType::Short),
            (false, false, true, _) => Some(IntegerType::UnsignedInt),
            (false, false, false, _) => Some(IntegerType::Int),
        }
    }
}

// The type of one `long`, or of two.
fn long_type(unsigned: bool, long_long: bool) -> IntegerType
    ensures { result ≡ long_type unsigned long_long }
{
    match (unsigned, long_long) {
        (false, false) => IntegerType::Long,
        (true, false) => IntegerType::UnsignedLong,
        (false, true) => IntegerType::LongLong,
        (true, true) => IntegerType::UnsignedLongLong,
    }
}

impl IntegerType {
    /// The one name of a type.
    pub(crate) fn name(self) -> &'static [u8]
        ensures { result.now ≡ type_name self }
    {
        match self {
            IntegerType::Char => b"char",
            IntegerType::SignedChar => b"signed char",
            IntegerType::UnsignedChar => b"unsigned char",
            IntegerType::Short => b"short",
            IntegerType::UnsignedShort => b"unsigned short",
            IntegerType::Int => b"int",
            IntegerType::UnsignedInt => b"unsigned int",
            IntegerType::Long => b"long",
            IntegerType::UnsignedLong => b"unsigned long",
            IntegerType::LongLong => b"long long",
            IntegerType::UnsignedLongLong => b"unsigned long long",
        }
    }

    /// What stands behind the literals of a type. None where a cast tells the type.
    pub(crate) fn suffix(self) -> Option<&'static [u8]>
        ensures { option_map (λ text. text.now) result ≡ suffix_of self }
    {
        match self {
            IntegerType::Int => Some(b""),
            IntegerType::UnsignedInt => Some(b"u"),
            IntegerType::Long => Some(b"l"),
            IntegerType::UnsignedLong => Some(b"ul"),
            IntegerType::LongLong => Some(b"ll"),
            IntegerType::UnsignedLongLong => Some(b"ull"),
            _ => None,
        }
    }
}
