//! Laws of quoted names. Each is a clause of a function that does nothing.

ghost use Rattle.name_quotes.specs.Quotes.{QuotedNamesAreOneLine, QuotedNamesReadBack};

/// A quoted name has no control byte, so no line ends in it.
pub fn a_quoted_name_is_one_line()
    ensures { QuotedNamesAreOneLine }
{}

/// A name can be read back from what is written of it, so two names are never written alike.
pub fn a_quoted_name_reads_back()
    ensures { QuotedNamesReadBack }
{}
