//! What the definitions mean for plain names. The function does nothing: its contract is the law.

ghost use Rattle.ada_spelling.specs.PlainNames.{PlainNamesComeBack};

/// A name that GNAT gives to what stands in packages alone, of lower-case letters, is decoded to its parts with points between
/// them, and these are encoded as the name.
pub fn plain_names_come_back()
    ensures { PlainNamesComeBack }
{}
