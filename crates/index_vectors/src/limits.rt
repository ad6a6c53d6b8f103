//! What is just within a limit, and what is one beyond it.

ghost use Rattle.index_vectors.specs.Limits.{NoEntryIsDeeper, NamespacesEnd, UnitsEnd, InlineStringsEnd, StringsEnd, QualifiedNamesEnd};

/// Entries have at most the depth 1,024.
pub fn depth_ends()
    ensures any_entry { NoEntryIsDeeper }
    ensures namespaces { NamespacesEnd }
{}

/// A program has at most 16,777,215 units.
pub fn units_end()
    ensures { UnitsEnd }
{}

/// A string has at most 1,048,576 bytes, and a qualified name 16,777,216.
pub fn names_end()
    ensures inline { InlineStringsEnd }
    ensures in_section { StringsEnd }
    ensures qualified { QualifiedNamesEnd }
{}
