//! Laws of the definitions: what follows from them, in the words of their subject. The functions do nothing.

ghost use Rattle.elf_make.specs.LawsGenerated.{DeclarationsStandThere};

/// In a generated file a method's declaration stands at the offset that a unit of odd number specifies.
pub fn declarations_stand_where_they_are_specified()
    ensures { DeclarationsStandThere }
{}
