//! The sections of a program with sections added (System V gABI, chapter 4, "Sections").

ghost use Rattle.added_alike.specs.AddedAlike.{AddedSectionsAreFound, NamedSectionsKeepTheirBytes, SectionsAreAdded};

/// The sections of the file are those of the program and those that are added, and none of them is damaged.
pub fn sections_are_added()
    ensures { SectionsAreAdded }
{}

/// By name, the sections that the program had keep their bytes, behind which stands what is added to them; and those that are added
/// are found.
pub fn added_sections_are_found()
    ensures kept { NamedSectionsKeepTheirBytes }
    ensures found { AddedSectionsAreFound }
{}
