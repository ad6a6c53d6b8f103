//! What a program with sections added means.

ghost use Rattle.added_alike.specs.AddedMeaning.{AddedProgramsMeanTheSame, IndexedProgramsMeanTheSame};

/// A program without a fault has none with sections added either, and the same units, entries, ranges and main, so every question has
/// the same answer. So has a program of at most 1,073,741,824 bytes to which its index is added.
pub fn added_programs_mean_the_same()
    ensures any { AddedProgramsMeanTheSame }
    ensures index { IndexedProgramsMeanTheSame }
{}
