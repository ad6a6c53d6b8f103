//! What stands behind the bytes that a program reads changes nothing of what it means: a law over the definitions. It is the contract
//! of a function that does nothing.
#![tactic(auto)]

ghost use Rattle.grown_alike.specs.Grown.{GrownProgramsMeanTheSame};

/// Where the sections of a program without a fault grow, but for those of its units, it has no fault either, and the same units,
/// entries, ranges and main: every question has the same answer.
pub fn grown_programs_mean_the_same()
    ensures { GrownProgramsMeanTheSame }
{}
