// The laws of plain taps, each on the contract of a function that does nothing.
ghost use Rattle.taps.specs.Laws.{LoadsAreSound};

/// Does nothing. Its contract: an accepted load leaves a graph that reading accepts and a plan that
/// keeps its rules.
pub fn loads_are_sound()
    ensures { LoadsAreSound }
{}
