// What solving answers: the definition through every assignment, and that it is the least plan, first in reading order.
#![tactic(auto)]

ghost use Rattle.solutions.specs.Promises.{SolvesLeastAndFirst};

// Every solve that is ready answers the least plan, first in reading order, exactly when a plan exists.
pub fn solves_least_and_first<C>()
    ensures { SolvesLeastAndFirst C }
{}
