// The laws of selections, each the contract of a function that answers nothing else.
ghost use Rattle.selections.specs.Laws.{PlansAreSelections, SelectionsPostEachOnce};
ghost use Rattle.selections.specs.Examples.{ExamplesAgree};

// Each plan describes exactly one consistent selection, each consistent selection is described by exactly one plan, and
// their costs are equal.
pub fn plans_are_selections<C>()
    ensures { PlansAreSelections C }
{}

// A consistent selection posts each option that is selected and each pair that one needs once, and nothing else.
pub fn selections_post_each_once()
    ensures { SelectionsPostEachOnce }
{}

// Two plans of study X with their selections and costs, and a selection with a superfluous option that is not consistent.
pub fn worked_selections()
    ensures { ExamplesAgree }
{}
