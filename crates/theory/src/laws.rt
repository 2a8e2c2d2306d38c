// The main theorems, each the contract of a function that answers nothing else.
ghost use Rattle.theory.specs.Laws.{DefinitionDecides, EchelonsArePlaces, SearchIsDefinition, SearchKeepsRules, WalkIsLeastAndFirst};

// Echelons are places: the way up from each rises and ends.
pub fn echelons_are_places()
    ensures { EchelonsArePlaces }
{}

// A walk answers the least and first of the plans that need no shut pair.
pub fn walk_is_least_and_first<C>()
    ensures { WalkIsLeastAndFirst C }
{}

// A search may stop where nothing is better, answer a plan that needs no free pair, or hold a pair and then shut it.
pub fn search_keeps_rules<C>()
    ensures { SearchKeepsRules C }
{}

// The definition through every row of bytes names the one answer, and none only where there is no plan.
pub fn definition_decides<C>()
    ensures { DefinitionDecides C }
{}

// A search by the rules finds what the definition names.
pub fn search_is_definition<C>()
    ensures { SearchIsDefinition C }
{}
