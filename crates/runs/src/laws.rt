// What holds of every run.
ghost use Rattle.runs.specs.Laws.{RulesMakeTheStudy, CallsKeepLimits, EverySolveKeepsPromise};

// The study after a run is the one that the rules make of the list of its calls.
pub fn rules_make_the_study<B, C>()
    ensures { RulesMakeTheStudy B C }
{}

// Whatever calls are made on a study within its limits, as the blank study is, it stays within them.
pub fn calls_keep_limits<B, C>()
    ensures { CallsKeepLimits B C }
{}

// Every solve that is ready, at any place of any run, answers the least plan, first in reading order, exactly when a plan
// exists for the study that the calls before it made.
pub fn every_solve_keeps_promise<B, C>()
    ensures { EverySolveKeepsPromise B C }
{}
