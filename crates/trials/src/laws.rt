// What holds of every trial.
ghost use Rattle.trials.specs.Laws.{TrialChangesOneAmount, StandingAmountIsNoChange, TrialsLeaveNoTrace};

// The file that a trial solves by is the file, but for the cents of one record.
pub fn trial_changes_one_amount()
    ensures { TrialChangesOneAmount }
{}

// Trying the amount that stands there already answers as solving by the file itself does.
pub fn standing_amount_is_no_change()
    ensures { StandingAmountIsNoChange }
{}

// A trial leaves no trace: trials in any order answer as each of them alone.
pub fn trials_leave_no_trace()
    ensures { TrialsLeaveNoTrace }
{}
