// Laws: what the definitions of planning come to.
ghost use Rattle.planning.specs.Decisions.{DecisionNamesEveryChoice};

// The bytes 1 to 8 name the two options of each of the four echelons, and no other byte is a decision.
pub fn decision_names_every_choice()
    ensures { DecisionNamesEveryChoice }
{}
