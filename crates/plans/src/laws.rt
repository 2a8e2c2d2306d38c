// The laws of plans, each the contract of a function that answers nothing else.
ghost use Rattle.plans.specs.Laws.{PriceAcceptsExactlyPlans, StartIsRead, PostingsFit, PlansPostEachOnce};
ghost use Rattle.plans.specs.Orders.{DecidesTies};

// Where a component is entered, the bytes suffice and the survey meets no fault, a cost is answered exactly for the plans.
pub fn price_accepts_exactly_plans<C>()
    ensures { PriceAcceptsExactlyPlans C }
{}

// A component's start can be read off its parent's byte.
pub fn start_is_read()
    ensures { StartIsRead }
{}

// Every posting is within its limits, and there are at most 256.
pub fn postings_fit()
    ensures { PostingsFit }
{}

// A plan posts each option that it uses and each pair that it needs once, and nothing else.
pub fn plans_post_each_once()
    ensures { PlansPostEachOnce }
{}

// Reading order decides every tie.
pub fn reading_order_decides_ties()
    ensures { DecidesTies }
{}
