// A plain solver: it prices every assignment in reading order, and keeps the first of the least plans.
use costs::kind::CostKind;
use model::book::ChargeBook;
use model::study::Study;
use planning::price::price;

// The first of the least plans, and how many plans have that cost.
#[derive(Clone, Copy)]
pub(crate) struct Least<C: Copy> {
    pub cost: C,
    pub plan: [u8; 5],
    pub tied: u32,
}

// The next assignment in reading order; false after the last.
fn advance(plan: &mut [u8; 5], count: usize, last: u8) -> bool {
    for byte in plan[..count.min(5)].iter_mut().rev() {
        if *byte < last {
            *byte += 1;
            return true;
        }
        *byte = 0;
    }
    false
}

// The least so far with one more plan.
fn keep<K: CostKind>(
    kind: &K,
    best: Option<Least<K::Cost>>,
    plan: [u8; 5],
    cost: K::Cost,
) -> Least<K::Cost> {
    match best {
        Some(least) if kind.is_lower(least.cost, cost) => least,
        Some(least) if !kind.is_lower(cost, least.cost) => Least {
            tied: least.tied.saturating_add(1),
            ..least
        },
        _ => Least {
            cost,
            plan,
            tied: 1,
        },
    }
}

// The least so far, with that assignment tried too.
fn try_one<B: ChargeBook, K: CostKind>(
    study: &Study,
    book: &B,
    kind: &K,
    best: Option<Least<K::Cost>>,
    plan: &[u8; 5],
) -> Option<Least<K::Cost>> {
    match price(study, book, kind, plan) {
        Ok(cost) => Some(keep(kind, best, *plan, cost)),
        Err(_) => best,
    }
}

// Tries every assignment: five bytes from 0 to 6 at most, which are 16,807 assignments, so that 20,000 turns reach the last.
pub(crate) fn try_all<B: ChargeBook, K: CostKind>(
    study: &Study,
    book: &B,
    kind: &K,
) -> Option<Least<K::Cost>> {
    let count = study.components().len();
    let last = study.echelons().saturating_mul(2);
    let mut plan = [0; 5];
    let mut best = None;
    for _ in 0..20_000 {
        best = try_one(study, book, kind, best, &plan);
        if !advance(&mut plan, count, last) {
            break;
        }
    }
    best
}
