// compare: solves many small studies with the solver and with one that tries every assignment, and counts where they differ.
#![tactic(auto)]

mod made;
mod plain;
mod random;

use costs::kind::CostKind;
use costs::money::Money;
use costs::posting::Posting;
use costs::totals::{MinutesThenMoney, MoneyThenMinutes};
use files::table_book::TableBook;
use made::{Made, make};
use plain::{Least, try_all};
use random::Random;
use solving::solve::solve;
use std::alloc::{AllocError, Global};
use std::{env, fmt};

// The studies of each cost kind.
const STUDIES: u32 = 700;

// How the studies of one kind came out.
#[derive(Clone, Copy, Default)]
struct Counts {
    solved: u32,
    without_plan: u32,
    tied: u32,
    differed: u32,
}

impl fmt::Display for Counts {
    fn fmt<W: fmt::Write>(&self, f: &mut fmt::Formatter<W>) -> fmt::Result {
        write!(
            f,
            "{} solved, {} without a plan, {} tied, {} differed",
            self.solved, self.without_plan, self.tied, self.differed
        )
    }
}

// Whether the solver's cost and plan are those of the plain solver.
// Stays: a cost kind says of two costs only which is lower, so equal costs are those of which neither is.
fn agrees<K: CostKind>(kind: &K, cost: K::Cost, plan: &[u8; 5], least: &Least<K::Cost>) -> bool {
    !kind.is_lower(cost, least.cost) && !kind.is_lower(least.cost, cost) && *plan == least.plan
}

// Solves one study both ways, and counts how it came out.
fn compare_one<K: CostKind>(
    heap: Global,
    kind: &K,
    made: &Made,
    counts: &mut Counts,
) -> Result<(), AllocError> {
    let book = TableBook {
        bytes: &made.charges,
    };
    let zero = kind.posting(Posting {
        cents: 0,
        minutes: 0,
    });
    let mut working = vec![in heap; zero; 20]?;
    let mut plan = [0; 5];
    let answer = solve(&made.study, &book, kind, &mut plan, &mut working);
    match (answer, try_all(&made.study, &book, kind)) {
        (Ok(cost), Some(least)) => {
            counts.solved = counts.solved.saturating_add(1);
            if least.tied > 1 {
                counts.tied = counts.tied.saturating_add(1);
            }
            if !agrees(kind, cost, &plan, &least) {
                counts.differed = counts.differed.saturating_add(1);
            }
        }
        (Err(_), None) => counts.without_plan = counts.without_plan.saturating_add(1),
        _ => counts.differed = counts.differed.saturating_add(1),
    }
    Ok(())
}

// Solves the studies of one kind, and prints how they came out.
fn compare_kind<K: CostKind>(
    rt: &HostRuntime,
    kind: &K,
    name: &str,
    seed: u64,
) -> anyhow::Result<()> {
    let mut random = Random { state: seed };
    let mut counts = Counts::default();
    for _ in 0..STUDIES {
        let made = make(rt, &mut random)?;
        compare_one(rt.alloc(), kind, &made, &mut counts)?;
    }
    println!(rt; "{name}: {counts}")?;
    Ok(())
}

const USAGE: &str = "usage: compare
Solves 2,100 small studies of its own, 700 for each cost kind, with the solver and with one that tries every assignment.
Prints for each kind how many were solved, had no plan, were tied, and differed.";

fn main(rt: HostRuntime) -> anyhow::Result<()> {
    if env::args(&rt)?
        .skip(1)
        .any(|word| word.as_str() == "--help")
    {
        println!(rt; "{USAGE}")?;
        return Ok(());
    }
    compare_kind(&rt, &Money, "money", 1)?;
    compare_kind(&rt, &MoneyThenMinutes, "money, then minutes", 2)?;
    compare_kind(&rt, &MinutesThenMoney, "minutes, then money", 3)
}
