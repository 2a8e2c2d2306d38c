// session: makes a list of calls on a new blank study, one after another, and prints what each answered.
#![tactic(auto)]

mod answers;
mod script;

use answers::print_answers;
use anyhow::anyhow;
use costs::money::Money;
use files::table_book::TableBook;
use runs::runs::run_on_blank;
use script::calls_of;
use std::io::Read;
use std::{env, fs};

// The most that is read of the calls.
const MOST_READ: u64 = 1_000_000;

const USAGE: &str = "usage: session FILE < CALLS
Makes the calls on a new blank study, one after another, and prints a line for each: what it answered, or its refusal.
Charges are those of FILE, and costs are money. A call is a line of words; an empty line is none:
  open ECHELONS RESOURCES
  enter PARENT DISCARD REPAIR MOVE RATE
  require COMPONENT DISCARD REPAIR MOVE
  strike
  price BYTE..
  solve
PARENT is 255 for a top component. DISCARD, REPAIR and MOVE say which resources the option needs: 1 for resource 0, 2 for
resource 1, 4 for resource 2 and so on, added up.";

// The one argument, if there is just one.
fn argument(rt: &HostRuntime) -> anyhow::Result<String> {
    let mut words = env::args(rt)?.skip(1);
    match (words.next(), words.next()) {
        (Some(word), None) => Ok(word),
        _ => Err(anyhow!("one argument is expected: see --help")),
    }
}

fn run_session(rt: &HostRuntime) -> anyhow::Result<()> {
    let name = argument(rt)?;
    if name.as_str() == "--help" {
        println!(rt; "{USAGE}")?;
        return Ok(());
    }
    let charges = fs::read(rt, name.as_str())?;
    let mut text = String::new(rt.alloc());
    rt.stdin().take(MOST_READ).read_to_string(&mut text)?;
    let book = TableBook {
        bytes: charges.as_slice(),
    };
    let mut calls = calls_of(rt.alloc(), text.as_str(), book)?;
    let _study = run_on_blank(rt.alloc(), &Money, calls.as_mut_slice())?;
    print_answers(rt, calls.as_slice())
}

fn main(rt: HostRuntime) -> anyhow::Result<()> {
    run_session(&rt)
}
