// quote: prices a plan for a study file. `quote BYTE.. < FILE`
#![tactic(auto)]

use printing::printed::Printed;
use printing::quotation::quote_plan;
use printing::study::MOST_READ;
use std::env;
use std::io::{Read, Write};
use std::process::ExitCode;

const USAGE: &str = "usage: quote BYTE.. < FILE
Prices a plan for the study in FILE. The plan has one number a component, in the order of their numbers:
0 for not reached, 2e - 1 for discard at echelon e, 2e for repair at echelon e.
Prints what is decided for each component and the total in cents over a thousand years, or the line of the refusal.";

// What is asked for.
#[derive(Drop)]
enum Task {
    Help,
    Price(Vec<u8>),
    Refuse(String),
}

// What the arguments ask for: the first that is no byte of a plan decides, and else the plan is priced.
fn task_of(rt: &HostRuntime) -> anyhow::Result<Task> {
    let mut plan = Vec::new(rt.alloc());
    for word in env::args(rt)?.skip(1) {
        if word.as_str() == "--help" {
            return Ok(Task::Help);
        }
        let Ok(byte) = word.parse() else {
            return Ok(Task::Refuse(word));
        };
        plan.push(byte)?;
    }
    Ok(Task::Price(plan))
}

// The study file, as far as it is read.
// Stays: lora has this function and `print` too; a crate for ten lines would have to be made and tested, printing has no handle (d).
fn read_file(rt: &HostRuntime) -> anyhow::Result<Vec<u8>> {
    let mut file = Vec::new(rt.alloc());
    rt.stdin().take(MOST_READ).read_to_end(&mut file)?;
    Ok(file)
}

// Prints a report or a refusal. The status says which it was.
fn print(rt: &HostRuntime, printed: Printed) -> anyhow::Result<ExitCode> {
    let (text, status) = match printed {
        Ok(report) => (report, ExitCode::SUCCESS),
        Err(refusal) => (refusal, ExitCode::FAILURE),
    };
    rt.stdout().write_all(&text)?;
    Ok(status)
}

fn main(rt: HostRuntime) -> anyhow::Result<ExitCode> {
    match task_of(&rt)? {
        Task::Help => {
            println!(rt; "{USAGE}")?;
            Ok(ExitCode::SUCCESS)
        }
        Task::Price(plan) => print(&rt, quote_plan(rt.alloc(), &read_file(&rt)?, &plan)?),
        Task::Refuse(word) => {
            eprintln!(rt;
                "quote: '{word}' is no byte of a plan: a number from 0 to 255 is expected"
            )?;
            Ok(ExitCode::FAILURE)
        }
    }
}
