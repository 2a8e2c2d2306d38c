// lora: finds the least plan for a study file, first in reading order.
#![tactic(auto)]

use printing::printed::Printed;
use printing::solution::solve_file;
use printing::study::MOST_READ;
use printing::trial::try_file;
use std::env;
use std::io::{Read, Write};
use std::process::ExitCode;
use trials::change::Change;

const USAGE: &str = "usage: lora < FILE
       lora --try RECORD AMOUNT < FILE
Finds the least plan by money for the study in FILE, the first in reading order of all plans at that cost.
Prints what is decided for each component and the total in cents over a thousand years, or the line of the refusal.
--try prints this for the file with other cents in one record of a charge, and then for the file as it is. RECORD is
counted from 0, and FILE stays as it is.
The status is 1 where something was refused.";

// What is asked for.
#[derive(Clone, Copy)]
enum Task {
    Help,
    Solve,
    Try(Change),
}

// What the arguments ask for; none where lora does nothing of the kind.
fn task_of(words: &[String]) -> Option<Task> {
    match words {
        [] => Some(Task::Solve),
        [option, ..] if option.as_str() == "--help" => Some(Task::Help),
        [option, record, amount] if option.as_str() == "--try" => Some(Task::Try(Change {
            record: record.parse().ok()?,
            cents: amount.parse().ok()?,
        })),
        _ => None,
    }
}

// Says which argument is none that lora knows, or what `--try` wants.
fn explain(rt: &HostRuntime, words: &[String]) -> anyhow::Result<()> {
    match words.first().map(|word| word.as_str()) {
        Some("--try") => eprintln!(rt;
            "lora: --try wants a record and an amount, both whole numbers: see --help"
        )?,
        Some(word) => eprintln!(rt; "lora: '{word}' is no argument of lora: see --help")?,
        None => {}
    }
    Ok(())
}

// The study file, as far as it is read.
fn read_file(rt: &HostRuntime) -> anyhow::Result<Vec<u8>> {
    let mut file = Vec::new(rt.alloc());
    rt.stdin().take(MOST_READ).read_to_end(&mut file)?;
    Ok(file)
}

// Prints a report or a refusal. The status says which it was.
fn print(rt: &HostRuntime, printed: Printed) -> anyhow::Result<ExitCode> {
    let (text, status) = match printed {
        Ok(report) => (report, ExitCode::SUCCESS),
        Err(refusal) => (refusal, ExitCode::FAILURE),
    };
    rt.stdout().write_all(&text)?;
    Ok(status)
}

fn main(rt: HostRuntime) -> anyhow::Result<ExitCode> {
    let words: Vec<String> = env::args(&rt)?.skip(1).collect(rt.alloc())?;
    match task_of(&words) {
        Some(Task::Help) => {
            println!(rt; "{USAGE}")?;
            Ok(ExitCode::SUCCESS)
        }
        Some(Task::Solve) => print(&rt, solve_file(rt.alloc(), &read_file(&rt)?)?),
        Some(Task::Try(change)) => print(&rt, try_file(rt.alloc(), &mut read_file(&rt)?, change)?),
        None => {
            explain(&rt, &words)?;
            Ok(ExitCode::FAILURE)
        }
    }
}
