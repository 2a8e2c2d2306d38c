// What the calls answered, a line for each.
use files::table_book::TableBook;
use model::refusal::Refusal;
use reports::refusal_line::refusal_line;
use runs::call::Call;
use std::fmt;
use std::io::Write;

// What a call that was accepted answered.
#[derive(Clone, Copy)]
enum Accepted<'a> {
    Done(&'a str),
    Entered(u8),
    Plan { bytes: &'a [u8], cents: i64 },
}

impl fmt::Display for Accepted<'_> {
    fn fmt<W: fmt::Write>(&self, f: &mut fmt::Formatter<W>) -> fmt::Result {
        match self {
            Accepted::Done(done) => write!(f, "{done}"),
            Accepted::Entered(number) => write!(f, "entered {number}"),
            Accepted::Plan { bytes, cents } => {
                write!(f, "plan")?;
                for byte in *bytes {
                    write!(f, " {byte}")?;
                }
                write!(f, " total {cents}")
            }
        }
    }
}

// The answer of a call, if it was made, where the study has `count` components before it.
fn answer_of<'a>(
    call: &'a Call<TableBook<'_>, i64>,
    count: usize,
) -> Option<Result<Accepted<'a>, Refusal>> {
    match call {
        Call::Open { answer, .. } => answer.map(|made| made.map(|()| Accepted::Done("opened"))),
        Call::Enter { answer, .. } => answer.map(|made| made.map(|number| Accepted::Entered(
            number,
        ))),
        Call::Require { answer, .. } => {
            answer.map(|made| made.map(|()| Accepted::Done("required")))
        }
        Call::Strike { answer } => answer.map(|made| made.map(|()| Accepted::Done("struck"))),
        Call::Price { plan, answer, .. } => {
            let bytes = plan.as_slice();
            answer.map(|made| made.map(|cents| Accepted::Plan { bytes, cents }))
        }
        Call::Solve { plan, answer, .. } => {
            let bytes = &plan[..count.min(plan.len())];
            answer.map(|made| made.map(|cents| Accepted::Plan { bytes, cents }))
        }
    }
}

// How many components the study has after a call, where it had `count` before.
fn count_after(call: &Call<TableBook<'_>, i64>, count: usize) -> usize {
    match call {
        Call::Open {
            answer: Some(Ok(())),
            ..
        } => 0,
        Call::Enter {
            answer: Some(Ok(number)),
            ..
        } => usize::from(*number) + 1,
        Call::Strike {
            answer: Some(Ok(())),
        } => count.saturating_sub(1),
        _ => count,
    }
}

// The answers of calls that were made on a blank study.
pub(crate) fn print_answers(
    rt: &HostRuntime,
    calls: &[Call<TableBook<'_>, i64>],
) -> anyhow::Result<()> {
    let mut count = 0;
    for call in calls {
        match answer_of(call, count) {
            Some(Ok(accepted)) => println!(rt; "{accepted}")?,
            Some(Err(why)) => rt.stdout().write_all(&refusal_line(rt.alloc(), &why)?)?,
            None => {}
        }
        count = count_after(call, count);
    }
    Ok(())
}
