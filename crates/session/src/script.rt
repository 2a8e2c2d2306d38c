// The calls that a text asks for, one a line.
use anyhow::anyhow;
use files::table_book::TableBook;
use model::component::Needs;
use runs::call::Call;
use std::alloc::Global;

// A number as a byte.
fn byte(word: &str) -> anyhow::Result<u8> {
    Ok(word.parse::<u8>()?)
}

fn needs(discard: &str, repair: &str, moving: &str) -> anyhow::Result<Needs> {
    Ok(Needs {
        discard: byte(discard)?,
        repair: byte(repair)?,
        moving: byte(moving)?,
    })
}

// The bytes of a plan.
fn plan(heap: Global, words: &[&str]) -> anyhow::Result<Vec<u8>> {
    words.iter().map(|word| byte(word)).try_collect(heap)
}

// The call that the words of a line ask for.
fn call<'a>(
    heap: Global,
    words: &[&str],
    book: TableBook<'a>,
) -> anyhow::Result<Call<TableBook<'a>, i64>> {
    match words {
        ["open", echelons, resources] => Ok(Call::Open {
            echelons: byte(echelons)?,
            resources: byte(resources)?,
            answer: None,
        }),
        ["enter", parent, discard, repair, moving, rate] => Ok(Call::Enter {
            parent: byte(parent)?,
            needs: needs(discard, repair, moving)?,
            rate: rate.parse::<u32>()?,
            answer: None,
        }),
        ["require", component, discard, repair, moving] => Ok(Call::Require {
            component: byte(component)?,
            needs: needs(discard, repair, moving)?,
            answer: None,
        }),
        ["strike"] => Ok(Call::Strike { answer: None }),
        ["price", bytes @ ..] => Ok(Call::Price {
            book,
            plan: plan(heap, bytes)?,
            answer: None,
        }),
        ["solve"] => Ok(Call::Solve {
            book,
            plan: vec![in heap; 0; 60]?,
            working: vec![in heap; 0; 240]?,
            answer: None,
        }),
        _ => Err(anyhow!("a line is no call: see --help")),
    }
}

// The calls of a text. A solve has room for every study.
pub(crate) fn calls_of<'a>(
    heap: Global,
    text: &str,
    book: TableBook<'a>,
) -> anyhow::Result<Vec<Call<TableBook<'a>, i64>>> {
    let mut calls = Vec::new(heap);
    for line in text.lines() {
        let words: Vec<&str> = line.split_whitespace().collect(heap)?;
        if !words.is_empty() {
            calls.push(call(heap, words.as_slice(), book)?)?;
        }
    }
    Ok(calls)
}
