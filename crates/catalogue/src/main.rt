// catalogue: prices plans for a small study from a price book, first as it stands and then with some questions barred.
#![tactic(auto)]

use books::lent::Lent;
use books::price_book::PriceBook;
use books::ruling::Ruling;
use costs::money::Money;
use model::book::ChargeBook;
use model::component::{NO_PARENT, Needs};
use model::question::{Question, RepairOption};
use model::study::Study;
use planning::price::price;
use reports::refusal_line::refusal_line;
use std::alloc::Global;
use std::env;
use std::io::Write;

// A radio with a module in it and a card in that, on two echelons. Each repair needs the one test bench.
fn radio(heap: Global) -> anyhow::Result<Study> {
    let mut study = Study::blank(heap)?;
    let needs = Needs {
        repair: 1,
        ..Needs::default()
    };
    study.open(2, 1)?;
    study.enter(NO_PARENT, needs, 4_000)?;
    study.enter(0, needs, 2_500)?;
    study.enter(1, needs, 1_500)?;
    Ok(study)
}

// Net prices of 100 over 40 over 10 units; repair at 5, 8 and 20 percent, discard at full price; the bench at 50,000 cents a
// year.
fn prices(heap: Global) -> anyhow::Result<PriceBook> {
    let mut book = PriceBook::blank(heap)?;
    book.add(NO_PARENT, 100, 5, 100)?;
    book.add(0, 40, 8, 100)?;
    book.add(1, 10, 20, 100)?;
    book.set_yearly(0, 50_000)?;
    Ok(book)
}

// Prints what the plan costs by the book, or the line of the refusal.
fn show<B: ChargeBook>(
    rt: &HostRuntime,
    study: &Study,
    book: &B,
    plan: &[u8],
) -> anyhow::Result<()> {
    match price(study, book, &Money, plan) {
        Ok(cents) => println!(rt; "total {cents}")?,
        Err(why) => {
            let line = refusal_line(rt.alloc(), &why)?;
            rt.stdout().write_all(&line)?;
        }
    }
    Ok(())
}

const USAGE: &str = "usage: catalogue
Prices plans for a small study of its own from a price book, and again with some questions barred.";

fn main(rt: HostRuntime) -> anyhow::Result<()> {
    if env::args(&rt)?
        .skip(1)
        .any(|word| word.as_str() == "--help")
    {
        println!(rt; "{USAGE}")?;
        return Ok(());
    }
    let study = radio(rt.alloc())?;
    let book = prices(rt.alloc())?;
    println!(rt; "all repaired at echelon 2, by the price book:")?;
    show(&rt, &study, &book, &[4, 4, 4])?;
    let mut ruling = Ruling::over(Lent { below: &book });
    ruling.bar(Question::OfResource {
        resource: 0,
        echelon: 2,
    })?;
    println!(rt; "the same, with no bench allowed at echelon 2:")?;
    show(&rt, &study, &ruling, &[4, 4, 4])?;
    println!(rt; "the radio repaired aboard, the module discarded:")?;
    show(&rt, &study, &ruling, &[2, 1, 0])?;
    ruling.bar(Question::OfOption {
        component: 1,
        echelon: 1,
        option: RepairOption::Discard,
    })?;
    println!(rt; "the same, with no discard of the module allowed aboard:")?;
    show(&rt, &study, &ruling, &[2, 1, 0])
}
