// Worked figures of price books and rulings.
use crate::lent::Lent;
use crate::price_book::PriceBook;
use crate::ruling::Ruling;
use model::answer::{Answer, Charge};
use model::book::ChargeBook;
use model::question::{Question, RepairOption};
use model::refusal::Refusal;
use std::test::Fail;

const REPAIR: Question = Question::OfOption {
    component: 0,
    echelon: 2,
    option: RepairOption::Repair,
};

const RESOURCE: Question = Question::OfResource {
    resource: 7,
    echelon: 1,
};

// Net 100 over 40 over 10.
#[test]
fn three_rows(rt: HostRuntime) -> Result<(), Fail> {
    let mut book = PriceBook::blank(rt.alloc())?;
    book.add(255, 100, 10, 125)?;
    book.add(0, 40, 0, 0)?;
    book.add(1, 10, 0, 0)?;
    assert_eq!(rt; book.gross(0), Some(150));
    assert_eq!(rt; book.add(3, 10, 0, 0), Err(Refusal::UnknownPriceParent));
    Ok(())
}

#[test]
fn barred_and_lifted(rt: HostRuntime) -> Result<(), Fail> {
    let mut book = PriceBook::blank(rt.alloc())?;
    book.add(255, 100, 10, 20)?;
    let mut ruling = Ruling::over(Lent { below: &book });
    ruling.bar(REPAIR)?;
    assert_eq!(rt; ruling.ask(REPAIR), Answer::Barred);
    ruling.lift(REPAIR)?;
    assert_eq!(rt;
        ruling.ask(REPAIR),
        Answer::Charged(Charge {
            cents: 1_000,
            minutes: 0,
        })
    );
    Ok(())
}

#[test]
fn stacked(rt: HostRuntime) -> Result<(), Fail> {
    let mut low = Ruling::over(PriceBook::blank(rt.alloc())?);
    low.bar(RESOURCE)?;
    let top = Ruling::over(low);
    assert_eq!(rt; top.ask(RESOURCE), Answer::Barred);
    Ok(())
}
