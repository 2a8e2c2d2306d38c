// What a charge book answers.
use crate::question::Question;

// Money and time: per failure for an option, a year for a resource. Negative money is a scrap return.
#[derive(Clone, Copy, PartialEq, Eq, Debug)]
pub struct Charge {
    pub cents: i64,
    pub minutes: u64,
}

// Why a book cannot answer.
#[derive(Clone, Copy, PartialEq, Eq, Debug)]
pub enum Cause {
    BeyondLimits,
    EnteredTwice,
}

// A question that a book cannot answer: why, the letter of the book where this arose, how many layers lie between that
// book and the one that was asked, and the question.
#[derive(Clone, Copy, PartialEq, Eq, Debug)]
pub struct Fault {
    pub cause: Cause,
    pub letter: char,
    pub height: u8,
    pub question: Question,
}

// A charge where what is asked about is open; barred where it is not; or a fault.
// Stays: `Result<Option<Charge>, Fault>` is no plainer: barred is an answer, and a layer hands a fault on as one, by no `?` (d).
#[derive(Clone, Copy, PartialEq, Eq, Debug)]
pub enum Answer {
    Charged(Charge),
    Barred,
    Faulty(Fault),
}
