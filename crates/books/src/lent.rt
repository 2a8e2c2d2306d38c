// A book that is lent: it answers as the book that it borrows, so that a layer can stand over a book that stays with its
// owner.
use model::answer::Answer;
use model::book::ChargeBook;
use model::question::Question;

#[derive(Drop)]
pub struct Lent<'a, B> {
    pub below: &'a B,
}

impl<'a, B: ChargeBook> ChargeBook for Lent<'a, B> {
    ghost meaning = { λ b. B.ChargeBook.meaning b.below.now };

    ghost limited = { λ b. B.ChargeBook.limited b.below.now };

    fn ask(&self, question: Question) -> Answer {
        self.below.ask(question)
    }
}
