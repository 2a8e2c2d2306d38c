// The ruling layer: it stands over any book, and bars the questions that it has marked.
ghost use Rattle.std.specs.Prelude.{◌≡◌};
ghost use Rattle.books.specs.Marks.{no_marks, is_marked, on_mark, on_bar, on_lift, place};
ghost use Rattle.books.specs.Rulings.{raised, ruled, ruled_limited};

use crate::places::place_of;
use model::answer::{Answer, Fault};
use model::book::ChargeBook;
use model::question::Question;
use model::refusal::Refusal;

#[derive(Drop)]
pub struct Ruling<B> {
    below: B,
    marks: [bool; 752],
}

// An answer from the book below: a fault lies one layer further down.
fn raise(answer: Answer) -> Answer
    ensures { result ≡ raised answer }
{
    match answer {
        Answer::Faulty(fault) => Answer::Faulty(Fault {
            height: fault.height.saturating_add(1),
            ..fault
        }),
        other => other,
    }
}

impl<B> Ruling<B> {
    // A ruling over a book, with no mark set.
    pub fn over(below: B) -> Ruling<B>
        ensures book { result.below ≡ below }
        ensures marks { result.marks ≡ no_marks }
    {
        Ruling {
            below,
            marks: [false; 752],
        }
    }

    // Sets the mark of a question, so that it is barred.
    pub fn bar(&mut self, question: Question) -> Result<(), Refusal>
        ensures book { self.new.below ≡ self.old.below }
        ensures marks { (result, self.new.marks) ≡ on_bar self.old.marks question }
    {
        self.set_mark(question, true)
    }

    // Clears the mark of a question, so that the book below answers it.
    pub fn lift(&mut self, question: Question) -> Result<(), Refusal>
        ensures book { self.new.below ≡ self.old.below }
        ensures marks { (result, self.new.marks) ≡ on_lift self.old.marks question }
    {
        self.set_mark(question, false)
    }

    // Writes the mark of a question in range.
    fn set_mark(&mut self, question: Question, mark: bool) -> Result<(), Refusal>
        ensures book { self.new.below ≡ self.old.below }
        ensures marks { (result, self.new.marks) ≡ on_mark self.old.marks (place question) mark }
    {
        let place = place_of(question).ok_or(Refusal::RulingOutOfRange)?;
        self.marks[place] = mark;
        Ok(())
    }

    // Whether the question has a mark, and it is set.
    fn is_marked(&self, question: Question) -> bool
        ensures { result ≡ is_marked self.now.marks question }
    {
        place_of(question).is_some_and(|place| self.marks[place])
    }
}

impl<B: ChargeBook> ChargeBook for Ruling<B> {
    ghost meaning = { λ b. ruled b.marks (B.ChargeBook.meaning b.below) };

    ghost limited = { λ b. ruled_limited b.marks (B.ChargeBook.meaning b.below) (B.ChargeBook.limited b.below) };

    fn ask(&self, question: Question) -> Answer {
        if self.is_marked(question) {
            return Answer::Barred;
        }
        raise(self.below.ask(question))
    }
}
