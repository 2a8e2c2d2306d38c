// A charge book: it answers what an option of a component, or a resource, is charged at an echelon.
ghost use Rattle.std.specs.Prelude.{◌≡◌};
ghost use Rattle.model.specs.Books.{Book, KeepsLimits, InLimits};
ghost use Rattle.model.specs.declared.question.Question.{Question};

use crate::answer::Answer;
use crate::question::Question;

// The meaning of a book is its answer to each question as it now stands. Asking gives that answer and alters nothing.
pub trait ChargeBook {
    ghost meaning: { Self → Book };

    ghost limited: { (b : Self) → KeepsLimits (meaning b) };

    fn ask(&self, question: Question) -> Answer
        ensures value { result ≡ meaning self.now question }
        ensures limits { InLimits question result };
}
