// The place of each question's mark in the table of a ruling.
ghost use Rattle.std.specs.Prelude.{◌≡◌};
ghost use Rattle.books.specs.Marks.{place, InTable};

use crate::echelon::index_of;
use model::question::Question;

// The place of a question in range: component 0 to 59 or resource 0 to 7, at echelon 1 to 4, with the options in the order
// D, R, M.
// Stays: one table; arrays in arrays are two tables, with a match on the question at each read and write (d).
pub(crate) fn place_of(question: Question) -> Option<usize>
    ensures value { result ≡ place question }
    ensures within { InTable result }
{
    match question {
        Question::OfOption {
            component,
            echelon,
            option,
        } => {
            let at = index_of(echelon)?;
            (component < 60).then(|| 12 * usize::from(component) + 3 * at + option as usize)
        }
        Question::OfResource { resource, echelon } => {
            let at = index_of(echelon)?;
            (resource < 8).then(|| 720 + 4 * usize::from(resource) + at)
        }
    }
}
