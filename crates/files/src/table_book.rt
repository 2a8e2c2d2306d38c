// The table book: it answers from the T and F records of a study file.
ghost use Rattle.std.specs.Prelude.{◌≡◌, List, [], ◌∷◌};
ghost use Rattle.files.specs.TableAnswers.{names as names-question, charge_for, charges, is_within, answer_from, table_answers};
ghost use Rattle.files.specs.TableLimits.{table_limited};
ghost use Rattle.files.specs.FoundCharges.{only};

use crate::record::{Record, charge};
use model::answer::{Answer, Cause, Charge, Fault};
use model::book::ChargeBook;
use model::question::Question;

// Any bytes make a table book. Only whole records count.
#[derive(Clone, Copy)]
pub struct TableBook<'a> {
    pub bytes: &'a [u8],
}

// Whether a record with these first bytes names the question.
fn names(kind: u8, number: u8, echelon: u8, letter: u8, question: Question) -> bool
    ensures { result ≡ names-question (kind ∷ number ∷ echelon ∷ letter ∷ []) question }
{
    match question {
        Question::OfOption {
            component,
            echelon: place,
            option,
        } => {
            let letter = char::from(letter);
            (kind, number, echelon, letter) == (b'T', component, place, option.letter())
        }
        Question::OfResource {
            resource,
            echelon: place,
        } => (kind, number, echelon) == (b'F', resource, place),
    }
}

// The charge that a record enters for a question, where it names that question.
fn charge_for(record: &Record, question: Question) -> Option<Charge>
    ensures { result ≡ charge_for question «record».now }
{
    // Stays: tried on the array itself, of which the borrow checker does not cover a rest.
    let [kind, number, echelon, letter, rest @ ..] = record.as_slice() else {
        return None;
    };
    names(*kind, *number, *echelon, *letter, question).then(|| charge(rest.as_array().unwrap()))
}

// Whether a charge keeps the limits that hold for the question.
fn is_within(question: Question, charge: Charge) -> bool
    ensures { result ≡ is_within question charge }
{
    match question {
        Question::OfOption { .. } => {
            (-1_000_000_000..=1_000_000_000).contains(&charge.cents) && charge.minutes <= 1_000_000
        }
        Question::OfResource { .. } => {
            (0..=1_000_000_000_000).contains(&charge.cents) && charge.minutes <= 1_000_000_000
        }
    }
}

// The charge that the records enter for a question, if any. Several are an error.
fn only_charge(records: &[Record], question: Question) -> Result<Option<Charge>, Cause>
    ensures { result ≡ only (charges question records.now) }
{
    let mut charges = records
        .iter()
        .filter_map(|record| charge_for(record, question));
    let Some(charge) = charges.next() else {
        return Ok(None);
    };
    match charges.next() {
        None => Ok(Some(charge)),
        Some(_) => Err(Cause::EnteredTwice),
    }
}

// The answer to the question for which this was found.
fn answer(question: Question, found: Result<Option<Charge>, Cause>) -> Answer
    ensures { (cs : List Charge) → found ≡ only cs → result ≡ answer_from question cs }
{
    let cause = match found {
        Ok(None) => return Answer::Barred,
        Ok(Some(charge)) if is_within(question, charge) => return Answer::Charged(charge),
        Ok(Some(_)) => Cause::BeyondLimits,
        Err(cause) => cause,
    };
    Answer::Faulty(Fault {
        cause,
        letter: 'T',
        height: 0,
        question,
    })
}

impl<'a> ChargeBook for TableBook<'a> {
    ghost meaning = { λ b. table_answers b.bytes.now };

    ghost limited = { λ b. table_limited b.bytes.now };

    fn ask(&self, question: Question) -> Answer {
        let (records, _) = self.bytes.as_chunks();
        answer(question, only_charge(records, question))
    }
}
