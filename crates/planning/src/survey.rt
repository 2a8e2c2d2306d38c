// The survey of a book: every question of a study is asked once, in order, up to the first fault.
ghost use Rattle.std.specs.Prelude.{◌≡◌, ℕ, suc, ◌<◌, ◌≤◌, List, Ok, Result};
ghost use Rattle.costs.specs.Postings.{Within};
ghost use Rattle.model.specs.declared.answer.Fault.{Fault};
ghost use Rattle.model.specs.declared.question.Question.{Question};
ghost use Rattle.model.specs.declared.question.Question.TheVariants.{OfOption};
ghost use Rattle.model.specs.Books.{Book};
ghost use Rattle.model.specs.Studies.{model};
ghost use Rattle.plans.specs.Ranges.{upto};
ghost use Rattle.plans.specs.Postings.{posted};
ghost use Rattle.planning.specs.Asking.{Learned, Postable, Asked, Filled, AskedChoices, AskedOptionRow, AskedOptions, AskedPair, AskedResourceRow, AskedResources};
ghost use Rattle.planning.specs.Surveys.{by_echelon, until, Surveyed};

use crate::table::{ByEchelon, Choices, Survey};
use costs::posting::Posting;
use model::answer::{Answer, Charge, Fault};
use model::book::ChargeBook;
use model::question::{Question, RepairOption};
use model::study::Study;

// Stands where nothing is asked.
const NO_CHOICES: Choices = Choices {
    discard: None,
    repair: None,
    moving: None,
};

// A charge that arises so many times in a thousand years.
fn posted(times: u32, charge: Charge) -> Posting
    requires { Within (posted times charge) }
    ensures { result ≡ posted times charge }
{
    Posting {
        cents: i64::from(times) * charge.cents,
        minutes: u64::from(times) * charge.minutes,
    }
}

// What an answer posts, or its fault.
fn learned(times: u32, answer: Answer) -> Result<Option<Posting>, Fault>
    requires { Postable times answer }
    ensures { Learned times answer result }
{
    match answer {
        Answer::Charged(charge) => Ok(Some(posted(times, charge))),
        Answer::Barred => Ok(None),
        Answer::Faulty(fault) => Err(fault),
    }
}

// Asks a book for the options of one component, whose number and rate it keeps beside the last echelon.
#[derive(Drop)]
struct Inquiry<'a, B> {
    book: &'a B,
    number: u8,
    rate: u32,
    last: u8,
    ghost few_failures: { rate ≤ 1_000_000 },
    ghost few_echelons: { last ≤ 4 },
}

impl<B: ChargeBook> Inquiry<'_, B> {
    // Asks for one option at an echelon.
    fn posting(&self, echelon: u8, option: RepairOption) -> Result<Option<Posting>, Fault>
        ensures { Learned self.now.rate (B.meaning self.now.book.now (OfOption self.now.number echelon option)) result }
    {
        let component = self.number;
        let question = Question::OfOption {
            component,
            echelon,
            option,
        };
        learned(self.rate, self.book.ask(question))
    }

    // Asks for the options at one echelon: discard, repair and, unless it is the last, move.
    fn at(&self, echelon: u8) -> Result<Choices, Fault>
        ensures { AskedChoices (B.meaning self.now.book.now) self.now.last self.now.rate self.now.number echelon result }
    {
        let discard = self.posting(echelon, RepairOption::Discard)?;
        let repair = self.posting(echelon, RepairOption::Repair)?;
        let moving = if echelon < self.last {
            self.posting(echelon, RepairOption::Move)?
        } else {
            None
        };
        Ok(Choices {
            discard,
            repair,
            moving,
        })
    }

    // Asks for the options at each echelon.
    fn row(&self) -> Result<ByEchelon<Choices>, Fault>
        ensures { AskedOptionRow (B.meaning self.now.book.now) self.now.last self.now.rate self.now.number result }
    {
        asked_by_echelon(self.last, NO_CHOICES, |echelon| self.at(echelon))
    }
}

// Asks for a resource at one echelon. Its charge is for a year, and a posting counts a thousand.
fn pair_posting<B: ChargeBook>(
    book: &B,
    resource: u8,
    echelon: u8,
) -> Result<Option<Posting>, Fault>
    ensures { AskedPair (B.meaning book.now) resource echelon result }
{
    learned(1000, book.ask(Question::OfResource { resource, echelon }))
}

// Asks at one echelon. Past the last nothing is asked, and `none` is answered.
fn asked_until<T: Copy, F: Fn(u8) -> Result<T, Fault>>(
    last: u8,
    echelon: u8,
    none: T,
    ask: &F,
) -> Result<T, Fault>
    requires callable { echelon ≤ last → F.pre ask.now echelon }
    ensures { (echelon ≤ last → F.post ask.now echelon result) × (last < echelon → result ≡ Ok none) }
{
    if echelon > last {
        Ok(none)
    } else {
        ask(echelon)
    }
}

// Asks at each echelon in turn, up to the last or to the first fault. `none` stands for those past the last.
// Stays: four calls; a loop that is handed a row and hands it back (tried) makes a survey by a price book a quarter slower (b).
fn asked_by_echelon<T: Copy, F: Fn(u8) -> Result<T, Fault>>(
    last: u8,
    none: T,
    ask: F,
) -> Result<ByEchelon<T>, Fault>
    requires few_echelons { last ≤ 4 }
    requires callable { (e : ℕ) → e ≤ last → F.pre ask e }
    ensures { (b : Book) (questions : ℕ → List Question) (kept : ℕ → T) → ((e : ℕ) (r : Result T Fault) → F.post ask e r → Asked b (questions e) (λ x. x ≡ kept e) r) → Asked b (upto (λ k. questions (suc k)) last) (λ x. x ≡ by_echelon (until last none kept)) result }
{
    Ok([
        asked_until(last, 1, none, &ask)?,
        asked_until(last, 2, none, &ask)?,
        asked_until(last, 3, none, &ask)?,
        asked_until(last, 4, none, &ask)?,
    ])
}

// Asks for the numbers below a count in turn, up to the first fault. The places after theirs stay as they are.
fn asked<T: Copy, F: Fn(u8) -> Result<T, Fault>, const N: usize>(
    count: u8,
    places: [T; N],
    ask: F,
) -> Result<[T; N], Fault>
    requires room { count ≤ N }
    requires callable { (k : ℕ) → k < count → F.pre ask k }
    ensures { (b : Book) (questions : ℕ → List Question) (kept : ℕ → T) → ((k : ℕ) (r : Result T Fault) → F.post ask k r → Asked b (questions k) (λ x. x ≡ kept k) r) → Asked b (upto questions count) (Filled kept count places) result }
{
    let mut filled = places;
    // Stays: tried as a zip with the places; its proof lacked what the places already written hold, and it is no shorter.
    for number in 0..count {
        filled[usize::from(number)] = ask(number)?;
    }
    Ok(filled)
}

// Asks for the options of each component.
// Stays: a loop of its own, over the components; `asked` would look each of them up again by its number.
fn option_rows<B: ChargeBook>(study: &Study, book: &B) -> Result<[ByEchelon<Choices>; 60], Fault>
    ensures { AskedOptions (model study.now) (B.meaning book.now) result }
{
    let mut rows = [[NO_CHOICES; 4]; 60];
    for (number, component) in study.components().iter().enumerate() {
        let inquiry = Inquiry {
            book,
            number: number as u8,
            rate: component.rate,
            last: study.echelons(),
        };
        rows[number] = inquiry.row()?;
    }
    Ok(rows)
}

// Asks for a resource at each echelon.
fn resource_row<B: ChargeBook>(
    book: &B,
    last: u8,
    resource: u8,
) -> Result<ByEchelon<Option<Posting>>, Fault>
    requires { last ≤ 4 }
    ensures { AskedResourceRow (B.meaning book.now) last resource result }
{
    asked_by_echelon(last, None, |echelon| pair_posting(book, resource, echelon))
}

// Asks for each resource.
fn resource_rows<B: ChargeBook>(
    study: &Study,
    book: &B,
) -> Result<[ByEchelon<Option<Posting>>; 8], Fault>
    ensures { AskedResources (model study.now) (B.meaning book.now) result }
{
    asked(
        study.resources(),
        [[None; 4]; 8],
        |resource| resource_row(book, study.echelons(), resource),
    )
}

// Asks every question of the study: first for the options, then for the resources.
pub fn survey<B: ChargeBook>(study: &Study, book: &B) -> Result<Survey, Fault>
    ensures { Surveyed (model study.now) (B.meaning book.now) result }
{
    let options = option_rows(study, book)?;
    let resources = resource_rows(study, book)?;
    Ok(Survey { options, resources })
}
