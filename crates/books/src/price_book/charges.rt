// A price book is a charge book: it charges from its rows and its yearly amounts, and never faults.
ghost use Rattle.std.specs.Prelude.{◌≡◌, ◌≤◌};
ghost use Rattle.model.specs.declared.question.Question.TheVariants.{OfOption, OfResource};
ghost use Rattle.model.specs.declared.answer.Answer.TheVariants.{Charged};
ghost use Rattle.books.specs.PriceRows.{AtMost};
ghost use Rattle.books.specs.Gross.{most_gross};
ghost use Rattle.books.specs.Prices.{prices};
ghost use Rattle.books.specs.Charges.{option_cents, priced, priced_limited};

use super::PriceBook;
use crate::echelon::is_echelon;
use crate::gross::gross_price;
use crate::price_row::PriceRow;
use model::answer::{Answer, Charge};
use model::book::ChargeBook;
use model::question::{Question, RepairOption};

// The charge of an option in cents: a percent of the row's price, or of its gross price.
fn option_cents(gross: u32, row: PriceRow, option: RepairOption) -> u32
    requires gross { gross ≤ most_gross }
    requires row { AtMost row }
    ensures { result ≡ option_cents gross row option }
{
    match option {
        RepairOption::Discard => gross * u32::from(row.discard),
        RepairOption::Repair => row.net * u32::from(row.repair),
        RepairOption::Move => gross,
    }
}

// A charge of that money, and no minutes.
fn charged(cents: i64) -> Answer
    ensures { result ≡ Charged (record { cents = cents; minutes = 0 }) }
{
    Answer::Charged(Charge { cents, minutes: 0 })
}

impl PriceBook {
    // The charge of an option, and none where there is no row.
    fn option_answer(&self, component: u8, echelon: u8, option: RepairOption) -> Answer
        ensures { result ≡ priced (prices self.now) (OfOption component echelon option) }
    {
        let number = usize::from(component);
        match self.rows.get(number) {
            Some(row) if is_echelon(echelon) => {
                let gross = gross_price(self.rows.as_slice(), number);
                charged(i64::from(option_cents(gross, *row, option)))
            }
            _ => Answer::Barred,
        }
    }

    // The yearly amount of a resource.
    fn resource_answer(&self, resource: u8, echelon: u8) -> Answer
        ensures { result ≡ priced (prices self.now) (OfResource resource echelon) }
    {
        match self.yearly.get(usize::from(resource)) {
            Some(cents) if is_echelon(echelon) => charged(*cents as i64),
            _ => Answer::Barred,
        }
    }
}

impl ChargeBook for PriceBook {
    ghost meaning = { λ b. priced (prices b) };

    ghost limited = { priced_limited };

    fn ask(&self, question: Question) -> Answer {
        match question {
            Question::OfOption {
                component,
                echelon,
                option,
            } => self.option_answer(component, echelon, option),
            Question::OfResource { resource, echelon } => self.resource_answer(resource, echelon),
        }
    }
}
