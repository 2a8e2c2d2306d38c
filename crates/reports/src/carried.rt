// What a refusal carries, put into a place as words: numbers and signs, each after a blank.
ghost use Rattle.std.specs.Prelude.{◌≡◌, ◌+◌, ◌≤◌, [], ◌++◌, codes};
ghost use Rattle.std.proofs.Math.Utf8.{encode};
ghost use Rattle.model.specs.declared.refusal.Refusal.TheVariants.{BookFault};
ghost use Rattle.model.specs.Refusals.{said, asked, cause_number};
ghost use Rattle.reports.specs.Lines.{words};
ghost use Rattle.reports.specs.Places.{HasRoom, Puts};

use crate::place::Writer;
use itoa::{Buffer, Integer};
use model::answer::{Cause, Fault};
use model::question::Question;
use model::refusal::Refusal;

// The number of a fault's cause.
fn cause_number(cause: Cause) -> u8
    ensures { result ≡ cause_number cause }
{
    cause as u8 + 1
}

impl Writer<'_> {
    // Puts a blank and a number: for a byte at most 4 bytes, and for a record's number at most 6.
    // Stays: tried `number` for the digits; how long they are at most is known from `format` alone, and `number` asks it first.
    pub(crate) fn word<I: Integer>(&mut self, number: I)
        requires { HasRoom self.old (1 + I.MAX_STR_LEN) }
        ensures puts { Puts self.old (codes " " ++ I.text number) self.new }
        ensures few { self.new.at ≤ self.old.at + (1 + I.MAX_STR_LEN) }
    {
        self.bytes(b" ");
        self.bytes(Buffer::new().format(number).as_bytes());
    }

    // Puts a blank and a character, at most 5 bytes.
    fn sign(&mut self, sign: char)
        requires { HasRoom self.old 5 }
        ensures puts { Puts self.old (codes " " ++ encode sign) self.new }
        ensures few { self.new.at ≤ self.old.at + 5 }
    {
        self.bytes(b" ");
        self.bytes(sign.encode_utf8(&mut [0; 4]).as_bytes());
    }

    // Puts what a question asks about, at most 13 bytes: the component or the resource, the echelon, and the option's
    // letter, or F for a resource.
    fn asked(&mut self, question: Question)
        requires { HasRoom self.old 13 }
        ensures puts { Puts self.old (words (asked question) []) self.new }
        ensures few { self.new.at ≤ self.old.at + 13 }
    {
        let (subject, echelon, letter) = match question {
            Question::OfOption {
                component,
                echelon,
                option,
            } => (component, echelon, option.letter()),
            Question::OfResource { resource, echelon } => (resource, echelon, 'F'),
        };
        self.word(subject);
        self.word(echelon);
        self.sign(letter);
    }

    // Puts what a fault of a book carries, at most 26 bytes.
    fn fault(&mut self, fault: &Fault)
        requires { HasRoom self.old 26 }
        ensures puts { Puts self.old (words (said (BookFault fault.now)).carried []) self.new }
        ensures few { self.new.at ≤ self.old.at + 26 }
    {
        self.word(cause_number(fault.cause));
        self.sign(fault.letter);
        self.word(fault.height);
        self.asked(fault.question);
    }

    // Puts what a refusal carries, at most 26 bytes.
    pub(crate) fn carried(&mut self, refusal: &Refusal)
        requires { HasRoom self.old 26 }
        ensures puts { Puts self.old (words (said refusal.now).carried []) self.new }
        ensures few { self.new.at ≤ self.old.at + 26 }
    {
        match refusal {
            Refusal::BookFault(fault) => self.fault(fault),
            Refusal::ByteTooLarge { component }
            | Refusal::ReachMismatch { component }
            | Refusal::BeforeStart { component }
            | Refusal::OptionClosed { component }
            | Refusal::ResourceClosed { component } => self.word(*component),
            Refusal::RecordKind { record }
            | Refusal::RecordContent { record }
            | Refusal::ComponentNumber { record } => self.word(*record),
            Refusal::RecordRefused { record, number } => {
                self.word(*record);
                self.word(*number);
            }
            _ => {}
        }
    }
}
