// The lines of a report, put into a place.
ghost use Rattle.std.specs.Prelude.{◌≡◌, ◌-◌, ◌*◌, ◌≤◌, ◌++◌, replicate, codes};
ghost use Rattle.planning.specs.Decisions.{decided};
ghost use Rattle.reports.specs.Lines.{choice_letter, decision_text, component_line, total_line};
ghost use Rattle.reports.specs.Places.{Room, Puts};

use crate::place::Writer;
use planning::decision::decision;

// The letter of the option that a byte ends in, by its number.
// Stays: (a) the pair of echelon and option number is a named form, so the option comes here as a number.
fn choice_letter(option: u8) -> u8
    ensures { result ≡ choice_letter option }
{
    if option == 0 { b'D' } else { b'R' }
}

impl Writer<'_> {
    // Puts what a byte decides, and the end of the line.
    fn decision(&mut self, byte: u8)
        requires { Room self.old (decision_text (decided byte) (codes "\n")) }
        ensures { Puts self.old (decision_text (decided byte) (codes "\n")) self.new }
    {
        match decision(byte) {
            None => self.bytes(b"-\n"),
            Some((echelon, option)) => {
                self.bytes(&[choice_letter(option)]);
                self.number(echelon);
                self.bytes(b"\n");
            }
        }
    }

    // Puts the line of a component: two blanks for each indenture level above 1, its number, and what its byte decides.
    pub(crate) fn line(&mut self, level: u8, number: u8, byte: u8)
        requires level_from { 1 ≤ level }
        requires level_to { level ≤ 5 }
        requires room { Room self.old (replicate (2 * (level - 1)) 32 ++ component_line number byte) }
        ensures { Puts self.old (replicate (2 * (level - 1)) 32 ++ component_line number byte) self.new }
    {
        let blanks = [b' '; 8];
        let indent = 2 * (level as usize - 1);
        self.bytes(&blanks[..indent]);
        self.number(number);
        self.bytes(b" ");
        self.decision(byte);
    }

    // Puts the line of the total.
    pub(crate) fn total(&mut self, cents: i64)
        requires { Room self.old (total_line cents) }
        ensures { Puts self.old (total_line cents) self.new }
    {
        self.bytes(b"total ");
        self.signed(cents);
        self.bytes(b"\n");
    }
}
