// A place that texts are put into, one after another.
ghost use Rattle.std.specs.Prelude.{◌≡◌, ◌≤◌, length};
ghost use Rattle.std.specs.Fmt.{signed_decimal};

use itoa::{Buffer, Integer};

// The place, and the byte where the next text begins.
#[derive(Drop)]
pub(crate) struct Writer<'a> {
    place: &'a mut [u8],
    at: usize,
    ghost within: { at ≤ length place.now },
}

impl<'a> Writer<'a> {
    ghost use Rattle.reports.specs.Places.{Room, Puts};

    // A writer at the front of the place.
    pub(crate) fn new(place: &'a mut [u8]) -> Writer<'a>
        ensures lent { result.place.ghost_name ≡ place.entry.ghost_name }
        ensures place { result.place.now ≡ place.old }
        ensures front { result.at ≡ 0 }
    {
        Writer { place, at: 0 }
    }

    // Where the texts so far end.
    pub(crate) fn end(&self) -> usize
        ensures { result ≡ self.now.at }
    {
        self.at
    }

    // Puts the bytes into the place.
    pub(crate) fn bytes(&mut self, bytes: &[u8])
        requires { Room self.old bytes.now }
        ensures { Puts self.old bytes.now self.new }
    {
        let end = self.at + bytes.len();
        self.place[self.at..end].copy_from_slice(bytes);
        self.at = end;
    }

    // Puts a number into the place in decimal digits, with `-` in front where it is negative.
    pub(crate) fn number<I: Integer>(&mut self, number: I)
        requires { Room self.old (I.text number) }
        ensures { Puts self.old (I.text number) self.new }
    {
        self.bytes(Buffer::new().format(number).as_bytes());
    }

    // Puts a number that may be negative.
    // Stays: the sign by hand, the digits by itoa; as itoa's, its edit was refused, but so was the same edit with a minus (d).
    pub(crate) fn signed(&mut self, number: i64)
        requires { Room self.old (signed_decimal number) }
        ensures { Puts self.old (signed_decimal number) self.new }
    {
        if number >= 0 {
            self.number(number.unsigned_abs());
            return;
        }
        self.bytes(b"-");
        self.number(number.unsigned_abs());
    }
}
