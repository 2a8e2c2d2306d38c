// The change that a trial makes: other cents in one record of a charge.
ghost use Rattle.std.specs.Prelude.{◌≡◌, ◌+◌, ◌*◌, ◌^◌, ◌<◌};
ghost use Rattle.trials.specs.Changes.{is_charge_record, cents_bytes};

use files::record::RECORD_LENGTH;

// Where the cents stand in a record.
const CENTS: usize = 8;

// The record, counted from 0, and the cents that it would have.
#[derive(Clone, Copy, PartialEq, Eq, Debug)]
pub struct Change {
    pub record: usize,
    pub cents: i64,
}

impl Change {
    // Whether the record is a whole T or F of the file.
    pub(crate) fn is_possible(self, file: &[u8]) -> bool
        ensures { result ≡ is_charge_record file.now self.record }
    {
        let (records, _) = file.as_chunks::<RECORD_LENGTH>();
        records
            .get(self.record)
            .is_some_and(|record| matches!(record[0], b'T' | b'F'))
    }

    // Where the cents stand in the file.
    pub(crate) fn start(self) -> usize
        requires { 24 * self.record + 24 < 2 ^ 64 }
        ensures { result ≡ 24 * self.record + 8 }
    {
        RECORD_LENGTH * self.record + CENTS
    }

    // The cents as a record has them.
    pub(crate) fn bytes(self) -> [u8; 8]
        ensures { result ≡ cents_bytes self.cents }
    {
        self.cents.to_be_bytes()
    }
}
