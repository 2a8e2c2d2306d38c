// A file in which eight bytes are changed, and put back when this goes.
ghost use Rattle.std.specs.Prelude.{◌≡◌, ◌+◌, ◌≤◌, length};
ghost use Rattle.std.specs.List.{between};
ghost use Rattle.trials.specs.Changes.{with_bytes};

// The changed bytes begin at byte `at`; `before` is what stood there.
// Stays: tried `at + 8 ≤ length bytes.now` as a ghost field; the check then covers no loan of `changed.bytes` in `trial`.
pub(crate) struct Changed<'a> {
    pub bytes: &'a mut [u8],
    at: usize,
    before: [u8; 8],
}

// Puts bytes into a file, from byte `at` on.
fn put(file: &mut [u8], at: usize, bytes: &[u8])
    requires { at + length bytes.now ≤ length file.old }
    ensures { file.new ≡ with_bytes file.old at bytes.now }
{
    file[at..at + bytes.len()].copy_from_slice(bytes);
}

impl<'a> Changed<'a> {
    // Puts the new bytes there, and keeps what was there.
    pub(crate) fn set(bytes: &'a mut [u8], at: usize, new: [u8; 8]) -> Changed<'a>
        requires { at + 8 ≤ length bytes.old }
        ensures changed { result.bytes.now ≡ with_bytes bytes.old at new }
        ensures lent { result.bytes.ghost_name ≡ bytes.entry.ghost_name }
        ensures place { result.at ≡ at }
        ensures kept { result.before ≡ between at (at + 8) bytes.old }
    {
        let mut before = [0; 8];
        before.copy_from_slice(&bytes[at..at + 8]);
        put(bytes, at, &new);
        Changed { bytes, at, before }
    }
}

impl Drop for Changed<'_> {
    // Puts back what stood there.
    fn drop(self)
        requires { self.at + 8 ≤ length self.bytes.now }
        ensures { self.exit.0.now ≡ with_bytes self.entry.bytes.now self.entry.at self.entry.before }
    {
        let Changed { bytes, at, before } = self;
        put(bytes, at, &before);
    }
}
