// The marks of pairs of a resource and an echelon in the search: held, free or shut.

// A held pair is posted whether or not it is needed, and a shut one may not be needed.
#[derive(Clone, Copy, PartialEq, Eq, Debug)]
pub(crate) enum Mark {
    Held,
    Free,
    Shut,
}

// A mark for each resource, and there for each echelon.
// Stays: a named form, marks by resource and echelon, which need no memory.
pub(crate) type Marks = [[Mark; 4]; 8];
