// The echelons that a book speaks of.
ghost use Rattle.std.specs.Prelude.{◌≡◌, ◌-◌, cond};
ghost use Rattle.books.specs.Echelons.{is_echelon};

// Whether the echelon is 1 to 4.
pub(crate) fn is_echelon(echelon: u8) -> bool
    ensures { result ≡ is_echelon echelon }
{
    (1..=4).contains(&echelon)
}

// The index of an echelon, which counts from 0; none where it is not 1 to 4.
pub(crate) fn index_of(echelon: u8) -> Option<usize>
    ensures { result ≡ cond (is_echelon echelon) (Some (echelon - 1)) None }
{
    is_echelon(echelon).then(|| usize::from(echelon - 1))
}
