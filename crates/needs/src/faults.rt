ghost use Rattle.std.specs.Prelude.{◌≡◌};
ghost use Rattle.needs.specs.declared.faults.NotGathered.TheVariants.{Missing};

use library::types::LibraryId;

// A library needs one that isn't in the text: which of its needs that is.
#[derive(Clone, Copy, PartialEq, Eq, Debug)]
pub struct MissingLibrary {
    pub library: LibraryId,
    pub need: usize,
}

// Why a library with all that it needs can't be gathered.
#[derive(Clone, Copy, PartialEq, Eq, Debug)]
pub enum NotGathered {
    // The text has no library of the number that was asked for.
    NoSuchLibrary,
    Missing(MissingLibrary),
    // Fewer words or marks are lent than the text has libraries.
    TooFewWords,
}

impl From<MissingLibrary> for NotGathered {
    ghost from_gives = { λ m r. r ≡ Missing m };

    fn from(missing: MissingLibrary) -> NotGathered {
        NotGathered::Missing(missing)
    }
}
