use library::types::LibraryId;

// A cell of a module.
#[derive(Clone, Copy, PartialEq, Eq, Debug)]
pub struct Place {
    pub module: usize,
    pub cell: usize,
}

// A library as it was loaded: the group that loaded it, and its first word.
#[derive(Clone, Copy, PartialEq, Eq, Debug)]
pub struct Load {
    pub library: LibraryId,
    pub group: usize,
    pub base: usize,
}

// A library that was loaded, still there or gone.
#[derive(Clone, Copy, PartialEq, Eq, Debug)]
pub struct Module {
    pub load: Load,
    pub live: bool,
}

// Libraries that were opened together: the rows of its members, from first to before end.
#[derive(Clone, Copy, PartialEq, Eq, Debug)]
pub struct Group {
    pub first: usize,
    pub end: usize,
    pub opened: bool,
    pub global: bool,
}
