// Of each module its library, the group that loaded it, and its first word.
#[derive(Drop)]
pub struct Modules<'a> {
    pub library: &'a mut [u64],
    pub group: &'a mut [u64],
    pub base: &'a mut [u64],
}

// Of each group its members' rows, from first to before end, and its state: 1 where it is open, and 2 more where it is global.
#[derive(Drop)]
pub struct Groups<'a> {
    pub first: &'a mut [u64],
    pub end: &'a mut [u64],
    pub state: &'a mut [u64],
}

// Modules and groups by columns of any lengths. Loaded has for each library one more than its live module.
#[derive(Drop)]
pub struct Columns<'a> {
    pub modules: Modules<'a>,
    pub groups: Groups<'a>,
    pub loaded: &'a mut [u64],
}

// How many modules and groups count, whatever the columns hold.
#[derive(Clone, Copy, PartialEq, Eq, Debug)]
pub struct Counts {
    pub modules: usize,
    pub groups: usize,
}
