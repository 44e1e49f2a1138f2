// No room is left.
#[derive(Clone, Copy, PartialEq, Eq, Debug)]
pub struct Full;

// There is no row of that number.
#[derive(Clone, Copy, PartialEq, Eq, Debug)]
pub struct NoSuchRow;
