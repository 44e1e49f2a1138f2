// Fewer words or marks are lent than there are modules.
#[derive(Clone, Copy, PartialEq, Eq, Debug)]
pub struct TooFewWords;
