// How many parts a library has.
#[derive(Clone, Copy, PartialEq, Eq, Debug)]
pub struct Sizes {
    pub needs: usize,
    pub definitions: usize,
    pub initializers: usize,
    pub finalizers: usize,
    pub cells: usize,
}
