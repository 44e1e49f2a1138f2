// Numbers read one after the other.
ghost use Rattle.std.specs.Prelude.{◌≡◌, drop};
ghost use Rattle.processor.specs.Cpu.{first_in};

// The numbers that are left to read.
#[derive(Drop)]
pub struct Input<'a> {
    rest: &'a [u64],
}

impl<'a> Input<'a> {
    pub fn new(rest: &'a [u64]) -> Input<'a>
        ensures { result.rest.now ≡ rest.now }
    {
        Input { rest }
    }

    // The next number, or 0.
    pub fn next(&mut self) -> u64
        ensures first { result ≡ first_in self.old.rest.now }
        ensures rest { self.new.rest.now ≡ drop 1 self.old.rest.now }
    {
        let [x, rest @ ..] = self.rest else {
            return 0;
        };
        self.rest = rest;
        *x
    }
}
