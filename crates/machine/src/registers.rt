// Eight registers.
ghost use Rattle.std.specs.Prelude.{◌≡◌, slice_get, slice_set};

#[derive(Drop)]
pub struct Registers {
    pub(crate) values: [u64; 8],
}

impl Registers {
    pub fn read(&self, r: u8) -> Option<u64>
        ensures { result ≡ slice_get self.now.values r }
    {
        self.values.get(usize::from(r)).copied()
    }

    // What is put into a register that there isn't is lost.
    pub fn write(&mut self, r: u8, x: u64)
        ensures { self.new.values ≡ slice_set self.old.values r x }
    {
        let i = usize::from(r);
        // get_mut would say nothing of what the values are then
        if i < self.values.len() {
            self.values[i] = x;
        }
    }
}
