// A processor that knows nothing of libraries: what its steps come to, the trait by which others have it, and its instruction words.
#![tactic(auto)]

ghost use Rattle.std.specs.Prelude.{◌≡◌, ℕ, ◌+◌, ◌<◌, ◌≤◌, min, length, slice_index};
ghost use Rattle.processor.specs.Cpu.{Processor, step, poked, called, gone, with_reg};

mod laws;
mod memory;
mod words;

pub use laws::{decodes, encodes, keeps_size, lies, shows_more};
pub use memory::place;
pub use words::{Operation, decode};

// What a step of the processor comes to. Bind has the address of a slot that is 0: once it is bound, the step is made again. The
// others that ask have made their step: Open with the name's word, the register for the group, and whether the group is global;
// Find with the register, the group's register and the name's word; Close and End with a register.
#[derive(Clone, Copy, PartialEq, Eq, Debug)]
pub enum Event {
    Continue,
    Home,
    Stuck,
    Bind(u64),
    Open(u64, u8, bool),
    Find(u8, u8, u64),
    Close(u8),
    End(u8),
}

// A processor. Whoever has it by this trait alone can't show anything but by its steps.
pub trait Cpu {
    ghost state: { Self → Processor };

    // So many calls and steps can still be made: each may keep an address to return to, a word pushed, or what was shown.
    ghost room: { Self → ℕ };

    // So many steps were made.
    ghost made: { Self → ℕ };

    // The address of the next instruction.
    fn at(&self) -> u64
        ensures { result ≡ (state self.now).pc };

    // How many words there are.
    fn size(&self) -> usize
        ensures { result ≡ length (state self.now).words };

    fn peek(&self, a: usize) -> u64
        requires { (a < 4294967296) × (a < length (state self.now).words) }
        ensures { result ≡ slice_index (state self.now).words a };

    fn poke(&mut self, a: usize, x: u64)
        requires { a < length (state self.old).words }
        ensures counts { made self.new ≡ made self.old }
        ensures roomy { room self.old ≤ room self.new }
        ensures becomes { state self.new ≡ poked (state self.old) a x };

    fn reg(&self, r: u8) -> u64
        requires { r < 8 }
        ensures { result ≡ slice_index (state self.now).regs r };

    fn set_reg(&mut self, r: u8, x: u64)
        requires { r < 8 }
        ensures counts { made self.new ≡ made self.old }
        ensures roomy { room self.old ≤ room self.new }
        ensures becomes { state self.new ≡ with_reg (state self.old) r x };

    // Goes on at p, and will return to b, or, where b is 0, home.
    fn call(&mut self, p: u64, b: u64)
        requires { 0 < room self.old }
        ensures counts { made self.new ≡ made self.old }
        ensures roomy { room self.old ≤ room self.new + 1 }
        ensures becomes { state self.new ≡ called (state self.old) p b };

    // Goes on at p.
    fn go(&mut self, p: u64)
        ensures counts { made self.new ≡ made self.old }
        ensures roomy { room self.old ≤ room self.new }
        ensures becomes { state self.new ≡ gone (state self.old) p };

    fn step(&mut self) -> Event
        requires { 0 < room self.old }
        ensures counts { made self.new ≡ min 9223372036854775807 (made self.old + 1) }
        ensures roomy { room self.old ≤ room self.new + 1 }
        ensures becomes { state self.new ≡ (step (state self.old)).cpu }
        ensures tells { result ≡ (step (state self.old)).event };
}
