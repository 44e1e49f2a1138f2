// Any processor, with notes of what was poked where: for tests.
#![tactic(auto)]

ghost use Rattle.std.specs.Prelude.{◌≡◌, ◌+◌, ◌<◌, ◌≤◌, min, true, [], length};
ghost use Rattle.processor.specs.Cpu.{step, poked, called, gone, with_reg};
ghost use Rattle.noting.specs.Kept.{kept, Noted, Became};

mod notes;

use notes::Notes;
pub use notes::Poke;
use processor::{Cpu, Event};
use std::alloc::Global;

// A processor that also notes each poke, or that it could not for want of memory.
#[derive(Drop)]
pub struct Noting<P> {
    inner: P,
    notes: Notes,
}

impl<P> Noting<P> {
    // Nothing is noted yet.
    pub fn new(heap: Global, inner: P) -> Noting<P>
        ensures same { result.inner ≡ inner }
        ensures empty { kept result.notes ≡ record { pokes = []; complete = true } }
    {
        Noting {
            inner,
            notes: Notes::new(heap),
        }
    }

    // The pokes noted, oldest first.
    pub fn pokes(&self) -> &[Poke]
        ensures { result.now ≡ (kept self.now.notes).pokes }
    {
        self.notes.pokes.as_slice()
    }

    // Whether every poke was noted.
    pub fn is_complete(&self) -> bool
        ensures { result ≡ (kept self.now.notes).complete }
    {
        self.notes.complete
    }
}

impl<P: Cpu> Cpu for Noting<P> {
    ghost state = { λ s. P.Cpu.state s.inner };

    ghost room = { λ s. P.Cpu.room s.inner };

    ghost made = { λ s. P.Cpu.made s.inner };

    fn at(&self) -> u64 {
        self.inner.at()
    }

    fn size(&self) -> usize {
        self.inner.size()
    }

    fn peek(&self, a: usize) -> u64 {
        self.inner.peek(a)
    }

    // Noted; every other call leaves the notes as they are.
    fn poke(&mut self, a: usize, x: u64)
        requires { a < length (P.Cpu.state self.old.inner).words }
        ensures became { Became P.Cpu (λ c. poked c a x) 0 self.old.inner self.new.inner }
        ensures notes { Noted (kept self.old.notes) (record { at = a; word = x }) (kept self.new.notes) }
    {
        self.notes.note(Poke { at: a, word: x });
        self.inner.poke(a, x);
    }

    fn reg(&self, r: u8) -> u64 {
        self.inner.reg(r)
    }

    fn set_reg(&mut self, r: u8, x: u64)
        requires { r < 8 }
        ensures became { Became P.Cpu (λ c. with_reg c r x) 0 self.old.inner self.new.inner }
        ensures notes { kept self.new.notes ≡ kept self.old.notes }
    {
        self.inner.set_reg(r, x);
    }

    fn call(&mut self, p: u64, b: u64)
        requires { 0 < P.Cpu.room self.old.inner }
        ensures became { Became P.Cpu (λ c. called c p b) 1 self.old.inner self.new.inner }
        ensures notes { kept self.new.notes ≡ kept self.old.notes }
    {
        self.inner.call(p, b);
    }

    fn go(&mut self, p: u64)
        ensures became { Became P.Cpu (λ c. gone c p) 0 self.old.inner self.new.inner }
        ensures notes { kept self.new.notes ≡ kept self.old.notes }
    {
        self.inner.go(p);
    }

    fn step(&mut self) -> Event
        requires { 0 < P.Cpu.room self.old.inner }
        ensures counts { P.Cpu.made self.new.inner ≡ min 9223372036854775807 (P.Cpu.made self.old.inner + 1) }
        ensures roomy { P.Cpu.room self.old.inner ≤ P.Cpu.room self.new.inner + 1 }
        ensures becomes { P.Cpu.state self.new.inner ≡ (step (P.Cpu.state self.old.inner)).cpu }
        ensures tells { result ≡ (step (P.Cpu.state self.old.inner)).event }
        ensures notes { kept self.new.notes ≡ kept self.old.notes }
    {
        self.inner.step()
    }
}
