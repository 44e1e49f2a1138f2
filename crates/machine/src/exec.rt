// The machine as a processor.
ghost use Rattle.machine.specs.Seen.{state_of, room_of, made_of};

use crate::machine::Machine;
use processor::{Cpu, Event};

// As many steps as are counted.
const MOST_STEPS: u64 = 9223372036854775807;

impl<'a> Cpu for Machine<'a> {
    ghost state = { state_of };

    ghost room = { room_of };

    ghost made = { made_of };

    fn at(&self) -> u64 {
        self.pc
    }

    fn size(&self) -> usize {
        self.words.len()
    }

    fn peek(&self, a: usize) -> u64 {
        self.words[a]
    }

    fn poke(&mut self, at: usize, x: u64) {
        self.words[at] = x;
    }

    fn reg(&self, r: u8) -> u64 {
        self.regs.values[usize::from(r)]
    }

    fn set_reg(&mut self, r: u8, x: u64) {
        self.regs.write(r, x);
    }

    fn call(&mut self, p: u64, b: u64) {
        self.backs.push(b);
        self.go(p);
    }

    fn go(&mut self, p: u64) {
        self.pc = p;
    }

    fn step(&mut self) -> Event {
        self.made = self.made.saturating_add(1).min(MOST_STEPS);
        if self.pc == 0 {
            return Event::Home;
        }
        self.advance().unwrap_or(Event::Stuck)
    }
}
