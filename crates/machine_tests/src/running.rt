// A small machine run for some steps.
use machine::{Machine, Shown};
use processor::{Cpu, Event};

// What is seen after some steps: the last step's event, where the machine is, its registers, what was shown last, and
// the memory.
#[derive(Clone, Copy, Debug)]
pub struct Seen<const N: usize> {
    pub event: Event,
    pub at: u64,
    pub regs: [u64; 8],
    pub shown: Option<Shown>,
    pub words: [u64; N],
}

// Registers that differ, so that one taken for another shows.
pub const REGS: [u64; 8] = [0, 1, 2, 3, u64::MAX, 5, 6, 7];

fn run(machine: &mut Machine, steps: usize) -> Event {
    let mut event = Event::Continue;
    for _ in 0..steps {
        if machine.room_left() == 0 {
            return event;
        }
        event = machine.step();
    }
    event
}

// Steps made from an address on, with the registers above.
pub fn after<const N: usize, const M: usize>(
    mut words: [u64; N],
    input: [u64; M],
    start: u64,
    steps: usize,
) -> Seen<N> {
    let mut returns = [0u64; 8];
    let mut pushed = [0u64; 8];
    let mut log = [Shown::Read; 8];
    let mut machine = Machine::new(&mut words, &mut returns, &mut pushed, &input, &mut log);
    for (r, x) in REGS.iter().enumerate() {
        machine.set_reg(r as u8, *x);
    }
    machine.go(start);
    let event = run(&mut machine, steps);
    let mut regs = [0; 8];
    for (r, x) in regs.iter_mut().enumerate() {
        *x = machine.reg(r as u8);
    }
    let shown = machine.shown().last().copied();
    let at = machine.at();
    Seen {
        event,
        at,
        regs,
        shown,
        words,
    }
}
