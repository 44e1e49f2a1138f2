// The machine, made, and what can be seen of it besides what every processor shows.
ghost use Rattle.std.specs.Prelude.{◌≡◌, min, map, length};
ghost use Rattle.processor.specs.Cpu.{fresh};
ghost use Rattle.machine.specs.Held.{number};
ghost use Rattle.machine.specs.Seen.{state_of, room_of, made_of};

use crate::input::Input;
use crate::log::{Log, Shown};
use crate::registers::Registers;
use crate::stack::Stack;

// A processor in lent words.
#[derive(Drop)]
pub struct Machine<'a> {
    pub(crate) words: &'a mut [u64],
    pub(crate) regs: Registers,
    pub(crate) pc: u64,
    pub(crate) backs: Stack<'a>,
    pub(crate) pushed: Stack<'a>,
    pub(crate) ins: Input<'a>,
    pub(crate) log: Log<'a>,
    pub(crate) made: u64,
}

impl<'a> Machine<'a> {
    // A fresh machine over memory, rows for the addresses to return to and for the words pushed, input, and a row for what is shown.
    pub fn new(
        words: &'a mut [u64],
        returns: &'a mut [u64],
        pushed: &'a mut [u64],
        input: &'a [u64],
        log: &'a mut [Shown],
    ) -> Machine<'a>
        ensures fresh { state_of result ≡ fresh words.old input.now }
        ensures room { room_of result ≡ min (length returns.old) (min (length pushed.old) (length log.old)) }
        ensures made { made_of result ≡ 0 }
    {
        Machine {
            words,
            regs: Registers { values: [0; 8] },
            pc: 0,
            backs: Stack::new(returns),
            pushed: Stack::new(pushed),
            ins: Input::new(input),
            log: Log::new(log),
            made: 0,
        }
    }

    // What was shown so far, oldest first.
    pub fn shown(&self) -> &[Shown]
        ensures { map number result.now ≡ (state_of self.now).outs }
    {
        self.log.all()
    }

    // How many steps and calls there is room for, whatever they do.
    pub fn room_left(&self) -> usize
        ensures { result ≡ room_of self.now }
    {
        let kept = self.pushed.room_left().min(self.log.room_left());
        self.backs.room_left().min(kept)
    }
}
