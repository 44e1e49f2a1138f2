// The arms of a step. Each that can be stuck gives None where it is, and has changed nothing then. What they require was tried as a
// struct's ghost fields beside a &mut to the machine: writes through such a struct get no proof.
ghost use Rattle.std.specs.Prelude.{◌≡◌, ℕ, ◌<◌, ◌%◌, length, Some, slice_get, unwrap_or};
ghost use Rattle.processor.specs.Cpu.{sets, goes, there, stores, calls, computes, through, returns, pushes, pops, shows, reads, asks, word, does, parts};
ghost use Rattle.processor.specs.declared.Event.TheVariants.{Stuck};
ghost use Rattle.processor.specs.Operations.{acts};
ghost use Rattle.machine.specs.Seen.{state_of, room_of, made_of};
ghost use Rattle.machine.specs.Took.{Here, Ready, Took};

use crate::log::Shown;
use crate::machine::Machine;
use processor::{Cpu, Event, Operation, decode};

// Places are counted modulo this many.
const ADDRESSES: u64 = 4294967296;

impl<'a> Machine<'a> {
    // The word at an address, if there is one.
    fn word(&self, a: u64) -> Option<u64>
        ensures { result ≡ slice_get self.now.words.now a }
    {
        self.words.get(a as usize).copied()
    }

    // The address k behind the instruction's own.
    fn there(&self, k: u32) -> u64
        ensures { result ≡ there (state_of self.now) k }
    {
        self.pc.wrapping_add(u64::from(k)) % ADDRESSES
    }

    fn set(&mut self, r: u8, x: u64) -> Event
        requires { Here self.old }
        ensures took { Took self.old (λ c. sets c r x) self.new result }
        ensures room { room_of self.new ≡ room_of self.old }
    {
        self.regs.write(r, x);
        self.pc += 1;
        Event::Continue
    }

    // Goes on at p.
    fn jump(&mut self, p: u64) -> Event
        ensures { Took self.old (λ c. goes c p) self.new result }
    {
        self.pc = p;
        Event::Continue
    }

    fn enter(&mut self, p: u64) -> Event
        requires { Ready self.old }
        ensures { Took self.old (λ c. calls c p) self.new result }
    {
        self.backs.push(self.pc + 1);
        self.pc = p;
        Event::Continue
    }

    fn leave(&mut self) -> Option<Event>
        ensures { Took self.old (λ c. returns c c.backs) self.new (unwrap_or result Stuck) }
    {
        let p = self.backs.pop()?;
        Some(self.jump(p))
    }

    fn pop(&mut self, r: u8) -> Option<Event>
        requires { Here self.old }
        ensures { Took self.old (λ c. pops c r c.pushed) self.new (unwrap_or result Stuck) }
    {
        let x = self.pushed.pop()?;
        Some(self.set(r, x))
    }

    fn push(&mut self, x: u64) -> Event
        requires { Ready self.old }
        ensures { Took self.old (λ c. pushes c x) self.new result }
    {
        self.pushed.push(x);
        self.pc += 1;
        Event::Continue
    }

    fn show(&mut self, x: u64) -> Event
        requires { Ready self.old }
        ensures { Took self.old (λ c. shows c x) self.new result }
    {
        self.log.push(Shown::Number(x));
        self.pc += 1;
        Event::Continue
    }

    // Reads the next number.
    fn read(&mut self, r: u8) -> Event
        requires { Ready self.old }
        ensures { Took self.old (λ c. reads c r) self.new result }
    {
        self.log.push(Shown::Read);
        let x = self.ins.next();
        self.set(r, x)
    }

    fn load(&mut self, r: u8, a: u8, k: u32) -> Option<Event>
        requires { Here self.old }
        ensures { Took self.old (λ c. acts c (Operation.Load r a k)) self.new (unwrap_or result Stuck) }
    {
        let x = self.regs.read(a)?;
        let y = self.word(x.wrapping_add(u64::from(k)))?;
        Some(self.set(r, y))
    }

    fn store(&mut self, a: u8, k: u32, r: u8) -> Option<Event>
        requires { Here self.old }
        ensures { Took self.old (λ c. acts c (Operation.Store a k r)) self.new (unwrap_or result Stuck) }
    {
        let at = self.regs.read(a)?.wrapping_add(u64::from(k));
        let x = self.regs.read(r)?;
        self.word(at)?;
        self.words[at as usize] = x; // get_mut would say nothing of what the words are then
        self.pc += 1;
        Some(Event::Continue)
    }

    // Calls what the slot at an address holds.
    fn through(&mut self, a: u64) -> Option<Event>
        requires { Ready self.old }
        ensures { Took self.old (λ c. through c a) self.new (unwrap_or result Stuck) }
    {
        match self.word(a)? {
            0 => Some(Event::Bind(a)),
            x => Some(self.enter(x)),
        }
    }

    // Goes on, and leaves it to others to act.
    fn ask(&mut self, e: Event) -> Event
        requires { Here self.old }
        ensures { Took self.old (λ c. asks c e) self.new result }
    {
        self.pc += 1;
        e
    }

    // What f makes of registers a and b into register r.
    fn compute<F: FnOnce(u64, u64) -> u64>(&mut self, r: u8, a: u8, b: u8, f: F) -> Option<Event>
        requires here { Here self.old }
        requires callable { F.IsAlwaysCallable f }
        ensures { (z : ℕ) × ((x y : ℕ) → slice_get self.old.regs.values a ≡ Some x → slice_get self.old.regs.values b ≡ Some y → F.post f x y z) × Took self.old (λ c. computes c r a b (λ x y. z)) self.new (unwrap_or result Stuck) }
    {
        let x = self.regs.read(a)?;
        let y = self.regs.read(b)?;
        Some(self.set(r, f(x, y)))
    }

    fn branch(&mut self, r: u8, k: u32) -> Option<Event>
        requires { Here self.old }
        ensures { Took self.old (λ c. acts c (Operation.JumpIfZero r k)) self.new (unwrap_or result Stuck) }
    {
        let p = match self.regs.read(r)? {
            0 => self.there(k),
            _ => self.pc + 1,
        };
        Some(self.jump(p))
    }

    fn open(&mut self, r: u8, k: u32, global: bool) -> Option<Event>
        requires { Here self.old }
        ensures { Took self.old (λ c. acts c (Operation.Open r k global)) self.new (unwrap_or result Stuck) }
    {
        let x = self.word(self.there(k))?;
        Some(self.ask(Event::Open(x, r, global)))
    }

    fn find(&mut self, r: u8, a: u8, k: u32) -> Option<Event>
        requires { Here self.old }
        ensures { Took self.old (λ c. acts c (Operation.Find r a k)) self.new (unwrap_or result Stuck) }
    {
        let x = self.word(self.there(k))?;
        Some(self.ask(Event::Find(r, a, x)))
    }

    // What the instruction does at which the machine is.
    fn execute(&mut self, i: Operation) -> Option<Event>
        requires { Ready self.old }
        ensures { Took self.old (λ c. acts c i) self.new (unwrap_or result Stuck) }
    {
        match i {
            Operation::Set(r, k) => Some(self.set(r, u64::from(k))),
            Operation::Load(r, a, k) => self.load(r, a, k),
            Operation::Store(a, k, r) => self.store(a, k, r),
            Operation::Own(r, k) => Some(self.set(r, self.there(k))),
            Operation::Add(r, a, b) => self.compute(r, a, b, |x, y| x.wrapping_add(y)),
            Operation::Sub(r, a, b) => self.compute(r, a, b, |x, y| x.wrapping_sub(y)),
            Operation::Mul(r, a, b) => self.compute(r, a, b, |x, y| x.wrapping_mul(y)),
            Operation::Less(r, a, b) => self.compute(r, a, b, |x, y| u64::from(x < y)),
            Operation::Same(r, a, b) => self.compute(r, a, b, |x, y| u64::from(x == y)),
            Operation::Move(r, a) => {
                let x = self.regs.read(a)?;
                Some(self.set(r, x))
            }
            Operation::Jump(k) => Some(self.jump(self.there(k))),
            Operation::JumpIfZero(r, k) => self.branch(r, k),
            Operation::Call(k) => self.through(self.there(k)),
            Operation::CallRegister(r) => {
                let p = self.regs.read(r)?;
                Some(self.enter(p))
            }
            Operation::Return => self.leave(),
            Operation::Push(r) => {
                let x = self.regs.read(r)?;
                Some(self.push(x))
            }
            Operation::Pop(r) => self.pop(r),
            Operation::Out(r) => {
                let x = self.regs.read(r)?;
                Some(self.show(x))
            }
            Operation::In(r) => Some(self.read(r)),
            Operation::Open(r, k, global) => self.open(r, k, global),
            Operation::Find(r, a, k) => self.find(r, a, k),
            Operation::Close(r) => Some(self.ask(Event::Close(r))),
            Operation::End(r) => Some(self.ask(Event::End(r))),
        }
    }

    // What the word says at which the machine is.
    #[tactic(auto, using(processor::proofs::Decoding::decodes))]
    pub(crate) fn advance(&mut self) -> Option<Event>
        requires { 0 < room_of self.old }
        ensures { Took self.old (λ c. word c c.pc (λ w. does c (parts w))) self.new (unwrap_or result Stuck) }
    {
        let w = self.word(self.at())?;
        let operation = decode(w)?;
        self.execute(operation)
    }
}
