// Each instruction from its word, one step of it.
use crate::running::{REGS, after};
use processor::Event;
use std::test::Fail;

// A word at address 1, before the words 3, 0, 44 and 55: what the step tells, where the machine is then, and which register has which
// value; no other register changes.
#[derive(Clone, Copy, Debug)]
struct Case {
    word: u64,
    event: Event,
    at: u64,
    register: usize,
    value: u64,
}

const fn goes(word: u64, at: u64, register: usize, value: u64) -> Case {
    Case {
        word,
        event: Event::Continue,
        at,
        register,
        value,
    }
}

const fn tells(word: u64, event: Event, at: u64) -> Case {
    Case {
        word,
        event,
        at,
        register: 0,
        value: 0,
    }
}

fn all_hold(cases: &[Case]) -> Result<(), Fail> {
    for case in cases {
        let words = [0, case.word, 3, 0, 44, 55];
        let seen = after(words, [], 1, 1);
        let mut regs = REGS;
        if let Some(value) = regs.get_mut(case.register) {
            *value = case.value;
        }
        if seen.event != case.event || seen.at != case.at || seen.regs != regs {
            return Err(Fail::new(format_args!("{seen:?}, where {case:?} was wanted")));
        }
    }
    Ok(())
}

#[test]
fn values() -> Result<(), Fail> {
    all_hold(&[
        goes(0xfffffffe_00_00_02_01, 2, 2, 0xfffffffe), // set 2
        goes(0x00000002_00_02_06_02, 2, 6, 44), // get 6 2 2
        goes(0x00000004_00_00_02_04, 2, 2, 5), // own 2, 4 further
        goes(0x00000000_00_05_02_0a, 2, 2, 5), // move 2 5
    ])
}

#[test]
fn arithmetic() -> Result<(), Fail> {
    all_hold(&[
        goes(0x00000000_03_05_02_05, 2, 2, 8), // add 2 5 3
        goes(0x00000000_03_05_02_06, 2, 2, 2), // sub 2 5 3
        goes(0x00000000_03_05_02_07, 2, 2, 15), // mul 2 5 3
        goes(0x00000000_05_03_02_08, 2, 2, 1), // less 2 3 5
        goes(0x00000000_03_05_02_08, 2, 2, 0), // less 2 5 3
        goes(0x00000000_05_05_02_08, 2, 2, 0), // less 2 5 5
        goes(0x00000000_05_05_02_09, 2, 2, 1), // same 2 5 5
        goes(0x00000000_03_05_02_09, 2, 2, 0), // same 2 5 3
    ])
}

#[test]
fn wraps() -> Result<(), Fail> {
    all_hold(&[
        goes(0x00000000_02_04_02_05, 2, 2, 1), // add 2 4 2: the greatest word and 2
        goes(0x00000000_03_02_02_06, 2, 2, u64::MAX), // sub 2 2 3
        goes(0x00000000_04_04_02_07, 2, 2, 1), // mul 2 4 4
        goes(0x00000003_00_04_02_02, 2, 2, 3), // get 2 4 3: 3 behind the greatest address
    ])
}

#[test]
fn jumps() -> Result<(), Fail> {
    all_hold(&[
        goes(0x00000003_00_00_00_0b, 4, 0, 0), // jump, 3 further
        goes(0xffffffff_00_00_00_0b, 0, 0, 0), // jump, 1 back
        goes(0xfffffffe_00_00_02_04, 2, 2, 0xffffffff), // own 2, 2 back: across 0
        goes(0x00000003_00_00_00_0c, 4, 0, 0), // if0 0
        goes(0x00000003_00_00_01_0c, 2, 0, 0), // if0 1
        goes(0x00000000_00_00_05_0e, 5, 0, 0), // callr 5
    ])
}

#[test]
fn slots() -> Result<(), Fail> {
    all_hold(&[
        goes(0x00000001_00_00_00_0d, 3, 0, 0), // call through a slot that holds 3
        tells(0x00000002_00_00_00_0d, Event::Bind(3), 1), // through a slot that is 0
        tells(0x00000005_00_00_00_0d, Event::Stuck, 1), // through one behind the memory
    ])
}

#[test]
fn asks() -> Result<(), Fail> {
    all_hold(&[
        tells(0x00000003_00_01_02_14, Event::Open(44, 2, true), 2), // open 2, for all
        tells(0x00000003_00_00_02_14, Event::Open(44, 2, false), 2), // open 2, inner
        tells(0x00000004_00_03_02_15, Event::Find(2, 3, 55), 2), // find 2 3
        tells(0x00000000_00_00_02_16, Event::Close(2), 2), // close 2
        tells(0x00000000_00_00_02_17, Event::End(2), 2), // end 2
        tells(0x00000005_00_00_02_14, Event::Stuck, 1), // open, by a name behind the memory
        tells(0x00000005_00_03_02_15, Event::Stuck, 1), // find, the same
    ])
}

#[test]
fn registers_that_are_not_there() -> Result<(), Fail> {
    all_hold(&[
        goes(0x00000007_00_00_08_01, 2, 0, 0), // set 8 takes nothing
        goes(0x00000007_00_00_ff_01, 2, 0, 0), // set 255
        tells(0x00000000_00_08_02_0a, Event::Stuck, 1), // move 2 8
        tells(0x00000000_ff_01_02_05, Event::Stuck, 1), // add 2 1 255
        tells(0x00000000_00_08_02_02, Event::Stuck, 1), // get 2 8 0
        tells(0x00000000_00_01_ff_03, Event::Stuck, 1), // sto 1 0 255
        tells(0x00000000_00_00_08_0c, Event::Stuck, 1), // if0 8
        tells(0x00000000_00_00_08_0e, Event::Stuck, 1), // callr 8
        tells(0x00000000_00_00_08_10, Event::Stuck, 1), // push 8
        tells(0x00000000_00_00_08_12, Event::Stuck, 1), // out 8
    ])
}

#[test]
fn no_instructions() -> Result<(), Fail> {
    all_hold(&[
        tells(0, Event::Stuck, 1),
        tells(0x00000000_00_00_00_18, Event::Stuck, 1),
        tells(u64::MAX, Event::Stuck, 1),
        tells(0x00000000_00_00_00_0f, Event::Stuck, 1), // ret, with nothing to return to
        tells(0x00000000_00_00_02_11, Event::Stuck, 1), // pop 2, with nothing pushed
    ])
}
