// The ends of memory, of room, and notes of pokes.
use crate::running::after;
use machine::{Machine, Shown};
use noting::{Noting, Poke};
use processor::{Cpu, Event, place};

#[test]
fn one_past_the_memory(rt: HostRuntime) {
    let words = [0, 0x00000002_00_02_06_02, 0x00000001_00_03_06_03, 9]; // get 6 2 2 · sto 3 1 6
    assert_eq!(rt; after(words, [], 1, 1).event, Event::Stuck);
    assert_eq!(rt; after(words, [], 2, 1).event, Event::Stuck);
    let past = after(words, [], 4, 1);
    assert_eq!(rt; past.event, Event::Stuck);
    assert_eq!(rt; past.at, 4);
}

#[test]
fn no_memory(rt: HostRuntime) {
    assert_eq!(rt; after([], [], 0, 1).event, Event::Home);
    assert_eq!(rt; after([], [], 1, 1).event, Event::Stuck);
}

#[test]
fn places_across_the_widest_address(rt: HostRuntime) {
    let words = [0, 0xffffffff_00_00_00_0b, 0xffffffff_00_00_02_04]; // jump, 1 back · own 2, 1 back
    assert_eq!(rt; after(words, [], 1, 2).event, Event::Home);
    assert_eq!(rt; after(words, [], 2, 1).regs[2], 1);
}

#[test]
fn room_is_the_shortest_row(rt: HostRuntime) {
    let mut words = [0, 0x00000000_00_00_00_0b]; // jump, to itself
    let mut returns = [0u64; 3];
    let mut pushed = [0u64; 2];
    let mut log = [Shown::Read; 5];
    let mut machine = Machine::new(&mut words, &mut returns, &mut pushed, &[], &mut log);
    assert_eq!(rt; machine.room_left(), 2);
    assert_eq!(rt; machine.size(), 2);
    machine.call(1, 0);
    machine.call(1, 0);
    assert_eq!(rt; machine.room_left(), 1);
    assert_eq!(rt; machine.step(), Event::Continue);
    assert_eq!(rt; machine.room_left(), 1);
    assert!(rt; machine.shown().is_empty());
}

#[test]
fn pokes_are_noted(rt: HostRuntime) {
    let mut words = [0u64; 6];
    let mut returns = [0u64; 3];
    let mut pushed = [0u64; 3];
    let mut log = [Shown::Read; 3];
    let machine = Machine::new(&mut words, &mut returns, &mut pushed, &[], &mut log);
    let mut noting = Noting::new(rt.alloc(), machine);
    noting.poke(5, 77);
    place(&mut noting, 1, &[8, 9]);
    noting.set_reg(3, 4);
    assert!(rt; noting.is_complete());
    let wanted = [
        Poke { at: 5, word: 77 },
        Poke { at: 1, word: 8 },
        Poke { at: 2, word: 9 },
    ];
    assert_eq!(rt; noting.pokes(), &wanted[..]);
    assert_eq!(rt; noting.peek(2), 9);
    assert_eq!(rt; noting.reg(3), 4);
}
