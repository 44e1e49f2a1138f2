// Instructions that belong together, some steps of them.
use crate::running::after;
use machine::Shown;
use processor::Event;

#[test]
fn stores(rt: HostRuntime) {
    let words = [0, 0x00000003_00_01_05_03, 3, 0, 44, 55]; // sto 1 3 5
    let seen = after(words, [], 1, 1);
    assert_eq!(rt; seen.event, Event::Continue);
    assert_eq!(rt; seen.at, 2);
    assert_eq!(rt; seen.words[4], 5);
    assert_eq!(rt; seen.words[3], 0);
    assert_eq!(rt; seen.words[5], 55);
}

#[test]
fn calls_return(rt: HostRuntime) {
    let words = [0, 0x00000000_00_00_05_0e, 0, 0, 0, 0x00000000_00_00_00_0f]; // callr 5 · ret
    assert_eq!(rt; after(words, [], 1, 1).at, 5);
    let back = after(words, [], 1, 2);
    assert_eq!(rt; back.event, Event::Continue);
    assert_eq!(rt; back.at, 2);
}

#[test]
fn pushed_last_is_popped_first(rt: HostRuntime) {
    // push 5 · push 6 · pop 1 · pop 2
    let words = [
        0,
        0x00000000_00_00_05_10,
        0x00000000_00_00_06_10,
        0x00000000_00_00_01_11,
        0x00000000_00_00_02_11,
    ];
    let seen = after(words, [], 1, 4);
    assert_eq!(rt; seen.event, Event::Continue);
    assert_eq!(rt; seen.regs[1], 6);
    assert_eq!(rt; seen.regs[2], 5);
    assert_eq!(rt; seen.at, 5);
}

#[test]
fn numbers_read_and_shown(rt: HostRuntime) {
    // in 1 · out 1 · in 1 · out 5
    let words = [
        0,
        0x00000000_00_00_01_13,
        0x00000000_00_00_01_12,
        0x00000000_00_00_01_13,
        0x00000000_00_00_05_12,
    ];
    let read = after(words, [70, 80], 1, 1);
    assert_eq!(rt; read.regs[1], 70);
    assert_eq!(rt; read.shown, Some(Shown::Read));
    assert_eq!(rt; after(words, [70, 80], 1, 2).shown, Some(Shown::Number(70)));
    assert_eq!(rt; after(words, [70, 80], 1, 3).regs[1], 80);
    assert_eq!(rt; after(words, [70], 1, 3).regs[1], 0);
    assert_eq!(rt; after(words, [70], 1, 4).shown, Some(Shown::Number(5)));
}
