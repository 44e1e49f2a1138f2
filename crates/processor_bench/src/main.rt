// Two loops run on the machine, for so many rounds each: the first argument's rounds of arithmetic, the second's of calls.
#![tactic(auto)]

ghost use Rattle.std.specs.Prelude.{◌≤◌};

mod programs;

use anyhow::Context;
use machine::{Machine, Shown};
use processor::{Cpu, Event};
use programs::{ARITHMETIC, CALLS};
use std::alloc::{AllocError, Global};
use std::env;

// Steps between two tests of whether there is room for as many.
const BATCH: usize = 1000;

const USAGE: &str = "rounds of arithmetic, then of calls";

// Makes so many steps, or stops at the first that doesn't go on. Events are no errors, so no `?` hands them up.
fn batch<P: Cpu>(cpu: &mut P) -> Event
    requires { 1000 ≤ P.room cpu.old }
{
    for made in 0..BATCH {
        match cpu.step() {
            Event::Continue => {}
            other => return other,
        }
    }
    Event::Continue
}

// Makes so many batches of steps, while there is room for each, or stops at the first step that doesn't go on.
fn spin(machine: &mut Machine, batches: u64) -> Event {
    for _ in 0..batches {
        if machine.room_left() < BATCH {
            break;
        }
        match batch(machine) {
            Event::Continue => {}
            other => return other,
        }
    }
    Event::Continue
}

// The number that a program shows last, once it is home.
fn shown_by(heap: Global, program: &[u64], rounds: u64) -> Result<Option<u64>, AllocError> {
    let mut words = program.to_vec(heap)?;
    let mut returns = vec![in heap; 0u64; 2000]?;
    let mut pushed = vec![in heap; 0u64; 2000]?;
    let mut log = vec![in heap; Shown::Read; 2000]?;
    let input = [rounds];
    let mut machine = Machine::new(
        words.as_mut_slice(),
        returns.as_mut_slice(),
        pushed.as_mut_slice(),
        &input,
        log.as_mut_slice(),
    );
    if machine.room_left() == 0 {
        return Ok(None);
    }
    machine.call(1, 0);
    if spin(&mut machine, rounds) != Event::Home {
        return Ok(None);
    }
    match machine.shown() {
        [.., Shown::Number(x)] => Ok(Some(*x)),
        _ => Ok(None),
    }
}

fn report(rt: &HostRuntime, name: &str, program: &[u64], rounds: u64) -> anyhow::Result<()> {
    if rounds > 0 {
        let shown = shown_by(rt.alloc(), program, rounds)?.context("not home")?;
        println!(rt; "{name} {rounds}: {shown}")?;
    }
    Ok(())
}

fn run(rt: &HostRuntime) -> anyhow::Result<()> {
    let mut args = env::args(rt)?;
    let _ = args.next();
    let arithmetic = args.next().context(USAGE)?;
    let calls = args.next().context(USAGE)?;
    report(rt, "arithmetic", &ARITHMETIC, arithmetic.parse::<u64>()?)?;
    report(rt, "calls", &CALLS, calls.parse::<u64>()?)
}

fn main(rt: HostRuntime) -> anyhow::Result<()> {
    run(&rt)
}
