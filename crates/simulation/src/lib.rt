// The meaning of a program, by places, and the processor that runs it, by addresses: theorems. Each function's contract is one.
#![tactic(auto)]

ghost use Rattle.simulation.specs.Addresses.{CellsApart, PlaceNot0, BehindAlone, StoresOwn};
ghost use Rattle.simulation.specs.Turns.{Turns};
ghost use Rattle.simulation.specs.Handlers.{StepHeard, RowGoesOn, Begins};
ghost use Rattle.simulation.specs.Outcomes.{StepsCounted, RunAnswers, RunRefuses};

// How a run came to stand: the text isn't one; the program can't begin; it ended, with a number; it called a symbol that means
// nothing; all steps were made; too few words were lent.
pub enum Outcome {
    NoText,
    NoStart,
    Ended(u64),
    Lost,
    Going,
    Few,
}

// No two cells of live modules share an address.
pub fn cells_apart() -> u8
    ensures { CellsApart }
{
    0
}

// The address of a place is never 0.
pub fn place_not_zero() -> u8
    ensures { PlaceNot0 }
{
    0
}

// The address one behind a live module is its own.
pub fn behind_alone() -> u8
    ensures { BehindAlone }
{
    0
}

// A step that has meaning changes no word, or only that of the cell that it writes.
pub fn stores_own() -> u8
    ensures { StoresOwn }
{
    0
}

// Every step of the processor is one of the meaning, or asks the loader for what the meaning says.
pub fn turns() -> u8
    ensures { Turns }
{
    0
}

// What the loader may rely on when a step has told its event.
pub fn step_heard() -> u8
    ensures { StepHeard }
{
    0
}

// What the loader may rely on when it goes on with pending calls.
pub fn row_goes_on() -> u8
    ensures { RowGoesOn }
{
    0
}

// A program that is loaded stands at its first calls.
pub fn begins() -> u8
    ensures { Begins }
{
    0
}

// A step of the meaning takes at most two of the processor.
pub fn steps_counted() -> u8
    ensures { StepsCounted }
{
    0
}

// What a run answers once the program has begun.
pub fn run_answers() -> u8
    ensures { RunAnswers }
{
    0
}

// What a run answers where the program can't begin.
pub fn run_refuses() -> u8
    ensures { RunRefuses }
{
    0
}
