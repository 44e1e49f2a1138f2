// The image of a library: the word of each cell, at the address where the library lies.
#![tactic(auto)]

ghost use Rattle.std.specs.Prelude.{◌≡◌};
ghost use Rattle.base.specs.Names.{Name};
ghost use Rattle.library.specs.Views.{cell_no, instruction_of, cell_of};
ghost use Rattle.image.specs.Encode.{encode, operation_at, apart, Decodes};
ghost use Rattle.image.specs.Words.{first_word};

use library::types::{Cell, CellNo, Instruction};
use processor::Operation;

// Where a cell lies, and what it is settled to.
#[derive(Clone, Copy, PartialEq, Eq, Debug)]
pub struct Site {
    // The address of its library's first cell.
    pub base: u64,
    // Its number within its library.
    pub cell: CellNo,
    // Its number among all cells of the text.
    pub counted: u64,
    // Of a ref: the address of the definition that it is settled to.
    pub definition: Option<u64>,
}

// How far it is from the cell me to another, modulo 2^32.
#[tactic(auto, unfolding(crate::specs::Encode::apart))]
fn distance(to: CellNo, me: CellNo) -> u32
    ensures { result ≡ apart (cell_no to) (cell_no me) }
{
    u32::from(to.0).wrapping_sub(u32::from(me.0))
}

// The processor's operation of an instruction at its own cell. Cells are named by how far they are, so it is the same at any address.
fn operation_of(instruction: Instruction, me: CellNo) -> Operation
    ensures { result ≡ operation_at (cell_no me) (instruction_of instruction) }
{
    match instruction {
        Instruction::Set(a, n) => Operation::Set(a.number(), n),
        Instruction::Get(a, b, n) => Operation::Load(a.number(), b.number(), n),
        Instruction::Sto(a, n, b) => Operation::Store(a.number(), n, b.number()),
        Instruction::Own(a, k) => Operation::Own(a.number(), distance(k, me)),
        Instruction::Add(a, b, c) => Operation::Add(a.number(), b.number(), c.number()),
        Instruction::Sub(a, b, c) => Operation::Sub(a.number(), b.number(), c.number()),
        Instruction::Mul(a, b, c) => Operation::Mul(a.number(), b.number(), c.number()),
        Instruction::Less(a, b, c) => Operation::Less(a.number(), b.number(), c.number()),
        Instruction::Same(a, b, c) => Operation::Same(a.number(), b.number(), c.number()),
        Instruction::Move(a, b) => Operation::Move(a.number(), b.number()),
        Instruction::Jump(k) => Operation::Jump(distance(k, me)),
        Instruction::If0(a, k) => Operation::JumpIfZero(a.number(), distance(k, me)),
        Instruction::Call(k) => Operation::Call(distance(k, me)),
        Instruction::Callr(a) => Operation::CallRegister(a.number()),
        Instruction::Ret => Operation::Return,
        Instruction::Push(a) => Operation::Push(a.number()),
        Instruction::Pop(a) => Operation::Pop(a.number()),
        Instruction::Out(a) => Operation::Out(a.number()),
        Instruction::In(a) => Operation::In(a.number()),
        Instruction::Open(a, k, global) => Operation::Open(a.number(), distance(k, me), global),
        Instruction::Find(a, b, k) => Operation::Find(a.number(), b.number(), distance(k, me)),
        Instruction::Close(a) => Operation::Close(a.number()),
        Instruction::End(a) => Operation::End(a.number()),
    }
}

// The word of an instruction at its own cell.
pub fn word_of(instruction: Instruction, me: CellNo) -> u64
    ensures { result ≡ encode (instruction_of instruction) (cell_no me) }
{
    operation_of(instruction, me).encode()
}

// The word that a cell begins with.
pub fn cell_word<N: Drop>(cell: Cell<N>, site: Site) -> u64
    ensures { (f : N → Name) → result ≡ first_word site.definition site.base site.counted (cell_no site.cell) (cell_of f cell) }
{
    match cell {
        Cell::Number(n) => n as u64,
        Cell::Ref(_, n, _) => match site.definition {
            Some(a) => a.wrapping_add(n as u64),
            None => 0,
        },
        Cell::At(k) => site.base.wrapping_add(k.0 as u64),
        Cell::Slot(_) => 0,
        Cell::Name(_) => site.counted,
        Cell::Code(instruction) => word_of(instruction, site.cell),
    }
}

// A word is decoded to the instruction that it was made from.
#[tactic(auto, using(crate::proofs::Decode::decodes))]
pub fn decodes() -> u8
    ensures { Decodes }
{
    0
}
