ghost use Rattle.std.specs.Option.{option_map};
ghost use Rattle.std.specs.Prelude.{◌≡◌, ℕ, List, slice_index};
ghost use Rattle.text.specs.Readers.{bytes};
ghost use Rattle.library.specs.Library as parts;
ghost use Rattle.library.specs.Views.{instruction_of, cell_of};
ghost use Rattle.rows.specs.Rows.{instruction_at, plain_at, cell_at};
ghost use Rattle.rows.specs.Writes.{row4, symbol_row, instruction_row, cell_row, Small, SmallInstruction};

use crate::fields::{Field, span, word};
use crate::row::Row;
use library::types::{Cell, Instruction, Symbol};
use text::reader::Span;

// A cell's first word says what it is: 1 to 23 an instruction, 24 to 29 another cell. The numbers stand here alone, in one match
// that writes them and one that reads them; an enum of them would need a third.

fn row(kind: u64, a: u64, b: u64, c: u64) -> [u64; 6]
    ensures { result ≡ row4 kind a b c }
{
    [kind, a, b, c, 0, 0]
}

// By hand, as a definition's row is: an array of four words and more can't be made of an array of four.
fn symbol_row(kind: u64, symbol: Symbol<Span>, last: u64) -> [u64; 6]
    ensures { result ≡ symbol_row kind symbol last }
{
    [
        kind,
        symbol.name.start as u64,
        symbol.name.end as u64,
        symbol.version.start as u64,
        symbol.version.end as u64,
        last,
    ]
}

// The row of an instruction: its number and its operands.
fn instruction_row(code: Instruction) -> [u64; 6]
    ensures row { result ≡ instruction_row (instruction_of code) }
    ensures small { SmallInstruction (instruction_of code) }
{
    match code {
        Instruction::Set(a, b) => row(1, a.word(), b.word(), 0),
        Instruction::Get(a, b, c) => row(2, a.word(), b.word(), c.word()),
        Instruction::Sto(a, b, c) => row(3, a.word(), b.word(), c.word()),
        Instruction::Own(a, b) => row(4, a.word(), b.word(), 0),
        Instruction::Add(a, b, c) => row(5, a.word(), b.word(), c.word()),
        Instruction::Sub(a, b, c) => row(6, a.word(), b.word(), c.word()),
        Instruction::Mul(a, b, c) => row(7, a.word(), b.word(), c.word()),
        Instruction::Less(a, b, c) => row(8, a.word(), b.word(), c.word()),
        Instruction::Same(a, b, c) => row(9, a.word(), b.word(), c.word()),
        Instruction::Move(a, b) => row(10, a.word(), b.word(), 0),
        Instruction::Jump(a) => row(11, a.word(), 0, 0),
        Instruction::If0(a, b) => row(12, a.word(), b.word(), 0),
        Instruction::Call(a) => row(13, a.word(), 0, 0),
        Instruction::Callr(a) => row(14, a.word(), 0, 0),
        Instruction::Ret => row(15, 0, 0, 0),
        Instruction::Push(a) => row(16, a.word(), 0, 0),
        Instruction::Pop(a) => row(17, a.word(), 0, 0),
        Instruction::Out(a) => row(18, a.word(), 0, 0),
        Instruction::In(a) => row(19, a.word(), 0, 0),
        Instruction::Open(a, b, c) => row(20, a.word(), b.word(), u64::from(c)),
        Instruction::Find(a, b, c) => row(21, a.word(), b.word(), c.word()),
        Instruction::Close(a) => row(22, a.word(), 0, 0),
        Instruction::End(a) => row(23, a.word(), 0, 0),
    }
}

fn words_of(cell: Cell<Span>) -> [u64; 6]
    ensures row { result ≡ cell_row cell }
    ensures small { Small cell }
{
    match cell {
        Cell::Number(value) => row(24, value.word(), 0, 0),
        Cell::Ref(symbol, offset, must) => symbol_row(25 + u64::from(must), symbol, offset.word()),
        Cell::At(to) => row(27, to.word(), 0, 0),
        Cell::Slot(symbol) => symbol_row(28, symbol, 0),
        Cell::Name(name) => row(29, name.start as u64, name.end as u64, 0),
        Cell::Code(code) => instruction_row(code),
    }
}

// The instruction of a number and operands.
fn instruction(kind: u64, a: u64, b: u64, c: u64) -> Option<Instruction>
    ensures { option_map instruction_of result ≡ instruction_at kind a b c }
{
    match kind {
        1 => Some(Instruction::Set(Field::of(a), Field::of(b))),
        2 => Some(Instruction::Get(Field::of(a), Field::of(b), Field::of(c))),
        3 => Some(Instruction::Sto(Field::of(a), Field::of(b), Field::of(c))),
        4 => Some(Instruction::Own(Field::of(a), Field::of(b))),
        5 => Some(Instruction::Add(Field::of(a), Field::of(b), Field::of(c))),
        6 => Some(Instruction::Sub(Field::of(a), Field::of(b), Field::of(c))),
        7 => Some(Instruction::Mul(Field::of(a), Field::of(b), Field::of(c))),
        8 => Some(Instruction::Less(Field::of(a), Field::of(b), Field::of(c))),
        9 => Some(Instruction::Same(Field::of(a), Field::of(b), Field::of(c))),
        10 => Some(Instruction::Move(Field::of(a), Field::of(b))),
        11 => Some(Instruction::Jump(Field::of(a))),
        12 => Some(Instruction::If0(Field::of(a), Field::of(b))),
        13 => Some(Instruction::Call(Field::of(a))),
        14 => Some(Instruction::Callr(Field::of(a))),
        15 => Some(Instruction::Ret),
        16 => Some(Instruction::Push(Field::of(a))),
        17 => Some(Instruction::Pop(Field::of(a))),
        18 => Some(Instruction::Out(Field::of(a))),
        19 => Some(Instruction::In(Field::of(a))),
        20 => Some(Instruction::Open(Field::of(a), Field::of(b), c == 1)),
        21 => Some(Instruction::Find(Field::of(a), Field::of(b), Field::of(c))),
        22 => Some(Instruction::Close(Field::of(a))),
        23 => Some(Instruction::End(Field::of(a))),
        _ => None,
    }
}

// The cell of a row that is no instruction's.
fn plain(row: &[u64]) -> Cell<Span>
    ensures { (t : List ℕ) → cell_of (bytes t) result ≡ plain_at t (slice_index row.now 0) (slice_index row.now 1) (slice_index row.now 2) (slice_index row.now 3) (slice_index row.now 4) (slice_index row.now 5) }
{
    let name = span(row, 1);
    let version = span(row, 3);
    let symbol = Symbol { name, version };
    match word(row, 0) {
        24 => Cell::Number(Field::of(word(row, 1))),
        25 => Cell::Ref(symbol, Field::of(word(row, 5)), false),
        26 => Cell::Ref(symbol, Field::of(word(row, 5)), true),
        27 => Cell::At(Field::of(word(row, 1))),
        28 => Cell::Slot(symbol),
        _ => Cell::Name(name),
    }
}

impl Row<6> for Cell<Span> {
    ghost Part = { parts.Cell };

    ghost part = { λ t c. cell_of (bytes t) c };

    ghost at = { cell_at };

    fn encode(self) -> [u64; 6] {
        words_of(self)
    }

    fn decode(row: &[u64]) -> Cell<Span> {
        match instruction(word(row, 0), word(row, 1), word(row, 2), word(row, 3)) {
            Some(code) => Cell::Code(code),
            None => plain(row),
        }
    }
}
