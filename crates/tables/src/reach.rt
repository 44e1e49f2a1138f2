ghost use Rattle.std.specs.Prelude.{◌≡◌, ℕ, suc, List};
ghost use Rattle.text.specs.Readers.{bytes};
ghost use Rattle.library.specs.Text.{reach, cell_reach, item_reach};
ghost use Rattle.library.specs.Views.{cell_no, instruction_of, cell_of};
ghost use Rattle.lines.specs.Items.{item_of};

use library::types::{Cell, CellNo, Instruction, Item};
use text::reader::Span;

fn above(cell: CellNo) -> u64
    ensures { result ≡ suc (cell_no cell) }
{
    u64::from(cell.0) + 1
}

fn instruction_reach(code: Instruction) -> u64
    ensures { result ≡ reach (instruction_of code) }
{
    match code {
        Instruction::Own(_, k) | Instruction::Jump(k) | Instruction::If0(_, k) => above(k),
        Instruction::Call(k) | Instruction::Open(_, k, _) | Instruction::Find(_, _, k) => above(k),
        Instruction::Set(_, _) | Instruction::Get(_, _, _) | Instruction::Sto(_, _, _) => 0,
        Instruction::Add(_, _, _) | Instruction::Sub(_, _, _) | Instruction::Mul(_, _, _) => 0,
        Instruction::Less(_, _, _) | Instruction::Same(_, _, _) | Instruction::Move(_, _) => 0,
        Instruction::Callr(_) | Instruction::Ret | Instruction::Push(_) | Instruction::Pop(_) => 0,
        Instruction::Out(_) | Instruction::In(_) | Instruction::Close(_) | Instruction::End(_) => 0,
    }
}

fn cell_reach(cell: Cell<Span>) -> u64
    ensures { (t : List ℕ) → result ≡ cell_reach (cell_of (bytes t) cell) }
{
    match cell {
        Cell::At(k) => above(k),
        Cell::Code(code) => instruction_reach(code),
        Cell::Number(_) | Cell::Ref(_, _, _) | Cell::Slot(_) | Cell::Name(_) => 0,
    }
}

// One more than the cell of its library that a line names; 0 where it names none: so the greatest of all lines is one number, as in
// the definition.
pub(crate) fn item_reach(item: Item<Span>) -> u64
    ensures { (t : List ℕ) → result ≡ item_reach (item_of (bytes t) item) }
{
    match item {
        Item::Define(definition) => above(definition.cell),
        Item::Init(k) | Item::Fini(k) => above(k),
        Item::Cell(cell) => cell_reach(cell),
        Item::Inward | Item::Needs(_) => 0,
    }
}
