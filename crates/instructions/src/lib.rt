// Instructions, by their keyword and operands.
#![tactic(auto)]

ghost use Rattle.std.specs.Prelude.{◌≡◌, Ok, Err, MatchResult};
ghost use Rattle.text.specs.Readers.{words};
ghost use Rattle.library.specs.Lines.{operands, instruction_line, ternary, unary_of};
ghost use Rattle.library.specs.Views.{instruction_of, reg};

mod keywords;

use crate::keywords::opcode;
use library::faults::LineFault;
use library::types::{Arithmetic, Instruction, Opcode, Register, Unary};
use operands::{Global, end, only};
use text::reader::Reader;

fn ternary(op: Arithmetic, a: Register, b: Register, c: Register) -> Instruction
    ensures { instruction_of result ≡ ternary op (reg a) (reg b) (reg c) }
{
    match op {
        Arithmetic::Add => Instruction::Add(a, b, c),
        Arithmetic::Sub => Instruction::Sub(a, b, c),
        Arithmetic::Mul => Instruction::Mul(a, b, c),
        Arithmetic::Less => Instruction::Less(a, b, c),
        Arithmetic::Same => Instruction::Same(a, b, c),
    }
}

fn unary(op: Unary, a: Register) -> Instruction
    ensures { instruction_of result ≡ unary_of op (reg a) }
{
    match op {
        Unary::Callr => Instruction::Callr(a),
        Unary::Push => Instruction::Push(a),
        Unary::Pop => Instruction::Pop(a),
        Unary::Out => Instruction::Out(a),
        Unary::In => Instruction::In(a),
        Unary::Close => Instruction::Close(a),
        Unary::End => Instruction::End(a),
    }
}

// The operands behind a keyword.
fn operands(op: Opcode, line: &mut Reader) -> Result<Instruction, LineFault>
    ensures { MatchResult result (λ i. operands op (words line.old) ≡ Ok (instruction_of i)) (λ e. operands op (words line.old) ≡ Err e) }
{
    match op {
        Opcode::Set => {
            let (a, b) = only(line)?;
            Ok(Instruction::Set(a, b))
        }
        Opcode::Get => {
            let (a, b, c) = only(line)?;
            Ok(Instruction::Get(a, b, c))
        }
        Opcode::Sto => {
            let (a, b, c) = only(line)?;
            Ok(Instruction::Sto(a, b, c))
        }
        Opcode::Own => {
            let (a, b) = only(line)?;
            Ok(Instruction::Own(a, b))
        }
        Opcode::Arithmetic(op) => {
            let (a, b, c) = only(line)?;
            Ok(ternary(op, a, b, c))
        }
        Opcode::Move => {
            let (a, b) = only(line)?;
            Ok(Instruction::Move(a, b))
        }
        Opcode::Jump => Ok(Instruction::Jump(only(line)?)),
        Opcode::If0 => {
            let (a, b) = only(line)?;
            Ok(Instruction::If0(a, b))
        }
        Opcode::Call => Ok(Instruction::Call(only(line)?)),
        Opcode::Ret => {
            end(line)?;
            Ok(Instruction::Ret)
        }
        Opcode::Unary(op) => Ok(unary(op, only(line)?)),
        Opcode::Open => {
            let (a, b, Global(global)) = only(line)?;
            Ok(Instruction::Open(a, b, global))
        }
        Opcode::Find => {
            let (a, b, c) = only(line)?;
            Ok(Instruction::Find(a, b, c))
        }
    }
}

// An instruction, by its keyword and the words behind it.
pub fn instruction(keyword: &[u8], line: &mut Reader) -> Result<Instruction, LineFault>
    ensures { MatchResult result (λ i. instruction_line keyword.now (words line.old) ≡ Ok (instruction_of i)) (λ e. instruction_line keyword.now (words line.old) ≡ Err e) }
{
    let op = opcode(keyword).ok_or(LineFault::UnknownKeyword)?;
    operands(op, line)
}
