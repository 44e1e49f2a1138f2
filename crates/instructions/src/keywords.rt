ghost use Rattle.std.specs.Prelude.{◌≡◌};
ghost use Rattle.library.specs.Lines.{opcode_of};

use library::types::{Arithmetic, Opcode, Unary};

// The instruction whose keyword a word is.
pub fn opcode(keyword: &[u8]) -> Option<Opcode>
    ensures { result ≡ opcode_of keyword.now }
{
    match keyword {
        b"set" => Some(Opcode::Set),
        b"get" => Some(Opcode::Get),
        b"sto" => Some(Opcode::Sto),
        b"own" => Some(Opcode::Own),
        b"add" => Some(Opcode::Arithmetic(Arithmetic::Add)),
        b"sub" => Some(Opcode::Arithmetic(Arithmetic::Sub)),
        b"mul" => Some(Opcode::Arithmetic(Arithmetic::Mul)),
        b"less" => Some(Opcode::Arithmetic(Arithmetic::Less)),
        b"same" => Some(Opcode::Arithmetic(Arithmetic::Same)),
        b"move" => Some(Opcode::Move),
        b"jump" => Some(Opcode::Jump),
        b"if0" => Some(Opcode::If0),
        b"call" => Some(Opcode::Call),
        b"callr" => Some(Opcode::Unary(Unary::Callr)),
        b"ret" => Some(Opcode::Ret),
        b"push" => Some(Opcode::Unary(Unary::Push)),
        b"pop" => Some(Opcode::Unary(Unary::Pop)),
        b"out" => Some(Opcode::Unary(Unary::Out)),
        b"in" => Some(Opcode::Unary(Unary::In)),
        b"open" => Some(Opcode::Open),
        b"find" => Some(Opcode::Find),
        b"close" => Some(Opcode::Unary(Unary::Close)),
        b"end" => Some(Opcode::Unary(Unary::End)),
        _ => None,
    }
}
