ghost use Rattle.std.specs.Prelude.{◌≡◌, ℕ, Bool, List, Ok, Err, MatchResult};
ghost use Rattle.base.specs.Names.{Name};
ghost use Rattle.text.specs.Readers.{bytes, words};
ghost use Rattle.library.specs.Keywords.{k_all, k_inner, k_must, k_may};
ghost use Rattle.library.specs.Library.{Symbol as Meant};
ghost use Rattle.library.specs.Lines.{Reads, takes, a_register, a_cell, a_number, a_word, either, both, three, a_symbol};
ghost use Rattle.library.specs.Views.{reg, cell_no, symbol_of};

use crate::words::{choice, word};
use library::faults::LineFault;
use library::types::{CellNo, Register, Symbol};
use text::number::number;
use text::reader::{Reader, Span};

// What a line has behind its first word: one word or more that stand for a value.
pub trait Operand: Sized {
    ghost Meaning: { Type 0 };

    // What a value means where it was read of this text.
    ghost meant: { List ℕ → Self → Meaning };

    ghost read: { Reads Meaning };

    fn take(line: &mut Reader) -> Result<Self, LineFault>
        ensures text { line.new.text.now ≡ line.old.text.now }
        ensures takes { MatchResult result (λ x. read (words line.old) ≡ Ok (meant line.old.text.now x, words line.new)) (λ e. read (words line.old) ≡ Err e) };
}

// Three choices of one shape are three types, and so are numbers with other limits: each has its own two words, or its own fault.

// Whether a group is global: `all` or `inner`.
#[derive(Clone, Copy, PartialEq, Eq, Debug)]
pub struct Global(pub bool);

// Whether a definition is for its library alone: `inner` or `all`.
#[derive(Clone, Copy, PartialEq, Eq, Debug)]
pub struct Inner(pub bool);

// Whether a symbol must be there: `must` or `may`.
#[derive(Clone, Copy, PartialEq, Eq, Debug)]
pub struct Must(pub bool);

impl Operand for Span {
    ghost Meaning = { Name };

    ghost meant = { λ t x. bytes t x };

    ghost read = { takes a_word };

    fn take(line: &mut Reader) -> Result<Span, LineFault> {
        word(line)
    }
}

impl Operand for Register {
    ghost Meaning = { ℕ };

    ghost meant = { λ _ x. reg x };

    ghost read = { takes a_register };

    fn take(line: &mut Reader) -> Result<Register, LineFault> {
        let w = word(line)?;
        number(line.part(w), 8)
            .map(Register::wrapping)
            .ok_or(LineFault::NotRegister)
    }
}

impl Operand for CellNo {
    ghost Meaning = { ℕ };

    ghost meant = { λ _ x. cell_no x };

    ghost read = { takes a_cell };

    fn take(line: &mut Reader) -> Result<CellNo, LineFault> {
        let w = word(line)?;
        number(line.part(w), 65536)
            .map(|n| CellNo(n as u16))
            .ok_or(LineFault::NotCell)
    }
}

impl Operand for u32 {
    ghost Meaning = { ℕ };

    ghost meant = { λ _ x. x };

    ghost read = { takes a_number };

    fn take(line: &mut Reader) -> Result<u32, LineFault> {
        let w = word(line)?;
        number(line.part(w), 4294967296)
            .map(|n| n as u32)
            .ok_or(LineFault::NotNumber)
    }
}

impl Operand for Global {
    ghost Meaning = { Bool };

    ghost meant = { λ _ x. x.0 };

    ghost read = { takes (either k_all k_inner) };

    fn take(line: &mut Reader) -> Result<Global, LineFault> {
        Ok(Global(choice(line, b"all", b"inner")?))
    }
}

impl Operand for Inner {
    ghost Meaning = { Bool };

    ghost meant = { λ _ x. x.0 };

    ghost read = { takes (either k_inner k_all) };

    fn take(line: &mut Reader) -> Result<Inner, LineFault> {
        Ok(Inner(choice(line, b"inner", b"all")?))
    }
}

impl Operand for Must {
    ghost Meaning = { Bool };

    ghost meant = { λ _ x. x.0 };

    ghost read = { takes (either k_must k_may) };

    fn take(line: &mut Reader) -> Result<Must, LineFault> {
        Ok(Must(choice(line, b"must", b"may")?))
    }
}

impl<A: Operand + Drop, B: Operand> Operand for (A, B) {
    ghost Meaning = { A.Meaning × B.Meaning };

    ghost meant = { λ t x. (A.meant t x.0, B.meant t x.1) };

    ghost read = { both A.read B.read };

    fn take(line: &mut Reader) -> Result<(A, B), LineFault> {
        let a = A::take(line)?;
        let b = B::take(line)?;
        Ok((a, b))
    }
}

impl<A: Operand + Drop, B: Operand + Drop, C: Operand> Operand for (A, B, C) {
    ghost Meaning = { A.Meaning × B.Meaning × C.Meaning };

    ghost meant = { λ t x. (A.meant t x.0, B.meant t x.1, C.meant t x.2) };

    ghost read = { three A.read B.read C.read };

    fn take(line: &mut Reader) -> Result<(A, B, C), LineFault> {
        let a = A::take(line)?;
        let b = B::take(line)?;
        let c = C::take(line)?;
        Ok((a, b, c))
    }
}

// A name and a version.
impl Operand for Symbol<Span> {
    ghost Meaning = { Meant };

    ghost meant = { λ t x. symbol_of (bytes t) x };

    ghost read = { a_symbol };

    fn take(line: &mut Reader) -> Result<Symbol<Span>, LineFault> {
        let (name, version) = <(Span, Span)>::take(line)?;
        Ok(Symbol { name, version })
    }
}
