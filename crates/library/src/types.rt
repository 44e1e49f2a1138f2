ghost use Rattle.std.specs.Prelude.{◌≡◌, ◌%◌, ◌<◌};
ghost use Rattle.base.specs.Names.{Name};
ghost use Rattle.library.specs.Views.{reg, symbol_of, definition_of, cell_of};

// One of the eight registers.
// No struct with a ghost field: `Cell<&[u8]>` has registers, and an enum that holds a reference and such a struct gets no proof.
#[derive(Clone, Copy, PartialEq, Eq, PartialOrd, Ord, Hash, Debug)]
pub enum Register {
    R0,
    R1,
    R2,
    R3,
    R4,
    R5,
    R6,
    R7,
}

impl Register {
    const ALL: [Register; 8] = [
        Register::R0,
        Register::R1,
        Register::R2,
        Register::R3,
        Register::R4,
        Register::R5,
        Register::R6,
        Register::R7,
    ];

    // The register of a number, modulo 8.
    pub fn wrapping(n: u64) -> Register
        ensures { reg result ≡ n % 8 }
    {
        Self::ALL[(n % 8) as usize]
    }

    pub fn number(self) -> u8
        ensures value { result ≡ reg self }
        ensures bound { result < 8 }
    {
        self as u8
    }
}

// The number of a cell within its library.
#[derive(Clone, Copy, PartialEq, Eq, PartialOrd, Ord, Hash, Debug)]
pub struct CellNo(pub u16);

// The number of a library within its text.
#[derive(Clone, Copy, PartialEq, Eq, PartialOrd, Ord, Hash, Debug)]
pub struct LibraryId(pub usize);

// Instructions with three registers.
#[derive(Clone, Copy, PartialEq, Eq, Debug)]
pub enum Arithmetic {
    Add,
    Sub,
    Mul,
    Less,
    Same,
}

// Instructions with one register.
#[derive(Clone, Copy, PartialEq, Eq, Debug)]
pub enum Unary {
    Callr,
    Push,
    Pop,
    Out,
    In,
    Close,
    End,
}

// An instruction by its keyword alone.
#[derive(Clone, Copy, PartialEq, Eq, Debug)]
pub enum Opcode {
    Set,
    Get,
    Sto,
    Own,
    Arithmetic(Arithmetic),
    Move,
    Jump,
    If0,
    Call,
    Ret,
    Unary(Unary),
    Open,
    Find,
}

// An instruction with its operands, in the order of the text: one variant for each, as in the definition. The processor's operations
// are a type of their own, since they know distances, and no cells.
#[derive(Clone, Copy, PartialEq, Eq, Debug)]
pub enum Instruction {
    Set(Register, u32),
    Get(Register, Register, u32),
    Sto(Register, u32, Register),
    Own(Register, CellNo),
    Add(Register, Register, Register),
    Sub(Register, Register, Register),
    Mul(Register, Register, Register),
    Less(Register, Register, Register),
    Same(Register, Register, Register),
    Move(Register, Register),
    Jump(CellNo),
    If0(Register, CellNo),
    Call(CellNo),
    Callr(Register),
    Ret,
    Push(Register),
    Pop(Register),
    Out(Register),
    In(Register),
    // The last operand: whether the group is global.
    Open(Register, CellNo, bool),
    Find(Register, Register, CellNo),
    Close(Register),
    End(Register),
}

// A name with a version. Names are given by N: bounds in a text, or its bytes.
#[derive(Clone, Copy, PartialEq, Eq, Debug)]
pub struct Symbol<N> {
    pub name: N,
    pub version: N,
}

impl<N> Symbol<N> {
    // With what f gives for its names.
    pub fn map<M, F: Fn(N) -> M + Copy>(self, f: F) -> Symbol<M>
        requires { F.IsAlwaysCallable f }
        ensures { (g : N → Name) (h : M → Name) → ((x : N) (y : M) → F.post f x y → h y ≡ g x) → symbol_of h result ≡ symbol_of g self }
    {
        Symbol {
            name: f(self.name),
            version: f(self.version),
        }
    }
}

// A symbol that a library defines, and where; inner: for that library alone.
#[derive(Clone, Copy, PartialEq, Eq, Debug)]
pub struct Definition<N> {
    pub symbol: Symbol<N>,
    pub cell: CellNo,
    pub inner: bool,
}

impl<N> Definition<N> {
    // With what f gives for its names.
    pub fn map<M, F: Fn(N) -> M + Copy>(self, f: F) -> Definition<M>
        requires { F.IsAlwaysCallable f }
        ensures { (g : N → Name) (h : M → Name) → ((x : N) (y : M) → F.post f x y → h y ≡ g x) → definition_of h result ≡ definition_of g self }
    {
        Definition {
            symbol: self.symbol.map(f),
            cell: self.cell,
            inner: self.inner,
        }
    }
}

// A cell, as its line says it.
#[derive(Clone, Copy, PartialEq, Eq, Debug)]
pub enum Cell<N> {
    Number(u32),
    // The place so many cells behind a definition; whether it must be there.
    Ref(Symbol<N>, u32, bool),
    At(CellNo),
    Slot(Symbol<N>),
    Name(N),
    Code(Instruction),
}

impl<N> Cell<N> {
    // With what f gives for its names.
    pub fn map<M, F: Fn(N) -> M + Copy>(self, f: F) -> Cell<M>
        requires { F.IsAlwaysCallable f }
        ensures { (g : N → Name) (h : M → Name) → ((x : N) (y : M) → F.post f x y → h y ≡ g x) → cell_of h result ≡ cell_of g self }
    {
        match self {
            Cell::Number(n) => Cell::Number(n),
            Cell::Ref(symbol, offset, must) => Cell::Ref(symbol.map(f), offset, must),
            Cell::At(to) => Cell::At(to),
            Cell::Slot(symbol) => Cell::Slot(symbol.map(f)),
            Cell::Name(name) => Cell::Name(f(name)),
            Cell::Code(code) => Cell::Code(code),
        }
    }
}

// What a line says of the library that it stands in.
#[derive(Clone, Copy, PartialEq, Eq, Debug)]
pub enum Item<N> {
    Inward,
    Needs(N),
    Define(Definition<N>),
    Init(CellNo),
    Fini(CellNo),
    Cell(Cell<N>),
}
