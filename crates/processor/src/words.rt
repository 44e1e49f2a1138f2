// Instruction words and what they say.
ghost use Rattle.std.specs.Prelude.{◌≡◌, slice_index};
ghost use Rattle.processor.specs.Operations.{decoded, encoded, pack};

// Registers are numbers up to 255, since any word may be met; a u32 is a number, or a place counted from the instruction's address.
#[derive(Clone, Copy, PartialEq, Eq, Debug)]
pub enum Operation {
    Set(u8, u32),
    Load(u8, u8, u32),
    Store(u8, u32, u8),
    Own(u8, u32),
    Add(u8, u8, u8),
    Sub(u8, u8, u8),
    Mul(u8, u8, u8),
    Less(u8, u8, u8),
    Same(u8, u8, u8),
    Move(u8, u8),
    Jump(u32),
    JumpIfZero(u8, u32),
    Call(u32),
    CallRegister(u8),
    Return,
    Push(u8),
    Pop(u8),
    Out(u8),
    In(u8),
    Open(u8, u32, bool),
    Find(u8, u8, u32),
    Close(u8),
    End(u8),
}

// A word of four bytes, and a number above them.
#[tactic(auto, unfolding(crate::specs::Operations::pack))]
fn word(bytes: [u8; 4], k: u32) -> u64
    ensures { result ≡ pack (record { o = slice_index bytes 0; r = slice_index bytes 1; a = slice_index bytes 2; b = slice_index bytes 3; k = k }) }
{
    u64::from(u32::from_le_bytes(bytes)) + (u64::from(k) << 32)
}

impl Operation {
    // The word of an instruction. Its numbers stand here and in decode, and nowhere else: names for them would each be said thrice.
    pub fn encode(self) -> u64
        ensures { result ≡ encoded self }
    {
        match self {
            Operation::Set(r, k) => word([1, r, 0, 0], k),
            Operation::Load(r, a, k) => word([2, r, a, 0], k),
            Operation::Store(a, k, r) => word([3, r, a, 0], k),
            Operation::Own(r, k) => word([4, r, 0, 0], k),
            Operation::Add(r, a, b) => word([5, r, a, b], 0),
            Operation::Sub(r, a, b) => word([6, r, a, b], 0),
            Operation::Mul(r, a, b) => word([7, r, a, b], 0),
            Operation::Less(r, a, b) => word([8, r, a, b], 0),
            Operation::Same(r, a, b) => word([9, r, a, b], 0),
            Operation::Move(r, a) => word([10, r, a, 0], 0),
            Operation::Jump(k) => word([11, 0, 0, 0], k),
            Operation::JumpIfZero(r, k) => word([12, r, 0, 0], k),
            Operation::Call(k) => word([13, 0, 0, 0], k),
            Operation::CallRegister(r) => word([14, r, 0, 0], 0),
            Operation::Return => word([15, 0, 0, 0], 0),
            Operation::Push(r) => word([16, r, 0, 0], 0),
            Operation::Pop(r) => word([17, r, 0, 0], 0),
            Operation::Out(r) => word([18, r, 0, 0], 0),
            Operation::In(r) => word([19, r, 0, 0], 0),
            Operation::Open(r, k, global) => word([20, r, u8::from(global), 0], k),
            Operation::Find(r, a, k) => word([21, r, a, 0], k),
            Operation::Close(r) => word([22, r, 0, 0], 0),
            Operation::End(r) => word([23, r, 0, 0], 0),
        }
    }
}

// The instruction that a word is, if it is one: no more is to be said of one that is none, so this is no TryFrom.
pub fn decode(w: u64) -> Option<Operation>
    ensures { result ≡ decoded w }
{
    let [number, r, a, b, ..] = w.to_le_bytes();
    let k = (w >> 32) as u32;
    let i = match number {
        1 => Operation::Set(r, k),
        2 => Operation::Load(r, a, k),
        3 => Operation::Store(a, k, r),
        4 => Operation::Own(r, k),
        5 => Operation::Add(r, a, b),
        6 => Operation::Sub(r, a, b),
        7 => Operation::Mul(r, a, b),
        8 => Operation::Less(r, a, b),
        9 => Operation::Same(r, a, b),
        10 => Operation::Move(r, a),
        11 => Operation::Jump(k),
        12 => Operation::JumpIfZero(r, k),
        13 => Operation::Call(k),
        14 => Operation::CallRegister(r),
        15 => Operation::Return,
        16 => Operation::Push(r),
        17 => Operation::Pop(r),
        18 => Operation::Out(r),
        19 => Operation::In(r),
        20 => Operation::Open(r, k, a == 1),
        21 => Operation::Find(r, a, k),
        22 => Operation::Close(r),
        23 => Operation::End(r),
        _ => return None,
    };
    Some(i)
}
