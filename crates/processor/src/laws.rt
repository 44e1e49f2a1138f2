// Theorems of the processor.
ghost use Rattle.processor.specs.Laws.{Decodes, Encodes, Lies, KeepsSize, ShowsMore};

// What was shown stays shown.
#[tactic(auto, using(crate::proofs::Steps::step_shows))]
pub fn shows_more() -> u8
    ensures { ShowsMore }
{
    0
}

// A step changes no memory's size.
#[tactic(auto, using(crate::proofs::Steps::step_sized))]
pub fn keeps_size() -> u8
    ensures { KeepsSize }
{
    0
}

// A word does what the instruction does that it is decoded to.
#[tactic(auto, using(crate::proofs::Decoding::decodes))]
pub fn decodes() -> u8
    ensures { Decodes }
{
    0
}

// An instruction's word is decoded to the instruction that it was made from.
#[tactic(auto, using(crate::proofs::Encoding::encodes))]
pub fn encodes() -> u8
    ensures { Encodes }
{
    0
}

// Words laid down lie from their address on, and all others stay.
pub fn lies() -> u8
    ensures { Lies }
{
    0
}
