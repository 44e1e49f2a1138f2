// Words laid down in a processor's memory.
ghost use Rattle.std.specs.Prelude.{◌≡◌, ◌+◌, ◌<◌, ◌≤◌, length};
ghost use Rattle.processor.specs.Laid.{laid, with_words};

use crate::Cpu;

// Lays words down, one behind the other.
pub fn place<P: Cpu>(cpu: &mut P, base: usize, image: &[u64])
    requires { (base + length image.now ≤ length (P.state cpu.old).words) × (length (P.state cpu.old).words < 4294967296) }
    ensures counts { P.made cpu.new ≡ P.made cpu.old }
    ensures roomy { P.room cpu.old ≤ P.room cpu.new }
    ensures becomes { P.state cpu.new ≡ with_words (P.state cpu.old) (laid (P.state cpu.old).words base image.now) }
{
    for (i, x) in image.iter().enumerate() {
        cpu.poke(base + i, *x);
    }
}
