ghost use Rattle.std.specs.Prelude.{◌≡◌};
ghost use Rattle.tables.specs.Steps.{raise};

use text::reader::Span;

// The library that is being read: its name, where its parts begin in the tables, the highest reach of its lines and the first
// line that has it.
#[derive(Clone, Copy)]
pub struct Draft {
    pub name: Span,
    pub inward: bool,
    pub needs: usize,
    pub defs: usize,
    pub inits: usize,
    pub finis: usize,
    pub cells: usize,
    pub top: u64,
    pub line: usize,
}

impl Draft {
    // With a line that reaches so far.
    pub(crate) fn raised(self, line: usize, reach: u64) -> Draft
        ensures { result ≡ raise self line reach }
    {
        if self.top >= reach {
            return self;
        }
        Draft {
            top: reach,
            line,
            ..self
        }
    }
}
