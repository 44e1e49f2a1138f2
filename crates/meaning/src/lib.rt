// What a program means, by places: definitions, and what holds of them. Each function's contract is a theorem.
#![tactic(auto)]

ghost use Rattle.meaning.specs.Shown.{SameShown, SameEnd};
ghost use Rattle.meaning.specs.Always.{ShownGrows, UsedGrows, UsedFits, RunsWhole, CellsLast, GoneStays, OpenRefused};
ghost use Rattle.meaning.specs.Worked.{Worked, WorkedEdges};

// Where room is never short, a program shows the same in any two.
pub fn same_shown() -> u8
    ensures { SameShown }
{
    0
}

// And it comes to the same end.
pub fn same_end() -> u8
    ensures { SameEnd }
{
    0
}

// What was shown stays shown.
pub fn shown_grows() -> u8
    ensures { ShownGrows }
{
    0
}

// Words that were taken stay taken.
pub fn used_grows() -> u8
    ensures { UsedGrows }
{
    0
}

// No more words are taken than there are.
pub fn used_fits() -> u8
    ensures { UsedFits }
{
    0
}

// Always, what is live is bound to what is live, open groups have live members, and no name is live twice.
pub fn runs_whole() -> u8
    ensures { RunsWhole }
{
    0
}

// Names, instructions and slots that were settled never change.
pub fn cells_last() -> u8
    ensures { CellsLast }
{
    0
}

// A module that went doesn't come back.
pub fn gone_stays() -> u8
    ensures { GoneStays }
{
    0
}

// An open that cannot be loaded changes nothing but its register.
pub fn open_refused() -> u8
    ensures { OpenRefused }
{
    0
}

// Worked texts: what names mean, what begins and ends, what stays.
pub fn worked() -> u8
    ensures { Worked }
{
    0
}

// Worked texts: what is easily got wrong.
pub fn worked_edges() -> u8
    ensures { WorkedEdges }
{
    0
}
