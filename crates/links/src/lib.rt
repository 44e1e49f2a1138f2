// What is loaded and bound: definitions, and what holds of them. Each function's contract is a theorem.
#![tactic(auto)]

ghost use Rattle.links.specs.Laws.{ClosureOnce, ResolveStable, LoadAppends, RetainedClosed, KeepsLinked, LeavingBySet, RetainsMore};
ghost use Rattle.links.specs.Reach.{ClosureReaches, OrderRight};
ghost use Rattle.links.specs.Resolved.{ResolveFirst};
ghost use Rattle.links.specs.Opens.{LoadOpens};
ghost use Rattle.links.specs.Refused.{LoadRefused};
ghost use Rattle.links.specs.Whole.{StaysLeast, KeepsWhole};
ghost use Rattle.links.specs.Worked.{WorkedNeeds};

// A closure has each library once.
pub fn closure_once() -> u8
    ensures { ClosureOnce }
{
    0
}

// A closure has what a library reaches by needs, no more and no less.
pub fn closure_reaches() -> u8
    ensures { ClosureReaches }
{
    0
}

// Every library of a closure is initialised once, what it needs before it but for rings.
pub fn order_right() -> u8
    ensures { OrderRight }
{
    0
}

// Two graphs of needs, worked through.
pub fn worked_needs() -> u8
    ensures { WorkedNeeds }
{
    0
}

// A symbol means the first definition in a module's scope, of a module that is live.
pub fn resolve_first() -> u8
    ensures { ResolveFirst }
{
    0
}

// What a symbol means doesn't hang on what modules are bound to.
pub fn resolve_stable() -> u8
    ensures { ResolveStable }
{
    0
}

// A load puts new modules behind the old ones and takes words in order.
pub fn load_appends() -> u8
    ensures { LoadAppends }
{
    0
}

// A load opens a group of the closure's libraries, with every ref met that must be.
pub fn load_opens() -> u8
    ensures { LoadOpens }
{
    0
}

// A load is refused only where a library isn't in the text, words are too few, or a ref that must be met means nothing.
pub fn load_refused() -> u8
    ensures { LoadRefused }
{
    0
}

// What is retained is bound to nothing that leaves.
pub fn retained_closed() -> u8
    ensures { RetainedClosed }
{
    0
}

// What stays is the least set that has the open groups' members and all that it is bound to.
pub fn stays_least() -> u8
    ensures { StaysLeast }
{
    0
}

// A closed set of retained modules tells what leaves.
pub fn leaving_by_set() -> u8
    ensures { LeavingBySet }
{
    0
}

// What a retained module is bound to is retained.
pub fn retains_more() -> u8
    ensures { RetainsMore }
{
    0
}

// Numbers of modules that are kept stay those of modules, and each cell has one binding.
pub fn keeps_linked() -> u8
    ensures { KeepsLinked }
{
    0
}

// What is live is bound to what is live, open groups have live members, and no name is live twice: loads, binds, closes and unloads keep it so.
pub fn keeps_whole() -> u8
    ensures { KeepsWhole }
{
    0
}
