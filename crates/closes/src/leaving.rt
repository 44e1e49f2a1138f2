ghost use Rattle.std.specs.Prelude.{◌≡◌, ◌≤◌, List, [], ◌∷◌, ◌++◌, length, filter, is_ok, nat_le, slice_get, IfOk, MatchResult};
ghost use Rattle.library.specs.Library.{Library};
ghost use Rattle.lent.specs.Numbers.{numbers};
ghost use Rattle.links.specs.Close as close;
ghost use Rattle.linkage.specs.Tables.{links_of};
ghost use Rattle.closes.specs.Staying.{Stays};
ghost use Rattle.lent.specs.Tables.{column};
ghost use Rattle.closes.specs.Leaving.{goes, leavers, leaver_at};

use lent::once::Once;
use lent::refusals::Full;
use lent::table::Table;
use linkage::tables::{Tables, number};

// Whether a module goes: it is there, and doesn't stay.
pub fn leaves(tables: &Tables, stays: &Once, id: usize) -> bool
    ensures { (ls : List Library) → result ≡ goes (links_of ls tables.now).modules (numbers stays.now) id }
{
    let Some(module) = tables.module(id) else {
        return false;
    };
    module.live && !stays.contains(id)
}

// The module in a row of the order is put behind the others, if it goes.
fn leave(tables: &Tables, stays: &Once, row: usize, left: &mut Table<1>) -> Result<(), Full>
    ensures column { (ls : List Library) → MatchResult result (λ _. column left.new ≡ column left.old ++ leaver_at (links_of ls tables.now) (numbers stays.now) row) (λ _. (length left.old.words.now ≤ left.old.len) × (1 ≤ length (leaver_at (links_of ls tables.now) (numbers stays.now) row))) }
    ensures size { length left.new.words.now ≡ length left.old.words.now }
{
    let Some(id) = number(&tables.order, row) else {
        return Ok(());
    };
    if !leaves(tables, stays, id) {
        return Ok(());
    }
    left.push(&[id as u64])
}

// The modules that go, in the order of initialisation.
pub fn leaving<'w>(
    tables: &Tables,
    stays: &Once,
    words: &'w mut [u64],
) -> Result<Table<'w, 1>, Full>
    ensures room { (ls : List Library) → is_ok result ≡ nat_le (length (leavers (links_of ls tables.now) (numbers stays.now))) (length words.old) }
    ensures leavers { (ls : List Library) → IfOk result (λ t. column t ≡ leavers (links_of ls tables.now) (numbers stays.now)) }
    ensures leaving { (ls : List Library) → Stays (links_of ls tables.now) (numbers stays.now) → IfOk result (λ t. column t ≡ close.leaving (links_of ls tables.now)) }
{
    let mut left = Table::new(words);
    for row in 0..tables.order.len {
        leave(tables, stays, row, &mut left)?;
    }
    Ok(left)
}
