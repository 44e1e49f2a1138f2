ghost use Rattle.std.specs.Prelude.{◌≡◌, List, [], ◌∷◌, slice_get};
ghost use Rattle.library.specs.Library.{Library};
ghost use Rattle.lent.specs.Numbers.{numbers};
ghost use Rattle.links.specs.Close as close;
ghost use Rattle.linkage.specs.Tables.{links_of};
ghost use Rattle.closes.specs.Staying.{none_or_one, Stays};
ghost use Rattle.lent.specs.Tables.{column};
ghost use Rattle.closes.specs.Leaving.{needless, gone, IsOrdered};

use lent::once::Once;
use lent::table::Table;
use linkage::tables::{Tables, number};

// The module is gone: it isn't the live one of its library any more.
fn unload_one(tables: &mut Tables, id: usize)
    ensures { (ls : List Library) → links_of ls tables.new ≡ gone (id ∷ []) (links_of ls tables.old) }
{
    let Some(module) = tables.module(id) else {
        return;
    };
    if module.live {
        tables.loaded[module.load.library.0] = 0;
    }
}

// The module in a row is gone, unless it stays.
fn unload_row(tables: &mut Tables, stays: &Once, going: &Table<1>, row: usize)
    ensures { (ls : List Library) → links_of ls tables.new ≡ gone (needless (numbers stays.now) (none_or_one (slice_get (column going.now) row))) (links_of ls tables.old) }
{
    let Some(id) = number(going, row) else {
        return;
    };
    if !stays.contains(id) {
        unload_one(tables, id);
    }
}

// Those of the list that still needn't stay are gone.
pub fn unload(tables: &mut Tables, stays: &Once, going: &Table<1>)
    ensures { (ls : List Library) → Stays (links_of ls tables.old) (numbers stays.now) → IsOrdered (links_of ls tables.old) → links_of ls tables.new ≡ close.unload (column going.now) (links_of ls tables.old) }
{
    for row in 0..going.len {
        unload_row(tables, stays, going, row);
    }
}
