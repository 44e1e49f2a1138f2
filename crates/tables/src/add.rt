ghost use Rattle.std.specs.Prelude.{◌≡◌, ℕ, ◌+◌, ◌*◌, ◌<◌, ◌≤◌, List, [], ◌∷◌, ◌++◌, map, length};
ghost use Rattle.lent.specs.Tables.{rows_in};

use lent::table::Table;
use rows::row::Row;

// One part more, for which there is room.
pub(crate) fn add<R: Row<W>, const W: usize>(table: &mut Table<W>, part: R)
    requires some { 0 < W }
    requires room { W * table.old.len + W ≤ length table.old.words.now }
    ensures parts { (t : List ℕ) → map (R.at t) (rows_in W table.new) ≡ map (R.at t) (rows_in W table.old) ++ R.part t part ∷ [] }
    ensures len { table.new.len ≡ table.old.len + 1 }
    ensures size { length table.new.words.now ≡ length table.old.words.now }
{
    table.push(&part.encode()).unwrap();
}
