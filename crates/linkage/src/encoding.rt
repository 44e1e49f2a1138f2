ghost use Rattle.std.specs.Prelude.{◌≡◌};
ghost use Rattle.linkage.specs.Rows.{load_at, group_at};
ghost use Rattle.linkage.specs.declared.types.Load as loads;
ghost use Rattle.linkage.specs.declared.types.Group as groups;

use crate::types::{Group, Load};
use library::types::LibraryId;
use rows::fields::word;
use rows::row::Row;

impl Row<3> for Load {
    ghost Part = { loads.Load };

    ghost part = { λ _ l. l };

    ghost at = { λ _ r. load_at r };

    fn encode(self) -> [u64; 3] {
        [self.library.0 as u64, self.group as u64, self.base as u64]
    }

    fn decode(row: &[u64]) -> Load {
        Load {
            library: LibraryId(word(row, 0) as usize),
            group: word(row, 1) as usize,
            base: word(row, 2) as usize,
        }
    }
}

// The last word says its state: 1 where it is open, and 2 more where it is global. One word, so that a group takes no more room.
impl Row<3> for Group {
    ghost Part = { groups.Group };

    ghost part = { λ _ g. g };

    ghost at = { λ _ r. group_at r };

    fn encode(self) -> [u64; 3] {
        let state = u64::from(self.opened) + 2 * u64::from(self.global);
        [self.first as u64, self.end as u64, state]
    }

    fn decode(row: &[u64]) -> Group {
        let state = word(row, 2);
        Group {
            first: word(row, 0) as usize,
            end: word(row, 1) as usize,
            opened: state % 2 == 1,
            global: state > 1,
        }
    }
}
