// A map that the map check has accepted.
ghost use Rattle.std.specs.Prelude.{◌≡◌, ◌*◌, ◌≤◌, vec_items, vec_len};
ghost use Rattle.boards.specs.Maps.{SidesAllowed, MapFault};
ghost use Rattle.boards.specs.Numbers.{number_of};
ghost use Rattle.boards.specs.Refusals.{Answer};

use crate::maps::{MapKind, check_map};
use crate::refusal::BoardRefusal;

#[derive(Drop)]
pub(crate) struct Map {
    pub(crate) rows: u16,
    pub(crate) columns: u16,
    pub(crate) bytes: Vec<u8>,
    ghost sides: { SidesAllowed rows columns },
    ghost full: { vec_len bytes ≡ rows * columns },
}

impl Map {
    // The map, if the map check accepts it.
    pub(crate) fn checked(
        kind: MapKind,
        rows: u16,
        columns: u16,
        bytes: Vec<u8>,
    ) -> Result<Map, BoardRefusal>
        ensures { Answer number_of (MapFault kind rows columns bytes.items) (λ m. (m.rows ≡ rows) × (m.columns ≡ columns) × (vec_items m.bytes ≡ bytes.items)) result }
    {
        check_map(kind, rows, columns, bytes.as_slice())?;
        Ok(Map {
            rows,
            columns,
            bytes,
        })
    }

    pub(crate) fn points(&self) -> u16
        ensures value { result ≡ self.now.rows * self.now.columns }
        ensures bound { (1 ≤ result) × (result ≤ 2048) }
    {
        self.rows * self.columns
    }
}
