// The map check.
ghost use Rattle.std.specs.Prelude.{◌≡◌, ℕ, ◌*◌, ◌<◌, true, false, length, Decides, slice_index};
ghost use Rattle.boards.specs.Maps.{MapFault, SidesAllowed, last_named};
ghost use Rattle.boards.specs.Numbers.{number_of};
ghost use Rattle.boards.specs.Refusals.{Answer};

use crate::refusal::BoardRefusal;

// Which board a map is for.
#[derive(Clone, Copy, PartialEq, Eq, Debug)]
pub enum MapKind {
    FieldMap,
    EscapeMap,
}

// Whether a board is made from a map of these rows, columns and bytes, one for each point, row after row; or else the first
// thing that is wrong with it.
// Sides and bytes are given one by one, as users have them; a `Map` holds them together once they are accepted.
pub fn check_map(kind: MapKind, rows: u16, columns: u16, bytes: &[u8]) -> Result<(), BoardRefusal>
    ensures { Answer number_of (MapFault kind rows columns bytes.now) (λ _. Unit {0}) result }
{
    if !sides_allowed(rows, columns) {
        return Err(BoardRefusal::Sides);
    }
    if bytes.len() != rows as usize * columns as usize {
        return Err(BoardRefusal::Length);
    }
    if bytes.iter().any(|byte| *byte > last_named(kind)) {
        return Err(BoardRefusal::Byte);
    }
    Ok(())
}

fn sides_allowed(rows: u16, columns: u16) -> bool
    ensures { Decides result (SidesAllowed rows columns) }
{
    (1..=64).contains(&rows) && (1..=64).contains(&columns) && rows * columns <= 2048
}

// The highest byte that has a meaning on such a map.
fn last_named(kind: MapKind) -> u8
    ensures { result ≡ last_named kind }
{
    match kind {
        MapKind::FieldMap => 3,
        MapKind::EscapeMap => 1,
    }
}
