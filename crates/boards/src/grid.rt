// The grid of a board over a map: the places of its cells, what stands there, and which ways lead from them.
ghost use Rattle.std.specs.Prelude.{◌≡◌, ℕ, ◌*◌, ◌<◌, List, map, Some, None, MatchOption};
ghost use Rattle.boards.specs.declared.place.Step.{Step};
ghost use Rattle.boards.specs.Meaning.{at};
ghost use Rattle.boards.specs.Places.{place_at};
ghost use Rattle.boards.specs.Grids.{cell_of, OnGrid, beside, grid_places, Few};
ghost use Rattle.boards.specs.Maps.{byte_at, pad_place, passes, way, pad_point, landing_point, somes};

use crate::map::Map;
use crate::place::{Place, Step};
use std::marker::PhantomData;

// What the grids of boards over maps differ in.
pub(crate) trait Grid: Drop {
    ghost LAYERS: { ℕ };

    ghost steps: { List Step };

    const LAYERS: u16;

    // The steps that may lead from a cell, in the order of its outlets.
    fn steps() -> &'static [Step]
        ensures { result.now ≡ steps };

    ghost few: { Few LAYERS steps };
}

// A place on the grid.
#[derive(Drop)]
pub(crate) struct Spot<'a, G: Grid> {
    pub(crate) map: &'a Map,
    pub(crate) place: Place,
    grid: PhantomData<G>,
    ghost on_grid: { OnGrid G.LAYERS map.now.rows map.now.columns place },
}

// What a byte of a map says of its point.
#[derive(Clone, Copy)]
pub(crate) struct Point {
    pub(crate) pad: bool,
    pub(crate) landing: bool,
}

impl<'a, G: Grid> Spot<'a, G> {
    // How many cells the grid has.
    pub(crate) fn cells(map: &Map) -> u16
        ensures { result ≡ G.LAYERS * (map.now.rows * map.now.columns) }
    {
        G::LAYERS * map.points()
    }

    // Where the cell of a number lies; none for a number that is no cell.
    pub(crate) fn of_cell(map: &'a Map, cell: u16) -> Option<Spot<'a, G>>
        ensures { MatchOption result (place_at (grid_places G.LAYERS map.now.rows map.now.columns) cell ≡ None) (λ s. (s.map.now ≡ map.now) × (place_at (grid_places G.LAYERS map.now.rows map.now.columns) cell ≡ Some s.place)) }
    {
        if cell >= Spot::<G>::cells(map) {
            return None;
        }
        let points = map.points();
        Some(Spot {
            map,
            place: Place {
                layer: cell / points + 1,
                row: cell % points / map.columns,
                column: cell % points % map.columns,
            },
            grid: PhantomData,
        })
    }

    // The place, if it is on the grid.
    pub(crate) fn at(map: &'a Map, place: Place) -> Option<Spot<'a, G>>
        ensures { MatchOption result (OnGrid G.LAYERS map.now.rows map.now.columns place → ⊥) (λ s. (s.place ≡ place) × (s.map.now ≡ map.now)) }
    {
        // An `if`: the closure of a `then` would not know the test, and a spot is made only where it holds.
        if (1..=G::LAYERS).contains(&place.layer)
            && place.row < map.rows
            && place.column < map.columns
        {
            Some(Spot {
                map,
                place,
                grid: PhantomData,
            })
        } else {
            None
        }
    }

    // The number of the cell that lies there.
    pub(crate) fn cell(&self) -> u16
        ensures { result ≡ cell_of self.now.map.now.rows self.now.map.now.columns self.now.place }
    {
        let Place { layer, row, column } = self.place;
        (layer - 1) * self.map.points() + (row * self.map.columns + column)
    }

    pub(crate) fn point(&self) -> Point
        ensures pad { result.pad ≡ pad_point (byte_at self.now.map.now.columns self.now.map.now.bytes.items self.now.place) }
        ensures landing { result.landing ≡ landing_point (byte_at self.now.map.now.columns self.now.map.now.bytes.items self.now.place) }
    {
        let Place { row, column, .. } = self.place;
        let byte = self.map.bytes[(row * self.map.columns + column) as usize];
        Point {
            pad: byte % 2 == 1,
            landing: byte / 2 % 2 == 1,
        }
    }

    pub(crate) fn has_pad(&self) -> bool
        ensures { result ≡ pad_place self.now.map.now.columns self.now.map.now.bytes.items self.now.place }
    {
        self.place.layer == 1 && self.point().pad
    }

    // The place one step away, if the grid has it.
    fn beside(&self, step: Step) -> Option<Place>
        ensures { result ≡ beside G.LAYERS self.now.map.now.rows self.now.map.now.columns self.now.place step }
    {
        let from = self.place;
        let Place { layer, row, column } = from;
        match step {
            Step::North if row > 0 => Some(Place {
                row: row - 1,
                ..from
            }),
            Step::East if column + 1 < self.map.columns => Some(Place {
                column: column + 1,
                ..from
            }),
            Step::South if row + 1 < self.map.rows => Some(Place {
                row: row + 1,
                ..from
            }),
            Step::West if column > 0 => Some(Place {
                column: column - 1,
                ..from
            }),
            Step::Down if layer < G::LAYERS => Some(Place {
                layer: layer + 1,
                ..from
            }),
            Step::Up if layer > 1 => Some(Place {
                layer: layer - 1,
                ..from
            }),
            _ => None,
        }
    }

    // Whether a step may be taken from there: layers change only at pad points and landing points.
    fn passes(&self, step: Step) -> bool
        ensures { result ≡ passes step (byte_at self.now.map.now.columns self.now.map.now.bytes.items self.now.place) }
    {
        let point = self.point();
        match step {
            Step::Down | Step::Up => point.pad || point.landing,
            _ => true,
        }
    }

    // The cell that a step leads to, if the way is open: the step passes, and no pad stands there.
    fn way(&self, step: Step) -> Option<u16>
        ensures { result ≡ way G.LAYERS self.now.map.now.rows self.now.map.now.columns self.now.map.now.bytes.items self.now.place step }
    {
        let place = self.beside(step)?;
        let to: Spot<'_, G> = Spot {
            map: self.map,
            place,
            grid: PhantomData,
        };
        // An `if`: after a `then` the proof by cases does not close.
        if self.passes(step) && !to.has_pad() {
            Some(to.cell())
        } else {
            None
        }
    }

    // The j-th of the open ways, in the order of the board's steps.
    pub(crate) fn outlet(&self, j: u8) -> Option<u16>
        ensures { result ≡ at (somes (map (way G.LAYERS self.now.map.now.rows self.now.map.now.columns self.now.map.now.bytes.items self.now.place) G.steps)) j }
    {
        // Asked for each outlet of each cell: `filter_map` and `nth` take three times the instructions of this loop.
        let mut left = j;
        for step in G::steps() {
            if let Some(next) = self.way(*step) {
                if left == 0 {
                    return Some(next);
                }
                left -= 1;
            }
        }
        None
    }
}
