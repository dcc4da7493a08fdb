// Walks, paths and linkages.
ghost use Rattle.linkages.specs.Paths.{WalksShorten, FrontsArePaths, Truncated, LinkageForLess, PathsStayOnBoard};
ghost use Rattle.linkages.specs.Places.{ByPlaces};

// A walk can be shortened to a path.
pub fn walks_shorten_stands() -> u8
    ensures { WalksShorten }
{
    0
}

// The front part of a path is a path.
pub fn fronts_are_paths_stands() -> u8
    ensures { FrontsArePaths }
{
    0
}

// A path to a landing, cut after its first landing, is one.
pub fn truncated_stands() -> u8
    ensures { Truncated }
{
    0
}

// A linkage is one for fewer pads, and under fewer bars.
pub fn linkage_for_less_stands() -> u8
    ensures { LinkageForLess }
{
    0
}

// Paths of a bounded board hold nothing but its cells.
pub fn paths_stay_on_board_stands() -> u8
    ensures { PathsStayOnBoard }
{
    0
}

// The same facts by places in a list.
pub fn by_places_stands() -> u8
    ensures { ByPlaces }
{
    0
}
