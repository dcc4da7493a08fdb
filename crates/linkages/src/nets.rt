// Nets, and the fence of a search that finds no way.
ghost use Rattle.linkages.specs.Nets.{NetsLink, LinkagesWire, TrappedCannotBeMet, SearchFences, ShownFences, TheFence};

// Nets are a linkage of their pads.
pub fn nets_link_stands() -> u8
    ensures { NetsLink }
{
    0
}

// Pads that can be met can be wired.
pub fn linkages_wire_stands() -> u8
    ensures { LinkagesWire }
{
    0
}

// Where a search finds no way there is none.
pub fn trapped_cannot_be_met_stands() -> u8
    ensures { TrappedCannotBeMet }
{
    0
}

// A search that finds no way leaves a fence.
pub fn search_fences_stands() -> u8
    ensures { SearchFences }
{
    0
}

// So do the same pads and cells in any other order.
pub fn shown_fences_stands() -> u8
    ensures { ShownFences }
{
    0
}

// Every fence of these pads has the members that the search shows.
pub fn the_fence_stands() -> u8
    ensures { TheFence }
{
    0
}
