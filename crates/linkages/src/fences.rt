// Fences: what shows that pads cannot all be met.
ghost use Rattle.std.specs.Prelude.{Decides};
ghost use Rattle.linkages.specs.Fences.{TooFewCells, Pigeonhole, NoLinkage, OneFence, FenceByMembers, FenceForFewer, FencesAgree};

// Of more disjoint lists than cells one meets none of the cells.
pub fn pigeonhole_stands() -> u8
    ensures { Pigeonhole }
{
    0
}

// Whether so many cells that block so many pads show that these cannot all be met: exactly if the cells are fewer.
pub fn too_few(cells: usize, pads: usize) -> bool
    ensures { Decides result (TooFewCells cells pads) }
{
    cells < pads
}

// Pads with a fence cannot all be met.
pub fn no_linkage_stands() -> u8
    ensures { NoLinkage }
{
    0
}

// Where all pads but one can be met there is at most one fence.
pub fn one_fence_stands() -> u8
    ensures { OneFence }
{
    0
}

// A fence depends only on the members of its lists.
pub fn fence_by_members_stands() -> u8
    ensures { FenceByMembers }
{
    0
}

// A fence for some pads is one for fewer of them, the shown ones among them.
pub fn fence_for_fewer_stands() -> u8
    ensures { FenceForFewer }
{
    0
}

// Fences for the same pads under the same bars show the same pads and cells.
pub fn fences_agree_stands() -> u8
    ensures { FencesAgree }
{
    0
}
