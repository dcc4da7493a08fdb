// What stands between drawings and layouts. Each theorem is the contract of a small function.
ghost use Rattle.layouts.specs.Theorems.{LinkagesDraw, FieldLayouts};

// Every linkage of pads of any board has a lawful drawing.
#[tactic(auto, using(crate::proofs::Linkages::linkages_draw))]
pub fn linkages_draw_stands() -> u8
    ensures { LinkagesDraw }
{
    0
}

// A field's lawful drawings are exactly the legal layouts: each drawing reads as one, each layout has a drawing,
// and pads can be met exactly if there is a legal layout of them.
#[tactic(auto, using(crate::proofs::FieldWays::field_layouts))]
pub fn layouts_stand() -> u8
    ensures { FieldLayouts }
{
    0
}
