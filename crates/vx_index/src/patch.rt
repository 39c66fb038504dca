ghost use Rattle.std.specs.Prelude.{◌≡◌};
ghost use Rattle.vx_geom.specs.Extent.{is_within};

use vx_geom::{Extent, Pos};

/// Columns in which the region of that number lies.
#[derive(Clone, Copy, PartialEq, Eq)]
pub(crate) struct Patch {
    pub number: u32,
    pub columns: Extent,
}

impl Patch {
    /// Whether the column of the position is one of these. It compares all four sides: a branch at
    /// each would cost more, since none can be foretold.
    #[tactic(auto, using(vx_base::proofs::Signed::signed), unfolding(vx_geom::specs::Extent::is_within))]
    pub(crate) fn holds(&self, p: &Pos) -> bool
        ensures { result ≡ is_within self.now.columns p.now }
    {
        let columns = &self.columns;
        let is_amid = (columns.west <= p.x) & (p.x <= columns.east);
        is_amid & ((columns.north <= p.z) & (p.z <= columns.south))
    }
}
