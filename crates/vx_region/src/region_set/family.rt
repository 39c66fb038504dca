//! Regions and their parents: who has children, another parent, and the removal of a region.
ghost use Rattle.std.specs.Prelude.{◌≡◌, false, nat_eq, option_map, IsSome, IfSome, IfOk, OnOk, OnErr};
ghost use Rattle.std.specs.Map.{set_value, remove_entry};
ghost use Rattle.vx_region.specs.Ancestry.{has_child, is_under};
ghost use Rattle.vx_region.specs.ChildCounts.{Count, IsIdOf};
ghost use Rattle.vx_region.specs.Regions.{RegionData, region_at, with_parent, without_region};

use crate::children::Children;
use crate::region_no::RegionNo;
use crate::region_set::RegionSet;
use std::alloc::AllocError;
use vx_name::Id;

impl RegionSet {
    /// Whether some region has the region of that number as its parent.
    pub fn has_child(&self, number: RegionNo) -> bool
        ensures { result ≡ has_child self.now number.0 }
    {
        match self.get(number) {
            Some(region) => 0 < self.children.count(region.id()),
            // Each parent is there, so a number without a region has no children.
            None => false,
        }
    }

    /// Gives a region that is there another parent, or none. The parent has to be there, and to be
    /// neither the region itself nor under it.
    pub fn set_parent(
        &mut self,
        number: RegionNo,
        parent: Option<RegionNo>,
    ) -> Result<(), AllocError>
        requires known { IsSome (region_at self.old number.0) }
        requires parent_known { IfSome parent (λ q. IsSome (region_at self.old q.0)) }
        requires no_cycle { IfSome parent (λ q. is_under self.old q.0 number.0 ≡ false) }
        ensures ok { OnOk result
            (self.new ≡ with_parent self.old number.0 (option_map (λ n. n.0) parent)) }
        ensures err { OnErr result (self.new ≡ self.old) }
    {
        // The counts are changed last, and in a copy: once the region is written, nothing can fail.
        let children = self.children_with(number, parent)?;
        self.regions.own(number.0)?.set_parent(parent);
        self.children = children;
        Ok(())
    }

    /// Takes away a region that is there and is no region's parent. Its number is not given again.
    pub fn remove(&mut self, number: RegionNo) -> Result<(), AllocError>
        requires known { IsSome (region_at self.old number.0) }
        requires childless { has_child self.old number.0 ≡ false }
        ensures ok { OnOk result (self.new ≡ without_region self.old number.0) }
        ensures err { OnErr result (self.new ≡ self.old) }
    {
        let id = *self.regions.get(number.0).unwrap().id();
        let children = self.children_without(number)?;
        let mut numbers = self.numbers.clone()?;
        numbers.remove(&id)?;
        self.regions.remove(number.0)?;
        self.numbers = numbers;
        self.children = children;
        Ok(())
    }

    // The counts of children once the region of that number has this parent.
    fn children_with(
        &self,
        number: RegionNo,
        parent: Option<RegionNo>,
    ) -> Result<Children, AllocError>
        requires known { IsSome (region_at self.now number.0) }
        requires parent_known { IfSome parent (λ q. IsSome (region_at self.now q.0)) }
        ensures { IfOk result (λ children. (w : RegionData)
            → w.parent ≡ option_map (λ n. n.0) parent
            → Count children self.now.entries (set_value (nat_eq number.0) self.now.entries w)) }
    {
        let mut children = self.children_without(number)?;
        let Some(parent) = parent else {
            return Ok(children);
        };
        children.add(self.regions.allocator(), &self.id_of(parent))?;
        Ok(children)
    }

    // The counts of children without the region of that number.
    fn children_without(&self, number: RegionNo) -> Result<Children, AllocError>
        requires { IsSome (region_at self.now number.0) }
        ensures { IfOk result (λ children.
            Count children self.now.entries (remove_entry (nat_eq number.0) self.now.entries)) }
    {
        let mut children = self.children.clone()?;
        let Some(parent) = self.parent(number) else {
            return Ok(children);
        };
        children.take(self.regions.allocator(), &self.id_of(parent))?;
        Ok(children)
    }

    // The id of a region that is there.
    fn id_of(&self, number: RegionNo) -> Id
        requires { IsSome (region_at self.now number.0) }
        ensures { IsIdOf result number.0 self.now.entries }
    {
        *self.regions.get(number.0).unwrap().id()
    }
}
