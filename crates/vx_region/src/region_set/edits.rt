//! What changes a region that is there, or the flags of the world at large. Memory is taken only
//! for a region that copies share.
ghost use Rattle.std.specs.Prelude.{◌≡◌, true, Some, None, IsSome, OnOk, OnErr};
ghost use Rattle.vx_region.specs.Association.{has_name};
ghost use Rattle.vx_region.specs.Regions.{region_at, HasSettings, with_shape, with_priority, with_flag, without_name};

use super::RegionSet;
use crate::region_no::RegionNo;
use crate::roster::Roster;
use std::alloc::AllocError;
use vx_flag::{Flag, Setting};
use vx_geom::Shape;
use vx_name::Name;

impl RegionSet {
    /// Gives a region that is there another shape.
    pub fn reshape(&mut self, number: RegionNo, shape: Shape) -> Result<(), AllocError>
        requires { IsSome (region_at self.old number.0) }
        ensures ok { OnOk result (self.new ≡ with_shape self.old number.0 shape) }
        ensures err { OnErr result (self.new ≡ self.old) }
    {
        self.regions.own(number.0)?.set_shape(shape);
        Ok(())
    }

    /// Gives a region that is there another priority.
    pub fn set_priority(&mut self, number: RegionNo, priority: i32) -> Result<(), AllocError>
        requires { IsSome (region_at self.old number.0) }
        ensures ok { OnOk result (self.new ≡ with_priority self.old number.0 priority) }
        ensures err { OnErr result (self.new ≡ self.old) }
    {
        self.regions.own(number.0)?.set_priority(priority);
        Ok(())
    }

    /// Sets a flag of a region that is there, or of the world at large for number 0, in place of
    /// what was set before.
    pub fn set_flag(
        &mut self,
        number: RegionNo,
        flag: Flag,
        setting: Setting,
    ) -> Result<(), AllocError>
        requires { HasSettings self.old number.0 }
        ensures ok { OnOk result (self.new ≡ with_flag self.old number.0 flag (Some setting)) }
        ensures err { OnErr result (self.new ≡ self.old) }
    {
        if number.0 == 0 {
            self.global.set(flag, setting);
            return Ok(());
        }
        self.regions.own(number.0)?.set_flag(flag, setting);
        Ok(())
    }

    /// Leaves a flag unset in a region that is there, or in the world at large for number 0.
    pub fn clear_flag(&mut self, number: RegionNo, flag: Flag) -> Result<(), AllocError>
        requires { HasSettings self.old number.0 }
        ensures ok { OnOk result (self.new ≡ with_flag self.old number.0 flag None) }
        ensures err { OnErr result (self.new ≡ self.old) }
    {
        if number.0 == 0 {
            self.global.clear(flag);
            return Ok(());
        }
        self.regions.own(number.0)?.clear_flag(flag);
        Ok(())
    }

    /// Drops a name from that roster of a region that is there. Nothing changes where it does not have
    /// the name.
    pub fn drop_name(
        &mut self,
        number: RegionNo,
        roster: Roster,
        name: &Name,
    ) -> Result<(), AllocError>
        requires { IsSome (region_at self.old number.0) }
        ensures ok { OnOk result
            (self.new ≡ without_name self.old number.0 roster name.now.text.bytes) }
        ensures err { OnErr result (self.new ≡ self.old) }
        // A name that is not there needs no room to be dropped.
        ensures there { OnErr result (has_name self.old roster name.now.text.bytes number.0 ≡ true) }
    {
        // A region that does not have it is not copied.
        if !self.has_name(roster, name, number) {
            return Ok(());
        }
        self.regions.own(number.0)?.drop_name(roster, name)
    }
}
