ghost use Rattle.std.specs.Prelude.{◌≡◌, IfOk};

use crate::window::Window;
use std::alloc::{AllocError, Global};
use std::marker::Model;
use vx_cells::Cells;
use vx_geom::Bounds;
use vx_policy::Version;

/// All that a window of a sector begins with. It is made before the window, since making it takes
/// memory and beginning does not.
#[derive(Drop)]
pub struct Fresh {
    pub(crate) window: Box<Window>,
}

impl Model for Fresh {
    ghost use Rattle.std.specs.Prelude.{box_value};
    ghost use Rattle.vx_sector.specs.SectorData.{FreshData, WindowData, IsFresh, fresh_of};

    ghost Value = { FreshData };

    ghost view = { λ a. fresh_of (box_value {X = WindowData} a.window) };

    ghost invariant = { λ a. IsFresh (box_value {X = WindowData} a.window) };
}

impl Fresh {
    /// A window over copies of these cells, judged by a copy of this version. The copies share what
    /// the cells hold.
    pub fn new(
        alloc: Global,
        bounds: Bounds,
        sector: u32,
        cells: &Cells,
        version: &Version,
    ) -> Result<Fresh, AllocError>
        requires { (cells.now.bounds ≡ bounds) × (cells.now.sector ≡ sector) }
        ensures { IfOk result (λ fresh.
            fresh ≡ record { cells = cells.now; version = version.now }) }
    {
        let copy = cells.try_clone()?;
        Fresh::over(alloc, copy, version)
    }

    /// A window over these cells, judged by a copy of this version. The base is a copy, which
    /// shares what they hold.
    pub fn over(alloc: Global, cells: Cells, version: &Version) -> Result<Fresh, AllocError>
        ensures { IfOk result (λ fresh.
            fresh ≡ record { cells = cells; version = version.now }) }
    {
        Ok(Fresh {
            window: Box::new(alloc, Window::new(alloc, cells, version)?)?,
        })
    }
}
