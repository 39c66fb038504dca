ghost use Rattle.std.specs.Prelude.{◌≡◌, IfOk, IfSome};
ghost use Rattle.vx_still.specs.Mirrored.{IsMirror};
ghost use Rattle.vx_still.specs.Stillness.{IsStill};
ghost use Rattle.vx_still.specs.Waking.{with_rebuilt};
ghost use Rattle.vx_still.specs.Watching.{with_written, IsWatch};
ghost use Rattle.vx_tick.specs.Starting.{IsStart};

use std::alloc::{AllocError, Global};
use vx_cells::Frozen;
use vx_geom::Pos;
use vx_places::Places;
use vx_power::{Levels, all_levels};
use vx_still::{KeptDust, Waking, Watch, linked_anew, unsettled};

// To make levels right again where a part was turned, and to look at what heeds it, costs about as
// much as to tell the levels of so many components anew and to look at them.
const COMPONENTS_EACH: usize = 4;

// Where a cell was rebuilt it costs as much as for so many parts that were turned.
const TURNED_EACH: usize = 8;

// For so few cells it costs less at any size.
const FEW: usize = 16;

// To tell levels with their links costs about as much as so many ticks that look everywhere.
const CALM: u32 = 8;

/// How a tick of a map begins.
#[derive(Drop)]
pub enum Start {
    /// All rests, and this is kept of the dust.
    AtRest(KeptDust),
    /// By what is kept of the dust: at the places outside which the map rests, where these are told,
    /// and else at all components.
    Awake(KeptDust, Option<Places>),
    /// By levels that are told anew, at all components. For so many ticks on end little has
    /// changed.
    Anew(Levels, u32),
}

impl Start {
    /// How a tick begins by what was kept of the map, and what was written since. It costs what has
    /// changed, or, where that is much or nothing was kept, a look at all components.
    pub fn of(
        alloc: Global,
        map: &Frozen<'_>,
        watch: Option<Watch>,
        written: &[Pos],
    ) -> Result<Start, AllocError>
        requires { IfSome watch (λ watch. IsWatch map.now (with_written watch written.now)) }
        ensures { IfOk result (IsStart map.now) }
    {
        match watch {
            Some(watch) => Start::watched(alloc, map, watch, written),
            None => Start::linked(alloc, map),
        }
    }

    // How it begins by what was kept, and what was written since. Where much has changed no levels
    // are kept, and none until little has changed for some ticks on end.
    fn watched(
        alloc: Global,
        map: &Frozen<'_>,
        watch: Watch,
        written: &[Pos],
    ) -> Result<Start, AllocError>
        requires { IsWatch map.now (with_written watch written.now) }
        ensures { IfOk result (IsStart map.now) }
    {
        let Watch { waking, dust, calm } = watch;
        if has_much_changed(map, &waking, written.len()) {
            return Start::anew(alloc, map, 0);
        }
        if let Some(dust) = dust {
            return Start::repaired(alloc, map, &waking, written, dust);
        }
        if calm < CALM {
            return Start::anew(alloc, map, calm + 1);
        }
        Start::linked(alloc, map)
    }

    // How it begins by levels that were kept. Where no component is near what changed, all rests.
    fn repaired(
        alloc: Global,
        map: &Frozen<'_>,
        waking: &Waking,
        written: &[Pos],
        dust: KeptDust,
    ) -> Result<Start, AllocError>
        requires still { IsStill map.now (with_rebuilt waking.now written.now) }
        requires mirror { IsMirror map.now (with_rebuilt waking.now written.now).rebuilt dust }
        ensures { IfOk result (IsStart map.now) }
    {
        if waking.is_nothing() && written.is_empty() {
            return Ok(Start::AtRest(dust));
        }
        let mut dust = dust;
        let Some(look) = unsettled(alloc, map, waking, written, &mut dust)? else {
            return Start::linked(alloc, map);
        };
        let Some(places) = look.places else {
            return Ok(Start::Awake(dust, None));
        };
        if places.is_empty() {
            return Ok(Start::AtRest(dust));
        }
        Ok(Start::Awake(dust, Some(places)))
    }

    // How it begins by levels and links that are told anew, to be kept.
    fn linked(alloc: Global, map: &Frozen<'_>) -> Result<Start, AllocError>
        ensures { IfOk result (IsStart map.now) }
    {
        Ok(Start::Awake(linked_anew(alloc, map)?, None))
    }

    // How it begins by levels that are told anew, and not kept.
    fn anew(alloc: Global, map: &Frozen<'_>, calm: u32) -> Result<Start, AllocError>
        ensures { IfOk result (IsStart map.now) }
    {
        Ok(Start::Anew(all_levels(alloc, map)?, calm))
    }
}

// Whether so much was rebuilt or turned, with so many cells that were written since, that to look
// everywhere costs less.
fn has_much_changed(map: &Frozen<'_>, waking: &Waking, written: usize) -> bool {
    let rebuilt = waking.rebuilt.len().saturating_add(written);
    let as_turned = rebuilt
        .saturating_mul(TURNED_EACH)
        .saturating_add(waking.turned.len());
    FEW < waking.count().saturating_add(written)
        && map.component_count() as usize / COMPONENTS_EACH < as_turned
}
