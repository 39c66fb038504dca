//! Where a tick has to look, by levels that are kept and made right again.
ghost use Rattle.std.specs.Prelude.{◌≡◌, IfOk, IfSome};
ghost use Rattle.vx_still.specs.Mirrored.{IsMirror};
ghost use Rattle.vx_still.specs.Stillness.{IsStill};
ghost use Rattle.vx_still.specs.Unheeded.{IsKept};
ghost use Rattle.vx_still.specs.Watching.{IsLook};
ghost use Rattle.vx_still.specs.Waking.{with_rebuilt};

use crate::heeders::mark_all_heeders;
use crate::kept_dust::KeptDust;
use crate::look::Look;
use crate::sight::{in_sight, mark_around_all};
use crate::telling::tell_all;
use crate::waking::Waking;
use std::alloc::{AllocError, Global};
use vx_cells::Frozen;
use vx_geom::Pos;
use vx_levels::repair;
use vx_places::Places;
use vx_power::add_all_fed;
use vx_store::MarkKind;

// A part reads cells that at most so many steps lead to.
const CELLS_OFF: u8 = 4;

// What heeds dust that got another level costs as much to find as a look at so many components.
const PER_LEVEL: usize = 2;

// A repair may take so many turns for each component, and for a map at least so many; one that
// takes more is given up.
const TURNS_EACH: usize = 64;

const TURNS: usize = 4_096;

/// Where a tick has to look of a map that is still but for what is told and what was written since,
/// and of which what is kept mirrors what dust stores. Of the map it has the levels and their links
/// then. `None` where to make it so took too many turns; then nothing is known of it. It costs a look
/// at each place near what was changed, and what dust gets another level.
pub fn unsettled(
    alloc: Global,
    map: &Frozen<'_>,
    waking: &Waking,
    written: &[Pos],
    dust: &mut KeptDust,
) -> Result<Option<Look>, AllocError>
    requires still { IsStill map.now (with_rebuilt waking.now written.now) }
    requires mirror { IsMirror map.now (with_rebuilt waking.now written.now).rebuilt dust.old }
    ensures dust { IfOk result (λ found. IfSome found (λ look. IsKept map.now dust.new)) }
    ensures look { IfOk result (λ found. IfSome found (IsLook map.now)) }
{
    let mut rebuilt = Vec::from_slice(alloc, &waking.rebuilt)?;
    rebuilt.extend_from_slice(written)?;
    let mut unsure = in_sight(alloc, map, rebuilt.as_slice())?;
    unsure.extend_from_slice(rebuilt.as_slice())?;
    dust.unheeded.forget_all(unsure.as_slice());
    add_all_fed(&mut unsure, map, waking.turned.as_slice())?;
    let components = components_of(map, !rebuilt.is_empty(), dust.components);
    dust.components = components;
    let Some(put) = repair(alloc, map, &mut dust.levels, unsure, turns_for(components))? else {
        return Ok(None);
    };
    if components < put.len().saturating_mul(PER_LEVEL) {
        return Ok(Some(Look { places: None }));
    }
    let mut places = Places::new(alloc, map.bounds());
    mark_around_all(
        alloc,
        map,
        &mut places,
        rebuilt.as_slice(),
        CELLS_OFF,
        MarkKind::Device,
    )?;
    mark_all_heeders(alloc, map, &mut places, waking.turned.as_slice())?;
    places.mark_all(alloc, waking.besides.as_slice())?;
    tell_all(alloc, map, dust, &mut places, rebuilt.as_slice())?;
    tell_all(alloc, map, dust, &mut places, put.as_slice())?;
    Ok(Some(Look {
        places: Some(places),
    }))
}

// How many components a map has: as many as before, where nothing was rebuilt.
fn components_of(map: &Frozen<'_>, is_rebuilt: bool, before: usize) -> usize {
    if is_rebuilt {
        map.component_count() as usize
    } else {
        before
    }
}

// How many turns a repair may take on a map with so many components.
fn turns_for(components: usize) -> usize {
    components.saturating_mul(TURNS_EACH).saturating_add(TURNS)
}
