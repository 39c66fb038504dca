ghost use Rattle.std.specs.Prelude.{◌≡◌, map, replicate, IfOk, OnOk};
ghost use Rattle.vx_policy.specs.Asked.{asked};
ghost use Rattle.vx_play.specs.Plays.{opened};
ghost use Rattle.vx_core.specs.declared.stage.Stage.TheVariants.{Home};

use crate::core_state::Core;
use crate::event::Event;
use crate::stage::Stage;
use std::alloc::{AllocError, Global};
use std::marker::Model;
use vx_board::{DeskError, Naming};
use vx_play::{Play, Ticked};
use vx_policy::Edit;
use vx_record::{Chronicle, ClosedWindows, Opening, Tick, busy_windows};
use vx_sector::{Cmd, Refusal};
use vx_tick::Phase;
use vx_windows::MAX_TICKS;

/// The core machine: the world at play, the stage of each of its sectors, whether the tick that
/// they are away for is fixed, and the ticks so far.
#[derive(Drop)]
pub struct Machine<J: Naming> {
    play: Play<J>,
    stages: Vec<Stage>,
    is_fixed: bool,
    ticks: Vec<Tick>,
}

impl<J: Naming> Model for Machine<J> {
    ghost use Rattle.std.specs.Prelude.{map};
    ghost use Rattle.vx_core.specs.Machines.{MachineData};
    ghost use Rattle.vx_record.specs.Records.{tick_in};

    ghost Value = { MachineData };

    ghost view = { λ a. record {
      play = a.play;
      stages = a.stages.items;
      is_fixed = a.is_fixed;
      ticks = map tick_in a.ticks.items;
    } };
}

impl<J: Naming> Machine<J> {
    ghost use Rattle.std.specs.Prelude.{◌<◌, true, length};
    ghost use Rattle.vx_core.specs.Events.{Acts, Edits, Takes, Works, Fixes, Puts, happening};
    ghost use Rattle.vx_core.specs.Machines.{begun, after_event, after_events, fixed, is_at, is_home, is_unworked, have_reached, is_any_away};
    ghost use Rattle.vx_record.specs.Records.{chronicle_in};
    ghost use Rattle.vx_windows.specs.Limits.{most_ticks};

    /// The machine as a world opens, with all sectors at home.
    pub fn open(alloc: Global, opening: &Opening) -> Result<Machine<J>, AllocError>
        requires named { opening.now.policy ≡ J.first }
        ensures { IfOk result (λ machine. machine ≡ begun opening.now) }
    {
        let play = begin::<J>(alloc, opening.try_clone()?)?;
        let stages = all_home(alloc, play.sectors().len())?;
        Ok(Machine {
            play,
            stages,
            is_fixed: false,
            ticks: Vec::new(alloc),
        })
    }

    /// Takes these events, one after another.
    pub fn take_all(&mut self, alloc: Global, events: &[Event]) -> Result<(), AllocError>
        ensures { OnOk result (self.new ≡ after_events self.old (map happening events.now)) }
    {
        for event in events {
            self.take(alloc, event)?;
        }
        Ok(())
    }

    // Does what the event does where it may happen; else nothing.
    fn take(&mut self, alloc: Global, event: &Event) -> Result<(), AllocError>
        ensures { OnOk result (self.new ≡ after_event self.old (happening event.now)) }
    {
        match event {
            Event::Act(number, cmd) => self.act(*number, *cmd),
            Event::Edit(edit) => self.edit(alloc, edit),
            Event::Take(sector) => {
                self.take_away(*sector);
                Ok(())
            }
            Event::Work(phase, sector) => {
                self.work(*phase, *sector);
                Ok(())
            }
            Event::Fix => self.fix(alloc),
            Event::Put(sector) => {
                self.put_back(*sector);
                Ok(())
            }
        }
    }

    // A command, from a seat that is there, in a sector that is at home.
    #[tactic(auto, unfolding(crate::specs::Machines::after_event))]
    fn act(&mut self, number: u8, cmd: Cmd) -> Result<(), AllocError>
        ensures { OnOk result (self.new ≡ after_event self.old (Acts number cmd)) }
    {
        let Some(seat) = self.play.seat_at(number) else {
            return Ok(());
        };
        if !self.is_home(&cmd) {
            return Ok(());
        }
        match self.play.act(seat, cmd) {
            Err(Refusal::NoMemory) => Err(AllocError),
            _ => Ok(()),
        }
    }

    // An edit that nothing stands against.
    #[tactic(auto, unfolding(crate::specs::Machines::after_event))]
    fn edit(&mut self, alloc: Global, edit: &Edit) -> Result<(), AllocError>
        ensures { OnOk result (self.new ≡ after_event self.old (Edits (asked edit.now))) }
    {
        match self.play.edit(alloc, edit.try_clone(alloc)?) {
            Err(DeskError::NoMemory) => Err(AllocError),
            _ => Ok(()),
        }
    }

    // A sector at home goes away for a tick.
    #[tactic(auto, unfolding(crate::specs::Machines::after_event))]
    fn take_away(&mut self, sector: u32)
        ensures { self.new ≡ after_event self.old (Takes sector) }
    {
        if self.is_at(sector, Stage::Home)
            && !self.is_fixed
            && self.is_unworked()
            && self.play.ticks() < MAX_TICKS
        {
            self.stages[sector as usize] = Stage::Taken;
        }
    }

    // The work of a phase, where it is due.
    #[tactic(auto, unfolding(crate::specs::Machines::after_event))]
    fn work(&mut self, phase: Phase, sector: u32)
        ensures { self.new ≡ after_event self.old (Works phase sector) }
    {
        let due = Stage::due(phase);
        if self.is_at(sector, due) && self.have_reached(due) {
            self.stages[sector as usize] = Stage::Worked(phase);
        }
    }

    // The tick, once all work is done.
    #[tactic(auto, unfolding(crate::specs::Machines::after_event))]
    fn fix(&mut self, alloc: Global) -> Result<(), AllocError>
        ensures { OnOk result (self.new ≡ after_event self.old Fixes) }
    {
        if self.is_fixed
            || !self.have_reached(Stage::Worked(Phase::Cells))
            || MAX_TICKS <= self.play.ticks()
        {
            return Ok(());
        }
        self.tick(alloc)
    }

    // Makes the tick, and puts it on record.
    fn tick(&mut self, alloc: Global) -> Result<(), AllocError>
        requires more { self.old.play.ticks < most_ticks }
        ensures { OnOk result (self.new ≡ fixed self.old) }
    {
        let number = self.play.ticks() + 1;
        let version = self.play.version().try_clone()?;
        // There may be one tick more, so only memory can be wanting.
        let Ok(Ticked { windows, fates }) = self.play.tick(alloc) else {
            return Err(AllocError);
        };
        let room = Vec::with_capacity(alloc, busy_windows(&windows))?;
        self.ticks.push(Tick {
            number,
            version,
            windows: ClosedWindows::new(windows, room),
            fates,
        })?;
        self.is_fixed = true;
        Ok(())
    }

    // A sector that is away is put back, once the tick is fixed.
    #[tactic(auto, unfolding(crate::specs::Machines::after_event))]
    fn put_back(&mut self, sector: u32)
        ensures { self.new ≡ after_event self.old (Puts sector) }
    {
        if self.is_fixed && self.is_at(sector, Stage::Worked(Phase::Cells)) {
            self.stages[sector as usize] = Stage::Home;
            self.is_fixed = self.is_any_away();
        }
    }

    // Whether the sector of that number is at this stage.
    fn is_at(&self, sector: u32, stage: Stage) -> bool
        ensures value { result ≡ is_at self.now sector stage }
        ensures there { result ≡ true → sector < length self.now.stages }
    {
        match self.stages.get(sector as usize) {
            Some(s) => s.is(stage),
            None => false,
        }
    }

    // Whether the sector that the command speaks of is at home.
    #[tactic(auto, unfolding(vx_play::specs::Plays::sector_asked))]
    fn is_home(&self, cmd: &Cmd) -> bool
        ensures { result ≡ is_home self.now cmd.now }
    {
        match self.play.sector_of(cmd.place()) {
            Some(sector) => self.is_at(sector, Stage::Home),
            None => false,
        }
    }

    // Whether no work of a tick is done.
    fn is_unworked(&self) -> bool
        ensures { result ≡ is_unworked self.now.stages }
    {
        self.stages
            .iter()
            .all(|s| !s.has_reached(Stage::Worked(Phase::Parts)))
    }

    // Whether all sectors have reached this stage.
    fn have_reached(&self, stage: Stage) -> bool
        ensures { result ≡ have_reached stage self.now.stages }
    {
        self.stages.iter().all(|s| s.has_reached(stage))
    }

    // Whether a sector is away.
    fn is_any_away(&self) -> bool
        ensures { result ≡ is_any_away self.now.stages }
    {
        self.stages.iter().any(|s| s.has_reached(Stage::Taken))
    }

    /// What stands at the end.
    pub fn into_core(self, alloc: Global, opening: &Opening) -> Result<Core, AllocError>
        ensures chronicle { IfOk result (λ core. chronicle_in core.chronicle
            ≡ record { opening = opening.now; ticks = self.ticks }) }
        ensures edits { IfOk result (λ core. map asked core.edits.items ≡ self.play.accepted) }
        ensures sectors { IfOk result (λ core. core.sectors.items ≡ self.play.sectors) }
        ensures stages { IfOk result (λ core. core.stages.items ≡ self.stages) }
    {
        let Machine {
            play,
            stages,
            is_fixed: _,
            ticks,
        } = self;
        let opening = opening.try_clone()?;
        let edits = copies(alloc, play.accepted())?;
        Ok(Core {
            chronicle: Chronicle { opening, ticks },
            edits,
            sectors: play.into_sectors(),
            stages,
        })
    }
}

// The world at play as it opens.
fn begin<J: Naming>(alloc: Global, opening: Opening) -> Result<Play<J>, AllocError>
    requires named { opening.policy ≡ J.first }
    ensures { IfOk result (λ play. play ≡ opened opening.policy opening.terrain opening.names) }
{
    let (terrain, names, policy) = opening.into_parts();
    Play::open(alloc, terrain, names, policy)
}

// So many sectors at home.
fn all_home(alloc: Global, count: usize) -> Result<Vec<Stage>, AllocError>
    ensures { IfOk result (λ stages. stages.items ≡ replicate count Home) }
{
    let mut stages = Vec::with_capacity(alloc, count)?;
    stages.resize(count, Stage::Home)?;
    Ok(stages)
}

// Copies of these edits.
fn copies(alloc: Global, edits: &[Edit]) -> Result<Vec<Edit>, AllocError>
    ensures { IfOk result (λ copies. map asked copies.items ≡ map asked edits.now) }
{
    let mut copies = Vec::with_capacity(alloc, edits.len())?;
    for edit in edits {
        copies.push(edit.try_clone(alloc)?)?;
    }
    Ok(copies)
}
