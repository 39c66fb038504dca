ghost use Rattle.std.specs.Prelude.{◌≡◌, ◌↔◌, ◌<◌, IfSome, Some, true};
ghost use Rattle.vx_keeper.specs.Marks.{IsBegun};
ghost use Rattle.vx_world.specs.Numbered.{IsSectorOf};
ghost use Rattle.vx_world.specs.Settlements.{IsHome, IsHomeOf, sector_here};

use crate::home::Home;
use std::alloc::{AllocError, Global};
use std::mem;
use vx_geom::{Bounds, Pos};
use vx_keeper::{Keeper, Places};
use vx_record::Place;
use vx_sector::{Fresh, Sector};

/// What stands under the lock of a sector: the sector at home, or nothing while it is away.
pub struct Slot<A: Places> {
    pub(crate) home: Option<Home<A>>,
}

// A sector is let go with its slot, and nowhere else.
impl<A: Places> Drop for Slot<A> {
    fn drop(self) {
        let Slot { home } = self;
        let_go(home);
    }
}

impl<A: Places> Slot<A> {
    /// Puts a sector home, in place of what stands there.
    pub fn put(&mut self, home: Home<A>)
        ensures { sector_here self.new ≡ Some home.marked }
    {
        let_go(mem::replace(&mut self.home, Some(home)));
    }

    /// The sector at home, if there is one.
    pub fn into_home(self) -> Option<Home<A>>
        ensures { result ≡ self.home }
    {
        let Slot { home } = self;
        home
    }

    /// Whether the sector of that number in a world with these bounds is at home.
    pub fn is_home(&self, bounds: &Bounds, number: u32) -> bool
        ensures { (result ≡ true) ↔ IsHome bounds.now number (sector_here self.now) }
    {
        match &self.home {
            Some(home) => home.is_sector(bounds, number),
            None => false,
        }
    }

    /// The sector of that number in a world with these bounds, where it is at home.
    pub fn home_mut(&mut self, bounds: &Bounds, number: u32) -> Option<&mut Home<A>>
        ensures { IfSome result (λ home. IsSectorOf bounds.now number home.now.marked) }
    {
        let Some(home) = &mut self.home else {
            return None;
        };
        if home.is_sector(bounds, number) {
            Some(home)
        } else {
            None
        }
    }

    /// Whether the sector, if it is at home, is known to rest. Nothing is asked of one that is
    /// away: a tick that has taken it out begins its next window. Only costs rest on the answer.
    pub fn rests(&self, keeper: &Keeper<A>) -> bool {
        match &self.home {
            Some(home) => home.rests(keeper),
            None => true,
        }
    }

    /// Has the sector at home begin its next window with this, as `Home::renew` does.
    pub fn renew(&mut self, at: usize, keeper: &Keeper<A>, fresh: Fresh)
        requires { IsBegun keeper.now.world at fresh }
    {
        if let Some(home) = &mut self.home {
            home.renew(at, keeper, fresh);
        }
    }

    /// Has the sector at home begin its window anew where that is behind, as `Home::begin_anew`
    /// does.
    pub fn begin_anew(
        &mut self,
        alloc: Global,
        at: usize,
        keeper: &Keeper<A>,
    ) -> Result<(), AllocError>
        requires { at < A.all }
    {
        match &mut self.home {
            Some(home) => home.begin_anew(alloc, at, keeper),
            None => Ok(()),
        }
    }

    /// Gives the sector at home the number of the version that judges the open windows, as
    /// `Home::catch_up` does.
    pub fn catch_up(&mut self, keeper: &Keeper<A>) {
        if let Some(home) = &mut self.home {
            home.catch_up(keeper);
        }
    }

    /// Whether a sector is at home that holds the position.
    pub fn is_home_of(&self, p: Pos) -> bool
        ensures { (result ≡ true) ↔ IsHomeOf p (sector_here self.now) }
    {
        match &self.home {
            Some(home) => home.holds(p),
            None => false,
        }
    }
}

impl<A: Places> Place for Slot<A> {
    type Keeper = Keeper<A>;

    ghost use Rattle.std.specs.Prelude.{option_map, length};
    ghost use Rattle.vx_keeper.specs.Keepers.{known};

    ghost sector = { λ s. option_map (λ h. h.marked) s.home };

    ghost known = { λ keeper. known keeper };

    ghost count = { λ keeper. length keeper.counts };

    fn sector(&self) -> Option<&Sector> {
        match &self.home {
            Some(home) => Some(home.marked.sector()),
            None => None,
        }
    }

    fn is_known(&self, at: usize, keeper: &Keeper<A>) -> bool {
        keeper.soundness();
        match &self.home {
            Some(home) => keeper.knows(at, home.marked.sector(), keeper.has_marked(&home.marked)),
            None => false,
        }
    }
}

// Lets a sector go that stands nowhere any more.
fn let_go<A: Places>(home: Option<Home<A>>) {
    if let Some(home) = home {
        let _parts = home.into_parts();
    }
}
