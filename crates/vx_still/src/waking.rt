ghost use Rattle.std.specs.Prelude.{◌≡◌, true};

use std::alloc::Global;
use std::marker::Model;
use vx_geom::Pos;

/// Where a map is not still: where it was rebuilt, where parts were only turned on or off, and some
/// positions besides.
#[derive(Drop)]
pub struct Waking {
    /// Where a cell of another build stands than did.
    pub rebuilt: Vec<Pos>,
    /// Where a torch, a lever or a repeater was turned on or off.
    pub turned: Vec<Pos>,
    /// What is looked at besides.
    pub besides: Vec<Pos>,
}

impl Model for Waking {
    ghost use Rattle.vx_still.specs.Waking.{WakingData};

    ghost Value = { WakingData };

    ghost view = { λ a. record {
      rebuilt = a.rebuilt.items;
      turned = a.turned.items;
      besides = a.besides.items;
    } };
}

impl Waking {
    ghost use Rattle.vx_still.specs.Waking.{nowhere};

    /// Nowhere. It takes no memory.
    pub fn nothing(alloc: Global) -> Waking
        ensures { result ≡ nowhere }
    {
        Waking {
            rebuilt: Vec::new(alloc),
            turned: Vec::new(alloc),
            besides: Vec::new(alloc),
        }
    }

    /// Whether it is nowhere.
    pub fn is_nothing(&self) -> bool
        ensures { result ≡ true → self.now ≡ nowhere }
    {
        self.rebuilt.is_empty() && self.turned.is_empty() && self.besides.is_empty()
    }

    /// How many cells show other than they did. Only costs rest on it.
    pub fn count(&self) -> usize {
        self.rebuilt.len().saturating_add(self.turned.len())
    }
}
