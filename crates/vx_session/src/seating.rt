//! Who has which seat.
ghost use Rattle.std.specs.Prelude.{◌≡◌};
ghost use Rattle.vx_play.specs.Plays.{number_from};
ghost use Rattle.vx_session.specs.Sessions.{names_of};

use crate::session::Session;
use vx_keeper::Places;
use vx_region::Name;
use vx_world::Seats;

impl<A: Places, B: Seats> Session<A, B> {
    /// The number of the seat of the player of that name.
    #[inline(always)]
    pub fn seat_of(&self, name: &Name) -> Option<u8>
        ensures { result ≡ number_from 0 (names_of self.now) name.now.text.bytes }
    {
        let place = self.names.number_of(name)?;
        Some(self.players[place].pass.seat().number)
    }
}
