ghost use Rattle.std.specs.Prelude.{◌≡◌, ◌+◌, ◌*◌, length};

use std::sync::ledger::Blank;
use vx_keeper::Known;
use vx_record::Opening;
use vx_stamp::Opened;

/// The books of a world before any type names them: that of its sectors, that of its passes, and
/// that of its keeper's marks. A world is opened in a function that is generic in their names, and
/// its caller picks these by the blanks.
#[derive(Drop)]
pub struct Blanks {
    pub places: Blank,
    pub seats: Blank,
    pub marks: Opened<Known>,
}

impl Blanks {
    /// The books of a world that opens so: a part of the sectors' ledger for each sector and for
    /// the reserve of each pass, and two of the passes' ledger for each pass. It takes no memory.
    pub fn new(opening: &Opening) -> Blanks
        ensures places { result.places.parts
            ≡ length opening.now.terrain.sectors + length opening.now.names }
        ensures seats { result.seats.parts ≡ 2 * length opening.now.names }
    {
        opening.soundness();
        let sectors = opening.terrain().sectors().len() as u64;
        let seats = opening.names().len() as u64;
        Blanks {
            places: Blank::new(sectors + seats),
            seats: Blank::new(2 * seats),
            marks: Opened::new(),
        }
    }
}
