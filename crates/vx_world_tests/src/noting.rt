use std::sync::atomic::{AtomicU64, Ordering};
use vx_step::{Gate, Phase, Point};

/// How many sectors the worlds of these tests have at most.
pub const SECTORS: usize = 3;

/// A gate that notes how often each sector came to each point.
#[derive(Drop)]
pub struct Noting {
    held: [AtomicU64; SECTORS],
    parts: [AtomicU64; SECTORS],
    fates: [AtomicU64; SECTORS],
    cells: [AtomicU64; SECTORS],
}

impl Noting {
    pub fn new() -> Noting {
        Noting {
            held: none_yet(),
            parts: none_yet(),
            fates: none_yet(),
            cells: none_yet(),
        }
    }

    /// Whether each sector was worked once for its parts and once for the fates of moves. What is
    /// put down is put down where the sectors stand, so the third phase has no piece in a world.
    pub fn has_each_once(&self) -> bool {
        are_all(&self.held, 0)
            && are_all(&self.parts, 1)
            && are_all(&self.fates, 1)
            && are_all(&self.cells, 0)
    }

    /// Whether the sector of that number was held once, and no other.
    pub fn has_held(&self, sector: i32) -> bool {
        for at in 0..SECTORS {
            let due = if at as i32 == sector { 1 } else { 0 };
            if count(&self.held[at]) != due {
                return false;
            }
        }
        true
    }
}

fn none_yet() -> [AtomicU64; SECTORS] {
    [AtomicU64::new(0), AtomicU64::new(0), AtomicU64::new(0)]
}

fn count(word: &AtomicU64) -> u64 {
    word.load(Ordering::SeqCst)
}

fn are_all(words: &[AtomicU64; SECTORS], due: u64) -> bool {
    words.iter().all(|word| count(word) == due)
}

impl Gate for Noting {
    fn at(&self, sector: u32, point: Point) {
        let words = match point {
            Point::Held => &self.held,
            Point::Working(Phase::Parts) => &self.parts,
            Point::Working(Phase::Fates) => &self.fates,
            Point::Working(Phase::Cells) => &self.cells,
        };
        // A sector of no such world is noted nowhere, and so is missing.
        if let Some(word) = words.get(sector as usize) {
            word.fetch_add(1, Ordering::SeqCst);
        }
    }
}
