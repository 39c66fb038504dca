use crate::mark::Mark;

/// Where deeds differ from the record: the seat and the sector of the first call that does, or 0
/// and 0 where it is no call.
#[derive(Clone, Copy, Debug, PartialEq, Eq)]
pub struct Difference {
    pub seat: u8,
    pub sector: u32,
}

impl Difference {
    // The first of these marks differs, if one is left.
    pub(crate) fn at(marks: &[Mark]) -> Difference {
        match marks {
            [Mark::Call { seat, sector }, ..] => Difference {
                seat: *seat,
                sector: u32::from(sector.unwrap_or(0)),
            },
            _ => Difference { seat: 0, sector: 0 },
        }
    }
}
