use crate::stage::Stage;
use vx_policy::Edit;
use vx_record::Chronicle;
use vx_sector::Sector;

/// What stands after events: the record, the edits that were accepted, and the sectors, in order of
/// their numbers, each at its stage.
#[derive(Drop)]
pub struct Core {
    pub chronicle: Chronicle,
    pub edits: Vec<Edit>,
    pub sectors: Vec<Sector>,
    pub stages: Vec<Stage>,
}
