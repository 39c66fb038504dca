ghost use Rattle.vx_decide.specs.Cases.{case_of};
ghost use Rattle.vx_decide.specs.Tops.{IsBest};

use crate::inquiry::Inquiry;
use crate::question::Question;

/// A question that an inquiry puts to the regions, with the highest priority of one that counts on
/// it.
#[derive(Drop)]
pub struct Contest<'a> {
    pub inquiry: &'a Inquiry<'a>,
    pub question: Question,
    pub best: Option<i32>,
    ghost highest: { IsBest question (case_of inquiry.now) best },
}
