/// What a subject is to a region (docs/RULES.md).
#[derive(Clone, Copy, Debug, PartialEq, Eq)]
pub enum Association {
    Owner,
    Member,
    Stranger,
}
