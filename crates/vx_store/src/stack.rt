/// What a slot of a chest may hold: 1 to 64 of one item. Items go by their numbers.
#[derive(Clone, Copy, Debug, PartialEq, Eq)]
pub struct Stack {
    pub item: u16,
    pub count: u8,
}

/// A slot of a chest: empty, or a stack.
pub type Slot = Option<Stack>;

/// How many of one item a slot holds at most.
pub const MAX_COUNT: u8 = 64;

/// How many slots a chest has.
pub const SLOTS: usize = 27;
