ghost use Rattle.std.specs.Prelude.{◌≡◌, ◌≤◌, length, IfSome, Some};
ghost use Rattle.vx_block.specs.Kind.{kind_word};

use vx_base::is_spelled;

/// What a cell is, whatever its state. Each kind has one word, with which the texts of its cells
/// and parts begin.
#[derive(Clone, Copy, Debug, PartialEq, Eq)]
pub enum Kind {
    Air,
    Stone,
    Dirt,
    Planks,
    Glass,
    Obsidian,
    Bedrock,
    Chest,
    Dust,
    Torch,
    Lever,
    Repeater,
    Lamp,
    Piston,
    StickyPiston,
    Head,
}

// All kinds, in the order in which they stand above.
const KINDS: [Kind; 16] = [
    Kind::Air,
    Kind::Stone,
    Kind::Dirt,
    Kind::Planks,
    Kind::Glass,
    Kind::Obsidian,
    Kind::Bedrock,
    Kind::Chest,
    Kind::Dust,
    Kind::Torch,
    Kind::Lever,
    Kind::Repeater,
    Kind::Lamp,
    Kind::Piston,
    Kind::StickyPiston,
    Kind::Head,
];

impl Kind {
    /// The word of this kind, in lower case.
    pub fn word(self) -> &'static str
        ensures word { result.now ≡ kind_word self }
        ensures short { length result.now ≤ 8 }
    {
        match self {
            Kind::Air => "air",
            Kind::Stone => "stone",
            Kind::Dirt => "dirt",
            Kind::Planks => "planks",
            Kind::Glass => "glass",
            Kind::Obsidian => "obsidian",
            Kind::Bedrock => "bedrock",
            Kind::Chest => "chest",
            Kind::Dust => "dust",
            Kind::Torch => "torch",
            Kind::Lever => "lever",
            Kind::Repeater => "repeater",
            Kind::Lamp => "lamp",
            Kind::Piston => "piston",
            Kind::StickyPiston => "sticky",
            Kind::Head => "head",
        }
    }

    /// The kind that has this word, letter for letter.
    pub fn read(word: &str) -> Option<Kind>
        ensures found { IfSome result (λ k. kind_word k ≡ word.now) }
        ensures only { (k : Kind) → kind_word k ≡ word.now → result ≡ Some k }
    {
        for kind in &KINDS {
            if is_spelled(word.as_bytes(), kind.word().as_bytes()) {
                return Some(*kind);
            }
        }
        None
    }
}
