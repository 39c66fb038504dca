ghost use Rattle.std.specs.Prelude.{◌≡◌, ◌≤◌, length, IfSome, Some};
ghost use Rattle.vx_block.specs.Cut.{all_joined};
ghost use Rattle.vx_block.specs.States.{lamp_words};

/// The state of a lamp. One that loses its power stays lit for a tick more.
#[derive(Clone, Copy, Debug, PartialEq, Eq)]
pub enum Lamp {
    Off,
    Lit,
    Cooling,
}

impl Lamp {
    /// The words of this lamp, joined by a colon.
    pub(crate) fn text(self) -> &'static str
        ensures text { result.now ≡ all_joined (lamp_words self) }
        ensures short { length result.now ≤ 5 }
    {
        match self {
            Lamp::Off => "off:0",
            Lamp::Lit => "on:0",
            Lamp::Cooling => "on:1",
        }
    }

    /// The lamp that has this text, letter for letter.
    pub(crate) fn read(text: &str) -> Option<Lamp>
        ensures found { IfSome result (λ l. all_joined (lamp_words l) ≡ text.now) }
        ensures only { (l : Lamp) → all_joined (lamp_words l) ≡ text.now → result ≡ Some l }
    {
        match text {
            "off:0" => Some(Lamp::Off),
            "on:0" => Some(Lamp::Lit),
            "on:1" => Some(Lamp::Cooling),
            _ => None,
        }
    }
}
