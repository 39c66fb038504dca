ghost use Rattle.std.specs.Prelude.{◌≡◌, true, false, None, Ok, Err, IfOk};

use crate::fault::Fault;
use std::alloc::{AllocError, Global};
use std::marker::Model;
use vx_block::Part;
use vx_cells::Whole;
use vx_geom::{Bounds, Pos};
use vx_grammar::Line;
use vx_play::number_of;
use vx_policy::Policy;
use vx_record::{Opening, OpeningError};
use vx_region::Name;

/// The header of a script: the world as it opens, as far as it was read.
#[derive(Drop)]
pub struct Header {
    terrain: Option<Whole>,
    names: Vec<Name>,
}

impl Model for Header {
    ghost use Rattle.vx_name.specs.Texts.{texts};
    ghost use Rattle.vx_script.specs.Headers.{Opening};

    ghost Value = { Opening };

    ghost view = { λ a. record { terrain = a.terrain; names = texts a.names.items } };
}

impl Header {
    ghost use Rattle.std.specs.Prelude.{Some, IfSome, IfErr, option_map};
    ghost use Rattle.vx_grammar.specs.ScriptLines.{said};
    ghost use Rattle.vx_grammar.specs.ScriptLines.{Said};
    ghost use Rattle.vx_play.specs.Plays.{is_named};
    ghost use Rattle.vx_script.specs.Faults.{IsOwn, IsOfRun};
    ghost use Rattle.vx_script.specs.Headers as headers;
    ghost use Rattle.vx_script.specs.Headers.{HeaderEnd, Faulty, header_line, no_opening, header_after, with_size, with_player, with_cell_set, begun, is_peopled};

    /// Nothing read yet.
    pub fn new(alloc: Global) -> Header
        ensures { result ≡ no_opening }
    {
        Header {
            terrain: None,
            names: Vec::new(alloc),
        }
    }

    /// Takes the next line of a script in its header. Answers the line where it is one of the body
    /// that may stand there; then the world is to be made.
    #[tactic(auto, unfolding(crate::specs::Headers::header_line))]
    pub fn take_line(
        &mut self,
        alloc: Global,
        line: Option<Line>,
        number: u32,
    ) -> Result<Option<Line>, Fault>
        ensures next { result ≡ Ok None
            → (go : headers.Opening → HeaderEnd) (first : Said → HeaderEnd)
            → header_line self.old number (option_map said line) go first ≡ go self.new }
        ensures first { IfOk result (λ begin. IfSome begin (λ line_of_body. (self.new ≡ self.old)
            × ((go : headers.Opening → HeaderEnd) (first : Said → HeaderEnd)
            → header_line self.old number (option_map said line) go first
            ≡ first (said line_of_body)))) }
        ensures err { (fault : Fault) → result ≡ Err fault → IsOwn fault
            → (go : headers.Opening → HeaderEnd) (first : Said → HeaderEnd)
            → header_line self.old number (option_map said line) go first ≡ Faulty fault }
        ensures fault { IfErr result IsOfRun }
    {
        match line {
            None => Err(Fault::Syntax(number)),
            Some(Line::As(name, cmd)) => {
                if !self.has_player(&name) {
                    return Err(Fault::Syntax(number));
                }
                Ok(Some(Line::As(name, cmd)))
            }
            Some(Line::Region(edit)) => {
                if !self.is_peopled() {
                    return Err(Fault::Syntax(number));
                }
                Ok(Some(Line::Region(edit)))
            }
            Some(Line::Tick) => {
                if !self.is_peopled() {
                    return Err(Fault::Syntax(number));
                }
                Ok(Some(Line::Tick))
            }
            Some(Line::Together) => {
                if !self.is_peopled() {
                    return Err(Fault::Syntax(number));
                }
                Ok(Some(Line::Together))
            }
            Some(Line::Explain(name, action, p)) => {
                if !self.has_player(&name) {
                    return Err(Fault::Syntax(number));
                }
                Ok(Some(Line::Explain(name, action, p)))
            }
            Some(line) => {
                if !self.take(alloc, &line)? {
                    return Err(Fault::Syntax(number));
                }
                Ok(None)
            }
        }
    }

    // Takes a line of the header; `Ok(false)` where it may not stand there.
    #[tactic(auto, unfolding(crate::specs::Headers::header_after))]
    fn take(&mut self, alloc: Global, line: &Line) -> Result<bool, AllocError>
        ensures taken { result ≡ Ok true → header_after self.old (said line.now) ≡ Some self.new }
        ensures refused { result ≡ Ok false → header_after self.old (said line.now) ≡ None }
    {
        match line {
            Line::Skipped => Ok(true),
            Line::World(bounds) => self.take_size(alloc, *bounds),
            Line::Player(name) => self.take_player(name),
            Line::Set(p, part) => self.take_part(*p, *part),
            Line::As(_, _)
            | Line::Region(_)
            | Line::Tick
            | Line::Explain(_, _, _)
            | Line::Together
            | Line::End => Ok(false),
        }
    }

    // Whether the player of that name was named.
    fn has_player(&self, name: &Name) -> bool
        ensures { result ≡ is_named self.now.names name.now.text.bytes }
    {
        number_of(&self.names, name).is_some()
    }

    /// Whether there is a world with a player in it.
    pub fn is_peopled(&self) -> bool
        ensures { result ≡ is_peopled self.now }
    {
        self.terrain.is_some() && !self.names.is_empty()
    }

    /// How the world opens under this policy, at the line of that number.
    #[tactic(auto, unfolding(crate::specs::Headers::begun))]
    pub fn into_opening(self, policy: Policy, number: u32) -> Result<Opening, Fault>
        ensures ok { IfOk result (λ opening. begun policy self number ≡ Ok opening) }
        ensures err { IfErr result (λ fault. begun policy self number ≡ Err fault) }
        ensures fault { IfErr result IsOfRun }
    {
        let Header { terrain, names } = self;
        let Some(terrain) = terrain else {
            return Err(Fault::Syntax(number));
        };
        match Opening::of(terrain, names, policy) {
            Ok(opening) => Ok(opening),
            Err(OpeningError::TooManyPlayers) => Err(Fault::TooManyPlayers),
            Err(OpeningError::NoMemory) => Err(Fault::NoMemory),
        }
    }

    fn take_size(&mut self, alloc: Global, bounds: Bounds) -> Result<bool, AllocError>
        ensures taken { result ≡ Ok true
            → with_size self.old bounds self.old.terrain ≡ Some self.new }
        ensures refused { result ≡ Ok false → with_size self.old bounds self.old.terrain ≡ None }
    {
        if self.terrain.is_some() {
            return Ok(false);
        }
        self.terrain = Some(Whole::new(alloc, bounds)?);
        Ok(true)
    }

    fn take_player(&mut self, name: &Name) -> Result<bool, AllocError>
        ensures taken { result ≡ Ok true
            → with_player self.old name.now.text.bytes ≡ Some self.new }
        ensures refused { result ≡ Ok false → with_player self.old name.now.text.bytes ≡ None }
    {
        if self.terrain.is_none() || number_of(&self.names, name).is_some() {
            return Ok(false);
        }
        self.names.push(*name)?;
        Ok(true)
    }

    #[tactic(auto, unfolding(crate::specs::Headers::with_cell_set))]
    fn take_part(&mut self, p: Pos, part: Part) -> Result<bool, AllocError>
        ensures taken { result ≡ Ok true → with_cell_set self.old p part ≡ Some self.new }
        ensures refused { result ≡ Ok false → with_cell_set self.old p part ≡ None }
    {
        match &mut self.terrain {
            Some(terrain) => terrain.set(p, part.cell()),
            None => Ok(false),
        }
    }
}
