//! The bytes that stand for cells: each of the 165 cells has one, below 165.
ghost use Rattle.std.specs.Prelude.{◌≡◌, ◌+◌, ◌*◌, ◌/◌, ◌<◌, ◌≤◌};
ghost use Rattle.vx_block.specs.Components.{is_dust, is_device, is_component};
ghost use Rattle.vx_block.specs.Conductors.{conducts};
ghost use Rattle.vx_block.specs.declared.cell.Cell.TheVariants.{Torch, Lever, Piston, Head};
ghost use Rattle.vx_store.specs.Codes.{code_count, is_odd, plain_at, side_at, mount_at, dir_at, delay_at, wait_at, repeater_at, lamp_at, cell_with_state, cell_of, is_chest};
ghost use Rattle.vx_block.specs.States.{ticks_of};

use vx_block::{Cell, Delay, Lamp, Level, Mount, Repeater, Side};
use vx_geom::Dir;

/// The byte of air.
pub const AIR: u8 = 0;

/// The cell of that byte.
#[tactic(auto, unfolding(crate::specs::Codes::cell_of))]
pub fn decode(code: u8) -> Cell
    requires { code < code_count }
    ensures { result ≡ cell_of code }
{
    if code < 8 {
        return plain(code);
    }
    decode_state(code)
}

/// Whether that byte is a chest's.
#[tactic(auto, using(crate::proofs::CodeLemmas::chest_code))]
pub fn is_chest(code: u8) -> bool
    requires { code < code_count }
    ensures { result ≡ is_chest (cell_of code) }
{
    code == 7
}

/// Whether that byte is dust's.
#[tactic(auto, using(crate::proofs::CodeLemmas::dust_code))]
pub fn is_dust(code: u8) -> bool
    requires { code < code_count }
    ensures { result ≡ is_dust (cell_of code) }
{
    8 <= code && code < 24
}

/// Whether that byte is a device's: a torch's, a lever's, a repeater's, a lamp's or a piston's.
#[tactic(auto, using(crate::proofs::CodeLemmas::device_code))]
pub fn is_device(code: u8) -> bool
    requires { code < code_count }
    ensures { result ≡ is_device (cell_of code) }
{
    24 <= code && code < 153
}

/// Whether that byte is a component's: dust's or a device's.
#[tactic(auto, using(crate::proofs::CodeLemmas::component_code))]
pub fn is_component(code: u8) -> bool
    requires { code < code_count }
    ensures { result ≡ is_component (cell_of code) }
{
    8 <= code && code < 153
}

/// Whether that byte is a conductor's.
#[tactic(auto, using(crate::proofs::CodeLemmas::conductor_code))]
pub fn conducts(code: u8) -> bool
    requires { code < code_count }
    ensures { result ≡ conducts (cell_of code) }
{
    0 < code && code < 4 || 4 < code && code < 7 || 126 <= code && code < 129
}

fn plain(code: u8) -> Cell
    ensures { result ≡ plain_at code }
{
    match code {
        0 => Cell::Air,
        1 => Cell::Stone,
        2 => Cell::Dirt,
        3 => Cell::Planks,
        4 => Cell::Glass,
        5 => Cell::Obsidian,
        6 => Cell::Bedrock,
        _ => Cell::Chest,
    }
}

// The cell with state of that byte, kind by kind.
#[tactic(auto, unfolding(crate::specs::Codes::cell_with_state))]
fn decode_state(code: u8) -> Cell
    requires stated { 8 ≤ code }
    requires within { code < code_count }
    ensures { result ≡ cell_with_state code }
{
    if code < 24 {
        return Cell::Dust(Level::new(code - 8));
    }
    if code < 34 {
        return torch(code - 24);
    }
    if code < 46 {
        return lever(code - 34);
    }
    if code < 126 {
        return Cell::Repeater(repeater(code - 46));
    }
    if code < 129 {
        return Cell::Lamp(lamp(code - 126));
    }
    if code < 141 {
        return piston(code - 129, false);
    }
    if code < 153 {
        return piston(code - 141, true);
    }
    head(code - 153)
}

fn torch(code: u8) -> Cell
    ensures { result ≡ Torch (mount_at (code / 2)) (is_odd code) }
{
    Cell::Torch {
        facing: mount(code / 2),
        lit: code % 2 == 1,
    }
}

fn lever(code: u8) -> Cell
    ensures { result ≡ Lever (dir_at (code / 2)) (is_odd code) }
{
    Cell::Lever {
        facing: dir(code / 2),
        on: code % 2 == 1,
    }
}

fn repeater(code: u8) -> Repeater
    requires { code < 80 }
    ensures { result ≡ repeater_at code }
{
    let count = code / 2 % 10;
    Repeater::new(side(code / 20), delay(count), code % 2 == 1, wait(count))
}

fn piston(code: u8, sticky: bool) -> Cell
    ensures { result ≡ Piston (dir_at (code / 2)) sticky (is_odd code) }
{
    Cell::Piston {
        facing: dir(code / 2),
        sticky,
        extended: code % 2 == 1,
    }
}

fn head(code: u8) -> Cell
    ensures { result ≡ Head (dir_at (code / 2)) (is_odd code) }
{
    Cell::Head {
        facing: dir(code / 2),
        sticky: code % 2 == 1,
    }
}

fn side(code: u8) -> Side
    ensures { result ≡ side_at code }
{
    match code {
        0 => Side::East,
        1 => Side::West,
        2 => Side::South,
        _ => Side::North,
    }
}

fn mount(code: u8) -> Mount
    ensures { result ≡ mount_at code }
{
    if code == 0 {
        return Mount::Floor;
    }
    Mount::Wall(side(code - 1))
}

fn dir(code: u8) -> Dir
    ensures { result ≡ dir_at code }
{
    match code {
        0 => Dir::East,
        1 => Dir::West,
        2 => Dir::Up,
        3 => Dir::Down,
        4 => Dir::South,
        _ => Dir::North,
    }
}

fn delay(count: u8) -> Delay
    ensures { result ≡ delay_at count }
{
    if count == 0 {
        return Delay::One;
    }
    if count < 3 {
        return Delay::Two;
    }
    if count < 6 {
        return Delay::Three;
    }
    Delay::Four
}

fn wait(count: u8) -> u8
    requires { count < 10 }
    ensures value { result ≡ wait_at count }
    ensures least { result < ticks_of (delay_at count) }
{
    if count == 0 {
        return 0;
    }
    if count < 3 {
        return count - 1;
    }
    if count < 6 {
        return count - 3;
    }
    count - 6
}

fn lamp(code: u8) -> Lamp
    ensures { result ≡ lamp_at code }
{
    match code {
        0 => Lamp::Off,
        1 => Lamp::Lit,
        _ => Lamp::Cooling,
    }
}

/// The byte of that cell.
#[tactic(auto, unfolding(crate::specs::Codes::cell_of, crate::specs::Codes::cell_with_state))]
pub fn encode(cell: Cell) -> u8
    ensures cell { cell_of result ≡ cell }
    ensures within { result < code_count }
{
    match cell {
        Cell::Air => AIR,
        Cell::Stone => 1,
        Cell::Dirt => 2,
        Cell::Planks => 3,
        Cell::Glass => 4,
        Cell::Obsidian => 5,
        Cell::Bedrock => 6,
        Cell::Chest => 7,
        Cell::Dust(level) => 8 + level.value(),
        Cell::Torch { facing, lit } => 24 + two(mount_code(facing), lit),
        Cell::Lever { facing, on } => 34 + two(dir_code(facing), on),
        Cell::Repeater(repeater) => 46 + repeater_code(repeater),
        Cell::Lamp(lamp) => 126 + lamp_code(lamp),
        Cell::Piston {
            facing,
            sticky,
            extended,
        } => piston_code(two(dir_code(facing), extended), sticky),
        Cell::Head { facing, sticky } => 153 + two(dir_code(facing), sticky),
    }
}

// A code and a bit, as one number.
fn two(code: u8, bit: bool) -> u8
    requires { code < 100 }
    ensures code { result / 2 ≡ code }
    ensures bit { is_odd result ≡ bit }
    ensures most { result < 2 * code + 2 }
{
    if bit { 2 * code + 1 } else { 2 * code }
}

#[tactic(auto, unfolding(crate::specs::Codes::cell_of, crate::specs::Codes::cell_with_state))]
fn piston_code(code: u8, sticky: bool) -> u8
    requires { code < 12 }
    ensures cell { cell_of result ≡ Piston (dir_at (code / 2)) sticky (is_odd code) }
    ensures within { result < code_count }
{
    if sticky { 141 + code } else { 129 + code }
}

fn repeater_code(repeater: Repeater) -> u8
    ensures value { repeater_at result ≡ repeater }
    ensures most { result < 80 }
{
    let count = delay_code(repeater.delay(), repeater.wait());
    two(10 * side_code(repeater.facing()) + count, repeater.is_on())
}

// The number of a delay and what is left of a count.
fn delay_code(delay: Delay, wait: u8) -> u8
    requires { wait < ticks_of delay }
    ensures delay { delay_at result ≡ delay }
    ensures wait { wait_at result ≡ wait }
    ensures most { result < 10 }
{
    match delay {
        Delay::One => 0,
        Delay::Two => 1 + wait,
        Delay::Three => 3 + wait,
        Delay::Four => 6 + wait,
    }
}

fn side_code(side: Side) -> u8
    ensures value { side_at result ≡ side }
    ensures most { result < 4 }
{
    match side {
        Side::East => 0,
        Side::West => 1,
        Side::South => 2,
        Side::North => 3,
    }
}

fn mount_code(mount: Mount) -> u8
    ensures value { mount_at result ≡ mount }
    ensures most { result < 5 }
{
    match mount {
        Mount::Floor => 0,
        Mount::Wall(side) => 1 + side_code(side),
    }
}

fn dir_code(dir: Dir) -> u8
    ensures value { dir_at result ≡ dir }
    ensures most { result < 6 }
{
    match dir {
        Dir::East => 0,
        Dir::West => 1,
        Dir::Up => 2,
        Dir::Down => 3,
        Dir::South => 4,
        Dir::North => 5,
    }
}

fn lamp_code(lamp: Lamp) -> u8
    ensures value { lamp_at result ≡ lamp }
    ensures most { result < 3 }
{
    match lamp {
        Lamp::Off => 0,
        Lamp::Lit => 1,
        Lamp::Cooling => 2,
    }
}
