ghost use Rattle.std.specs.Prelude.{◌≡◌, ◌<◌, length, IfSome};
ghost use Rattle.vx_name.specs.Texts.{texts};
ghost use Rattle.vx_play.specs.Plays.{number_from};

use vx_region::Name;

/// The number of the name in the list, counted from 0.
pub fn number_of(names: &[Name], name: &Name) -> Option<usize>
    ensures value { result ≡ number_from 0 (texts names.now) name.now.text.bytes }
    ensures within { IfSome result (λ number. number < length names.now) }
{
    for (number, other) in names.iter().enumerate() {
        if other == name {
            return Some(number);
        }
    }
    None
}
