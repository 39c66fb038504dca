ghost use Rattle.std.specs.Prelude.{◌≡◌};
ghost use Rattle.vx_flag.specs.SameSettings.{same_state, same_group};

use crate::group::Group;
use crate::state::State;

/// What is set for one flag: a state, and the group of those for whom it is set.
#[derive(Clone, Copy, Debug)]
pub struct Setting {
    pub state: State,
    pub group: Group,
}

impl PartialEq for Setting {
    ghost use Rattle.std.specs.Cmp.{partial_equiv_from_equiv};
    ghost use Rattle.vx_flag.specs.SameSettings.{same_setting};
    ghost use Rattle.vx_flag.specs.SettingsLaws.{setting_equiv};

    ghost eq = { same_setting };

    ghost laws = { partial_equiv_from_equiv setting_equiv };

    fn eq(&self, other: &Setting) -> bool {
        same_state(self.state, other.state) && same_group(self.group, other.group)
    }
}

impl Eq for Setting {
    ghost use Rattle.vx_flag.specs.SettingsLaws.{setting_equiv};

    ghost laws = { setting_equiv };
}

fn same_state(a: State, b: State) -> bool
    ensures { result ≡ same_state a b }
{
    a == b
}

fn same_group(a: Group, b: Group) -> bool
    ensures { result ≡ same_group a b }
{
    a == b
}
