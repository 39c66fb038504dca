ghost use Rattle.std.specs.Bool.{Decides};
ghost use Rattle.std.specs.Prelude.{◌≡◌, Some, None};
ghost use Rattle.vx_flag.specs.Settings.{no_settings, setting_of, with_setting};

use crate::flag::{FLAGS, Flag};
use crate::setting::Setting;
use std::marker::Model;

/// What is set for each flag, if anything.
#[derive(Clone, Copy, Debug)]
pub struct Settings {
    by_flag: [Option<Setting>; FLAGS],
}

impl Model for Settings {
    ghost use Rattle.std.specs.Prelude.{◌≡◌, List, Option, length};
    ghost use Rattle.vx_flag.specs.Flag.{flags};
    ghost use Rattle.vx_flag.specs.declared.setting.Setting.{Setting};

    ghost Value = { List (Option Setting) };

    ghost view = { λ a. a.by_flag };

    ghost invariant = { λ a. length a.by_flag ≡ length flags };

    ghost inverse = { λ s. record { by_flag = s } };
}

impl Settings {
    /// No flag is set.
    pub fn new() -> Settings
        ensures { result ≡ no_settings }
    {
        Settings {
            by_flag: [None; FLAGS],
        }
    }

    /// What is set for the flag.
    pub fn get(&self, flag: Flag) -> Option<Setting>
        ensures { result ≡ setting_of self.now flag }
    {
        self.by_flag[flag.index()]
    }

    /// Sets the flag, in place of what was set for it before.
    pub fn set(&mut self, flag: Flag, setting: Setting)
        ensures { self.new ≡ with_setting self.old flag (Some setting) }
    {
        self.put(flag, Some(setting));
    }

    /// Leaves the flag unset.
    pub fn clear(&mut self, flag: Flag)
        ensures { self.new ≡ with_setting self.old flag None }
    {
        self.put(flag, None);
    }

    fn put(&mut self, flag: Flag, setting: Option<Setting>)
        ensures { self.new ≡ with_setting self.old flag setting }
    {
        self.by_flag[flag.index()] = setting;
    }
}

impl PartialEq for Settings {
    ghost use Rattle.std.specs.Cmp.{partial_equiv_from_equiv};
    ghost use Rattle.vx_flag.specs.SameSettings.{same_settings};
    ghost use Rattle.vx_flag.specs.SettingsLaws.{settings_equiv};

    ghost eq = { same_settings };

    ghost laws = { partial_equiv_from_equiv settings_equiv };

    #[tactic(auto, unfolding(crate::specs::SameSettings::same_settings))]
    fn eq(&self, other: &Settings) -> bool
        ensures value { result ≡ same_settings self.now other.now }
        ensures decides { Decides result (self.now ≡ other.now) }
    {
        self.by_flag == other.by_flag
    }
}

impl Eq for Settings {
    ghost use Rattle.vx_flag.specs.SettingsLaws.{settings_equiv};

    ghost laws = { settings_equiv };
}
