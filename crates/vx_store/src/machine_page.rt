ghost use Rattle.std.specs.Prelude.{◌≡◌, ◌<◌};
ghost use Rattle.vx_store.specs.Codes.{code_count};
ghost use Rattle.vx_store.specs.MachineMarks.{words_of, blank_page, AreMarksSet};
ghost use Rattle.vx_marks.specs.declared.page.TheConstants.{PAGE};

use crate::code::{is_component, is_device};
use crate::mark_kind::MarkKind;
use std::alloc::AllocError;
use std::marker::Model;
use vx_marks::Page;

/// Where components of machines stand among 4,096 cells, and which of them are devices.
#[derive(Drop)]
pub struct MachinePage {
    components: Page,
    devices: Page,
}

impl Model for MachinePage {
    ghost use Rattle.vx_store.specs.MachineMarks.{MarkWords};

    ghost Value = { MarkWords };

    ghost view = { λ p. record { components = p.components; devices = p.devices } };
}

impl MachinePage {
    /// A page with nothing marked. It takes no memory.
    #[tactic(auto, unfolding(crate::specs::MachineMarks::blank_page))]
    pub fn new() -> MachinePage
        ensures { result ≡ blank_page }
    {
        MachinePage {
            components: Page::new(),
            devices: Page::new(),
        }
    }

    /// The marks of a kind.
    #[inline(always)]
    pub fn of(&self, kind: MarkKind) -> &Page
        ensures { result.now ≡ words_of kind self.now }
    {
        match kind {
            MarkKind::Component => &self.components,
            MarkKind::Device => &self.devices,
        }
    }

    /// Marks an index as a byte that is put down there wants it. It takes no memory.
    pub fn set(&mut self, index: u32, code: u8)
        requires index { index < PAGE }
        requires code { code < code_count }
        ensures { AreMarksSet self.old self.new index code }
    {
        self.components.set(index, is_component(code));
        self.devices.set(index, is_device(code));
    }
}

impl Clone for MachinePage {
    ghost is_clone = { λ page copy. copy ≡ page };

    fn clone(&self) -> Result<MachinePage, AllocError> {
        Ok(MachinePage {
            components: self.components.clone()?,
            devices: self.devices.clone()?,
        })
    }
}
