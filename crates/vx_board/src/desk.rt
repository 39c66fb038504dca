ghost use Rattle.std.specs.Prelude.{◌≡◌, ◌<◌, ◌≤◌, ◌++◌, ◌∷◌, List, [], None, Ok, length, is_some, IsSome, IfOk, IfErr};
ghost use Rattle.vx_board.specs.Accepted.{IsAnswer, IsRefused};
ghost use Rattle.vx_board.specs.declared.desk.TheConstants.{MAX_VIEWS};
ghost use Rattle.vx_board.specs.declared.view_error.ViewError.TheVariants.{NoView};
ghost use Rattle.vx_policy.specs.Asked.{Asked, asked};
ghost use Rattle.vx_policy.specs.Edits.{after, AreAccepted};

use crate::board::Board;
use crate::first::First;
use crate::front::Front;
use crate::listed::Listed;
use crate::locked::Locked;
use crate::opened::Opened;
use crate::posted::Posted;
use crate::refused::Refused;
use crate::view::View;
use crate::view_error::ViewError;
use left_right::{Absorb, ReadHandleFactory, WriteHandle};
use std::alloc::{AllocError, Global};
use std::sync::{Mutex, Wait};
use vx_policy::{Edit, Policy, Version};

/// A desk has at most so many views at once.
pub const MAX_VIEWS: usize = 64;

/// A desk that threads share. An edit takes its lock; a view takes none.
#[derive(Drop)]
pub struct Desk<J: Board, R: Wait + Drop>
where
    Posted<J>: Absorb<Posted<J>>,
{
    factory: ReadHandleFactory<Posted<J>>,
    start: Front<J>,
    // The first view, until it is handed out. It has a lock, since threads share a desk and not a
    // view.
    pub(crate) first: Option<Mutex<First<J>>>,
    locked: Mutex<Locked<J, R>>,
    ghost no_edit: { start ≡ [] },
}

impl<J: Board, R: Wait + Drop> Desk<J, R> {
    /// A desk on its first policy, with no edit accepted, and with its first view. There may be so
    /// many views of it at once; an edit costs a look at the place of each.
    pub fn new(
        rt: R,
        alloc: Global,
        policy: Policy,
        opened: Opened,
        views: usize,
    ) -> Result<Desk<J, R>, AllocError>
        requires views { (0 < views) × (views ≤ MAX_VIEWS) }
        requires first { policy ≡ J.first }
        requires edits { opened ≡ J.edits }
        ensures { IfOk result (λ desk. IsSome desk.first) }
    {
        let (head, start) = opened.named::<J>();
        let one = Posted::new(policy.try_clone()?, start.again());
        let two = Posted::new(policy.try_clone()?, start.again());
        let again = Posted::new(policy.try_clone()?, start.again());
        let mut writer: WriteHandle<Posted<J>, Posted<J>, R> = WriteHandle::new(
            alloc, rt, one, two, views,
        )?;
        // From now on its log has room.
        if writer.append(again).is_err() {
            return Err(AllocError);
        }
        writer.publish()?;
        let factory = writer.factory()?;
        let view = View::new(factory.handle()?, start.again());
        let locked = Locked::new(alloc, head, start.again(), policy, writer);
        Ok(Desk {
            factory,
            start,
            first: Some(Mutex::new(First { view })),
            locked: Mutex::new(locked),
        })
    }

    /// Accepts an edit or refuses it, as `DeskState::apply` does, by what stands when the lock is
    /// taken. It tells the list that the edit stands last in, or on which it was refused. A view
    /// that learns the answer sees the edit from then on.
    pub fn edit(&self, rt: &impl Wait, alloc: Global, edit: Edit) -> Result<Listed<J>, Refused<J>>
        ensures ok { IfOk result (λ listed. (before : List Asked) × AreAccepted J.first before
            × (listed.front ≡ before ++ asked edit ∷ [])
            × IsAnswer (after J.first before) (length before) (asked edit) (Ok listed.edited)) }
        ensures refused { IfErr result (λ refused. AreAccepted J.first refused.front
            × IsRefused (after J.first refused.front) (length refused.front) (asked edit)
            refused.error) }
    {
        self.locked.lock(rt).edit(rt, alloc, edit)
    }

    /// Accepts an edit or refuses it, as [`Desk::edit`] does, and shows it to no view. A view that
    /// learns the answer tells nothing before the next [`Desk::show`] or [`Desk::edit`]. It is for
    /// who makes many edits before anybody looks: only the first of them copies what views are
    /// shown.
    pub fn accept(&self, rt: &impl Wait, alloc: Global, edit: Edit) -> Result<Listed<J>, Refused<J>>
        ensures ok { IfOk result (λ listed. (before : List Asked) × AreAccepted J.first before
            × (listed.front ≡ before ++ asked edit ∷ [])
            × IsAnswer (after J.first before) (length before) (asked edit) (Ok listed.edited)) }
        ensures refused { IfErr result (λ refused. AreAccepted J.first refused.front
            × IsRefused (after J.first refused.front) (length refused.front) (asked edit)
            refused.error) }
    {
        self.locked.lock(rt).accept(rt, alloc, edit)
    }

    /// Shows views the policy after all edits that stand accepted when the lock is taken.
    // No clause says so: nothing is known of what a lock keeps but its type.
    pub fn show(&self, rt: &impl Wait) {
        self.locked.lock(rt).show(rt);
    }

    /// The version of that number: the policy after the edits that stand accepted when the lock is
    /// taken.
    pub fn fix(&self, rt: &impl Wait, tick: u64) -> Result<Version, AllocError>
        ensures { IfOk result (λ version. (accepted : List Asked) × AreAccepted J.first accepted
            × (version ≡ record {
              tick = tick;
              edits = length accepted;
              policy = after J.first accepted;
            })) }
    {
        self.locked.lock(rt).fix(tick)
    }

    /// A view of the desk, which has seen no edit yet. It takes no lock.
    pub fn view(&self) -> Result<View<J>, ViewError>
        ensures ok { IfOk result (λ view. view ≡ []) }
        ensures err { IfErr result (λ error. error ≡ NoView) }
    {
        let Ok(reader) = self.factory.handle() else {
            return Err(ViewError::NoView);
        };
        Ok(View::new(reader, self.start.again()))
    }

    /// Whether its first view was not handed out yet.
    pub fn has_first(&self) -> bool
        ensures { result ≡ is_some self.now.first }
    {
        self.first.is_some()
    }

    /// Hands out the first view, which has seen no edit yet. It takes no lock.
    pub fn first_view(&mut self) -> View<J>
        requires { IsSome self.old.first }
        ensures view { result ≡ [] }
        ensures taken { self.new.first ≡ None }
    {
        let first = self.first.take().unwrap();
        first.into_inner().view
    }
}
