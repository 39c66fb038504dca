//! Whether nobody but the session edits at its desk.
ghost use Rattle.std.specs.Prelude.{◌≡◌, ◌∷◌, ◌++◌, [], List, true};
ghost use Rattle.vx_policy.specs.Asked.{Asked};
ghost use Rattle.vx_session.specs.Sessions.{edits_to};

use vx_board::{Front, Listed};
use vx_keeper::Places;

/// Whether the front has just one edit more than stood accepted.
pub(crate) fn is_next<A: Places>(last: &Option<Listed<A>>, front: &Front<A>) -> bool
    ensures { result ≡ true → (before : List Asked) (edit : Asked)
        → front.now ≡ before ++ edit ∷ [] → before ≡ edits_to last.now }
{
    match last {
        None => front.len() == 1,
        Some(listed) => is_one_more(&listed.front, front),
    }
}

// Whether the longer front has just one edit more than the shorter one, which begins it.
fn is_one_more<A: Places>(shorter: &Front<A>, longer: &Front<A>) -> bool
    ensures { result ≡ true → (before : List Asked) (edit : Asked)
        → longer.now ≡ before ++ edit ∷ [] → before ≡ shorter.now }
{
    if longer.len() <= shorter.len() {
        return false;
    }
    // Made for the proof: the shorter front begins the longer one.
    let _both = longer.longer(shorter);
    longer.len() - shorter.len() == 1
}

/// Whether the front has just the edits that stood accepted.
pub(crate) fn is_last<A: Places>(last: &Option<Listed<A>>, front: &Front<A>) -> bool
    ensures { result ≡ true → front.now ≡ edits_to last.now }
{
    match last {
        None => front.len() == 0,
        Some(listed) => listed.front.is_same(front),
    }
}
