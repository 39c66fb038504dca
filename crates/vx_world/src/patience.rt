use std::hint::spin_loop;
use std::sync::{Mutex, MutexGuard, Wait};

// How often a lock is tried, each time after twice the pause before: some tens of microseconds in
// all, or hundreds where the processor pauses longer.
const TRIES: u32 = 10;

/// Takes a lock that is mostly held for less than a microsecond: it is tried for some time before
/// the thread sleeps, since to sleep and to be woken takes longer. Whoever tries a lock takes its
/// memory from who holds it, so where many want it they try less and less often.
pub fn patiently<'a, T, R: Wait>(rt: &R, lock: &'a Mutex<T>) -> MutexGuard<'a, T> {
    for tried in 0..TRIES {
        if let Some(guard) = lock.try_lock() {
            return guard;
        }
        for _ in 0..8_u32 << tried {
            spin_loop();
        }
    }
    lock.lock(rt)
}
