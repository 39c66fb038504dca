//! Tests of what only a call can show, of ticks on several threads, of the core machine and of the
//! record of calls. They stand apart from those of `vx_tests`, which are proved while the crates of
//! machines are.
#![tactic(auto)]

#[cfg(test)]
mod calls;
#[cfg(test)]
mod events;
#[cfg(test)]
mod machines;
#[cfg(test)]
mod maps;
#[cfg(test)]
mod played;
#[cfg(test)]
mod same;
#[cfg(test)]
mod scripts;
#[cfg(test)]
mod ticks;
#[cfg(test)]
mod woken;
