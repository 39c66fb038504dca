//! Tests of a world that threads share: what only calls on several threads can show.
#![tactic(auto)]

#[cfg(test)]
mod audits;
#[cfg(test)]
mod chests;
#[cfg(test)]
mod days;
#[cfg(test)]
mod explaining;
#[cfg(test)]
mod gates;
#[cfg(test)]
mod machines;
#[cfg(test)]
mod marked;
#[cfg(test)]
mod noting;
#[cfg(test)]
mod passes;
#[cfg(test)]
mod refused;
#[cfg(test)]
mod ticks;
#[cfg(test)]
mod torn;
