//! Worked commands over mirrors of devices in memory.

#![tactic(auto)]

#[cfg(test)]
mod calling;
#[cfg(test)]
mod faults;
#[cfg(test)]
mod refusals;
#[cfg(test)]
mod sessions;
#[cfg(test)]
mod stops;
