//! Worked runs of sessions, and drills, over devices in memory.

#![tactic(auto)]

#[cfg(test)]
mod drill_rows;
#[cfg(test)]
mod drills;
#[cfg(test)]
mod large_drill;
#[cfg(test)]
mod session_rows;
#[cfg(test)]
mod transform_rows;
