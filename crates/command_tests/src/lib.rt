//! Worked commands over devices in memory.

#![tactic(auto)]

#[cfg(test)]
mod carry_rows;
#[cfg(test)]
mod detect_round_trips;
#[cfg(test)]
mod detect_rows;
#[cfg(test)]
mod drill_rows;
#[cfg(test)]
mod fault_rows;
#[cfg(test)]
mod flip_rows;
#[cfg(test)]
mod job_rows;
#[cfg(test)]
mod large_rows;
#[cfg(test)]
mod map_rows;
#[cfg(test)]
mod session_rows;
#[cfg(test)]
mod steps;
#[cfg(test)]
mod transform_rows;
