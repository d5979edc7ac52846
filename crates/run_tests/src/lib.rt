//! Worked runs of jobs over devices in memory, with a stop at each device call.

#![tactic(auto)]

#[cfg(test)]
mod device_order;
#[cfg(test)]
mod run_rows;
#[cfg(test)]
mod run_stops;
#[cfg(test)]
mod run_transform;
#[cfg(test)]
mod turn_rows;
