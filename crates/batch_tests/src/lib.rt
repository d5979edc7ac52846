//! Worked batches of three jobs over devices in memory, with failing calls and stops.

#![tactic(auto)]

#[cfg(test)]
mod batches;
#[cfg(test)]
mod failures;
#[cfg(test)]
mod orders;
#[cfg(test)]
mod stops;
