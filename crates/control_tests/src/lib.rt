//! Worked pages of the control file, and what it says after each stop.

#![tactic(auto)]

#[cfg(test)]
mod bodies;
#[cfg(test)]
mod control_rows;
#[cfg(test)]
mod control_stops;
#[cfg(test)]
mod page_rows;
#[cfg(test)]
mod stop_cases;
