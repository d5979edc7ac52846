//! Worked transforms over chosen bits, by the one call, over disks in memory.

#![tactic(auto)]

#[cfg(test)]
mod calling;
#[cfg(test)]
mod kind_rows;
#[cfg(test)]
mod refusals;
#[cfg(test)]
mod round_trips;
