//! Commands over real files. Each test makes itself an empty folder first.

#![tactic(auto)]

#[cfg(test)]
mod damaged_files;
#[cfg(test)]
mod full_disk;
#[cfg(test)]
mod job_files;
#[cfg(test)]
mod large_carry;
#[cfg(test)]
mod large_lists;
#[cfg(test)]
mod stopped_runs;
