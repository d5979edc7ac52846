//! The program's own run over real files, and batches, mirrors and transforms with it. Each test makes itself an empty folder first.

#![tactic(auto)]

#[cfg(test)]
mod batch_runs;
#[cfg(test)]
mod large_kinds;
#[cfg(test)]
mod mirrored_files;
#[cfg(test)]
mod program;
#[cfg(test)]
mod standard_streams;
