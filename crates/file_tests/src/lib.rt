//! Tests of the devices over real files. Each makes itself an empty folder first.

#![tactic(auto)]

#[cfg(test)]
mod folders;
#[cfg(test)]
mod racks;
#[cfg(test)]
mod several_racks;
#[cfg(test)]
mod streams;
#[cfg(test)]
mod watched_racks;
