//! The calls on attached disks, on worked values.

#![tactic(auto)]

#[cfg(test)]
mod disk_rows;
#[cfg(test)]
mod load_order;
#[cfg(test)]
mod moving;
