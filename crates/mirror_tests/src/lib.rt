//! Two racks as one, over racks in memory.

#![tactic(auto)]

#[cfg(test)]
mod faulty_sides;
#[cfg(test)]
mod healing;
#[cfg(test)]
mod lasting;
#[cfg(test)]
mod marks;
#[cfg(test)]
mod noted;
#[cfg(test)]
mod order;
#[cfg(test)]
mod refused;
#[cfg(test)]
mod standing;
