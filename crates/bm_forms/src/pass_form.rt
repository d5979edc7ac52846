//! Passes.

use crate::mld_form::MldForm;

/// One pass over the records: butterflies on the address bits below `low`, in ascending order, then
/// the permutation by the map.
#[derive(Clone, Copy, Debug, PartialEq, Eq)]
pub struct PassForm {
    /// How many address bits have butterflies, from bit 0 on.
    pub low: u8,
    /// The permutation that follows them.
    pub map: MldForm,
}
