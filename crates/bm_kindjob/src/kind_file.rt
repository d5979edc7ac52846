//! What the text of a transform over chosen bits says.

use crate::kind_names::KindName;
use bm_base::Shape;

/// What the text of a transform over chosen bits says.
#[derive(Clone, Copy, Debug, PartialEq, Eq)]
pub struct KindFile {
    /// The sizes of the records and of the rack.
    pub shape: Shape,
    /// The kernel.
    pub kind: KindName,
    /// The address bits that it acts on.
    pub set: u64,
}
