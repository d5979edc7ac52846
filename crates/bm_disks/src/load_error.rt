//! Why records were not loaded.

ghost use Rattle.std.specs.Prelude.{◌≡◌};

use bm_base::Failed;

/// Why records were not loaded.
#[derive(Clone, Copy, Debug, PartialEq, Eq)]
pub enum LoadError {
    /// The rack failed.
    Failed,
    /// A read of the input failed.
    DataFault,
    /// The input ended after so many bytes, which are fewer than those of all records.
    DataShort {
        /// The bytes that came.
        got: u64,
    },
    /// A byte came after those of all records.
    DataLong,
}

impl From<Failed> for LoadError {
    ghost use Rattle.bm_disks.specs.declared.load_error.LoadError.TheVariants as load;

    ghost from_gives = { λ _ made. made ≡ load.Failed };

    fn from(_error: Failed) -> LoadError {
        LoadError::Failed
    }
}
