//! The table of the run.

ghost use Rattle.std.specs.Prelude.{◌≡◌, ◌≤◌, codes, option_map, IfOk};
ghost use Rattle.std.specs.Option.{ForSome};
ghost use Rattle.toml.specs.Data.{get_member};
ghost use Rattle.toml.specs.View.{view, table_view};
ghost use Rattle.bm_jobfile.specs.Keys.{optional_members};
ghost use Rattle.bm_jobfile.specs.RunTable.{checkpoint_in, checkpoint_of};

use crate::fields::value_at;
use bm_base::FieldName;
use toml::{Table, Value};

/// The number of loads that the text names for a checkpoint, if it names one.
pub fn checkpoint_in(run: Option<&Table>) -> Result<Option<u64>, FieldName>
    ensures value { result ≡ checkpoint_in (get_member (codes "checkpoint")
        (optional_members (option_map (λ t. table_view t.now) run.entry))) }
    ensures some { IfOk result (λ found. ForSome found (λ count. 1 ≤ count)) }
{
    let Some(table) = run else {
        return Ok(None);
    };
    match value_at(table, "checkpoint") {
        Some(value) => checkpoint_of(value),
        None => Ok(None),
    }
}

// The number of a checkpoint, at least 1.
fn checkpoint_of(value: &Value) -> Result<Option<u64>, FieldName>
    ensures value { result ≡ checkpoint_of (view value.now) }
    ensures some { IfOk result (λ found. ForSome found (λ count. 1 ≤ count)) }
{
    match value {
        Value::Integer(number) => match u64::try_from(*number) {
            Ok(0) | Err(_) => Err(FieldName::Checkpoint),
            Ok(count) => Ok(Some(count)),
        },
        _ => Err(FieldName::Checkpoint),
    }
}
