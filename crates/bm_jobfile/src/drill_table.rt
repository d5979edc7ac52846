//! The table of the drill.

ghost use Rattle.std.specs.Prelude.{◌≡◌, ◌/◌, ◌≤◌, codes, length, IfOk, IsErrOf, Ok, Err, option_map};
ghost use Rattle.bm_base.specs.declared.field_name.FieldName.{FieldName};
ghost use Rattle.toml.specs.Data.{get_member};
ghost use Rattle.toml.specs.View.{view, table_view};
ghost use Rattle.bm_jobfile.specs.Fields.{count_or};
ghost use Rattle.bm_jobfile.specs.Keys.{optional_members};
ghost use Rattle.bm_jobfile.specs.DrillTable.{pairs_of, stops_in, stops_of};

use crate::fields::{FieldError, array_of, count_field, value_at};
use crate::number_lists::words_of;
use bm_base::{FieldName, Stop, Stops};
use std::alloc::{AllocError, Global};
use toml::{Table, Value};

// The most numbers of a list of stops, two a stop.
const MOST_STOP_NUMBERS: usize = 128;

/// Where the generator begins, 0 where the text does not say.
pub fn start_in(drill: Option<&Table>) -> Result<u64, FieldName>
    ensures { result ≡ count_or FieldName.Start 0 (get_member (codes "start")
        (optional_members (option_map (λ t. table_view t.now) drill.entry))) }
{
    match drill {
        Some(table) => count_field(table, "start", FieldName::Start),
        None => Ok(0),
    }
}

/// The stops, none where the text does not say.
pub fn stops_in(alloc: Global, drill: Option<&Table>) -> Result<Stops, FieldError>
    ensures ok { IfOk result (λ stops. stops_in (get_member (codes "stops")
        (optional_members (option_map (λ t. table_view t.now) drill.entry))) ≡ Ok stops) }
    ensures faulty { (which : FieldName) → IsErrOf result (FieldError.Faulty which)
        → stops_in (get_member (codes "stops")
        (optional_members (option_map (λ t. table_view t.now) drill.entry))) ≡ Err which }
    ensures few { IfOk result (λ stops. length stops ≤ 64) }
{
    let Some(table) = drill else {
        return Ok(Stops::of(Vec::new(alloc)));
    };
    match value_at(table, "stops") {
        Some(value) => stops_of(alloc, value),
        None => Ok(Stops::of(Vec::new(alloc))),
    }
}

// The stops of a list.
fn stops_of(alloc: Global, value: &Value) -> Result<Stops, FieldError>
    ensures ok { IfOk result (λ stops. stops_of (view value.now) ≡ Ok stops) }
    ensures faulty { (which : FieldName) → IsErrOf result (FieldError.Faulty which)
        → stops_of (view value.now) ≡ Err which }
    ensures few { IfOk result (λ stops. length stops ≤ 64) }
{
    let values = array_of(value, FieldName::Stops)?;
    let Some(numbers) = words_of(alloc, values)? else {
        return Err(FieldError::from(FieldName::Stops));
    };
    let numbers = numbers.as_slice();
    if numbers.len() > MOST_STOP_NUMBERS || numbers.len() % 2 != 0 {
        return Err(FieldError::from(FieldName::Stops));
    }
    Ok(paired(alloc, numbers)?)
}

// A stop for each two numbers: after how many calls, and which image.
fn paired(alloc: Global, numbers: &[u64]) -> Result<Stops, AllocError>
    ensures stops { IfOk result (λ stops. stops ≡ pairs_of numbers.now) }
    ensures few { IfOk result (λ stops. length stops ≤ length numbers.now / 2) }
{
    let mut list = Vec::new(alloc);
    for k in 0..numbers.len() / 2 {
        list.push(Stop {
            after: numbers[2 * k],
            pick: numbers[2 * k + 1],
        })?;
    }
    Ok(Stops::of(list))
}
