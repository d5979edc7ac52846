//! How a field of a table is read, and what makes it faulty.

ghost use Rattle.std.specs.Prelude.{◌≡◌, Result, Option, option_map};
ghost use Rattle.bm_base.specs.declared.field_name.FieldName.{FieldName};
ghost use Rattle.toml.specs.Data.{get_member, Members};
ghost use Rattle.toml.specs.View.{view, array_view, table_view};
ghost use Rattle.bm_jobfile.specs.Fields.{is_byte, is_width, is_any, number_of, needed_number};
ghost use Rattle.bm_jobfile.specs.Fields.{count_or, items_of, items_in, table_in, optional_table, seen_by};

use bm_base::FieldName;
use std::alloc::AllocError;
use toml::{Table, Value};

/// Why a field gives nothing.
#[derive(Clone, Copy, Debug, PartialEq, Eq)]
pub enum FieldError {
    /// The field is faulty.
    Faulty { which: FieldName },
    /// Memory was refused.
    OutOfMemory,
}

impl From<FieldName> for FieldError {
    ghost use Rattle.bm_jobfile.specs.declared.fields.FieldError.{FieldError};

    ghost from_gives = { λ which made. made ≡ FieldError.Faulty which };

    fn from(which: FieldName) -> FieldError {
        FieldError::Faulty { which }
    }
}

impl From<AllocError> for FieldError {
    ghost use Rattle.bm_jobfile.specs.declared.fields.FieldError.{FieldError};

    ghost from_gives = { λ _ made. made ≡ FieldError.OutOfMemory };

    fn from(_: AllocError) -> FieldError {
        FieldError::OutOfMemory
    }
}

/// What stands at the key.
pub fn value_at<'a>(table: &'a Table, key: &str) -> Option<&'a Value>
    ensures { option_map (λ v. view v.now) result ≡ get_member key.now (table_view table.now) }
{
    table.get(key)
}

/// The value as a number of one byte.
pub fn byte_of(value: &Value) -> Option<u8>
    ensures { result ≡ number_of is_byte (view value.now) }
{
    match value {
        Value::Integer(number) => u8::try_from(*number).ok(),
        _ => None,
    }
}

/// The value as a number of at least 0.
pub fn count_of(value: &Value) -> Option<u64>
    ensures { result ≡ number_of is_any (view value.now) }
{
    match value {
        Value::Integer(number) => u64::try_from(*number).ok(),
        _ => None,
    }
}

/// A number of one byte.
pub fn byte_field(table: &Table, key: &str, name: FieldName) -> Result<u8, FieldName>
    ensures { result ≡ needed_number name is_byte (get_member key.now (table_view table.now)) }
{
    match value_at(table, key) {
        Some(Value::Integer(number)) => u8::try_from(*number).map_err(|_| name),
        _ => Err(name),
    }
}

/// A number of two bytes.
pub fn width_field(table: &Table, key: &str, name: FieldName) -> Result<u16, FieldName>
    ensures { result ≡ needed_number name is_width (get_member key.now (table_view table.now)) }
{
    match value_at(table, key) {
        Some(Value::Integer(number)) => u16::try_from(*number).map_err(|_| name),
        _ => Err(name),
    }
}

/// A number of at least 0, and 0 where none stands.
pub fn count_field(table: &Table, key: &str, name: FieldName) -> Result<u64, FieldName>
    ensures { result ≡ count_or name 0 (get_member key.now (table_view table.now)) }
{
    match value_at(table, key) {
        Some(Value::Integer(number)) => u64::try_from(*number).map_err(|_| name),
        Some(_) => Err(name),
        None => Ok(0),
    }
}

/// A table that has to stand.
pub fn table_field<'a>(table: &'a Table, key: &str, name: FieldName) -> Result<&'a Table, FieldName>
    ensures { seen_by (λ t. table_view t.now) result
        ≡ table_in name (get_member key.now (table_view table.now)) }
{
    match value_at(table, key) {
        Some(value) => match value.as_table() {
            Some(found) => Ok(found),
            None => Err(name),
        },
        None => Err(name),
    }
}

/// A table that may be missing.
pub fn optional_field<'a>(
    table: &'a Table,
    key: &str,
    name: FieldName,
) -> Result<Option<&'a Table>, FieldName>
    ensures { seen_by (option_map (λ t. table_view t.now)) result
        ≡ optional_table name (get_member key.now (table_view table.now)) }
{
    match value_at(table, key) {
        Some(value) => match value.as_table() {
            Some(found) => Ok(Some(found)),
            None => Err(name),
        },
        None => Ok(None),
    }
}

/// The values of an array.
pub fn array_of<'a>(value: &'a Value, name: FieldName) -> Result<&'a Vec<Value>, FieldName>
    ensures { seen_by (λ a. array_view a.now) result ≡ items_of name (view value.now) }
{
    match value.as_array() {
        Some(found) => Ok(found),
        None => Err(name),
    }
}

/// The values of an array that has to stand.
pub fn array_field<'a>(
    table: &'a Table,
    key: &str,
    name: FieldName,
) -> Result<&'a Vec<Value>, FieldName>
    ensures { seen_by (λ a. array_view a.now) result
        ≡ items_in name (get_member key.now (table_view table.now)) }
{
    match value_at(table, key) {
        Some(value) => array_of(value, name),
        None => Err(name),
    }
}
