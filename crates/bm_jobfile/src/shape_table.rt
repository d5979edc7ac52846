//! The table of the shape.

ghost use Rattle.std.specs.Prelude.{◌≡◌};
ghost use Rattle.toml.specs.View.{table_view};
ghost use Rattle.bm_jobfile.specs.ShapeTable.{shape_numbers};

use crate::fields::{byte_field, width_field};
use bm_base::FieldName;
use toml::Table;

/// The numbers of a shape, which need not keep its rules.
#[derive(Clone, Copy, Debug, PartialEq, Eq)]
pub struct ShapeNumbers {
    /// lg of the number of records.
    pub n: u8,
    /// lg of the records of a block.
    pub b: u8,
    /// lg of the number of disks.
    pub d: u8,
    /// lg of the records of a memory load.
    pub m: u8,
    /// The bytes of a record.
    pub width: u16,
}

/// The numbers of the table, or its first faulty field.
#[tactic(auto, unfolding(crate::specs::ShapeTable::shape_numbers))]
pub fn shape_numbers(shape: &Table) -> Result<ShapeNumbers, FieldName>
    ensures { result ≡ shape_numbers (table_view shape.now) }
{
    let n = byte_field(shape, "n", FieldName::N)?;
    let b = byte_field(shape, "b", FieldName::B)?;
    let d = byte_field(shape, "d", FieldName::D)?;
    let m = byte_field(shape, "m", FieldName::M)?;
    let width = width_field(shape, "width", FieldName::Width)?;
    Ok(ShapeNumbers { n, b, d, m, width })
}
