//! The table of the map.

ghost use Rattle.std.specs.Prelude.{◌≡◌, codes, IfOk, IsErrOf, Ok, Err};
ghost use Rattle.bm_base.specs.declared.field_name.FieldName.{FieldName};
ghost use Rattle.toml.specs.Data.{get_member};
ghost use Rattle.toml.specs.View.{table_view};
ghost use Rattle.bm_jobfile.specs.MapTable.{bits_in, rows_in, named_in, map_in};

use crate::fields::{FieldError, array_field, byte_field, count_field};
use crate::kinds::Kind;
use crate::number_lists::{ByteList, WordList, bytes_of, words_of};
use bm_base::FieldName;
use std::alloc::Global;
use toml::Table;

/// A map of the addresses, as a text names it.
#[derive(Drop)]
pub enum NamedMap {
    /// Each record stays.
    Identity,
    /// The first record becomes the last.
    Reversal,
    /// The address bits in reverse order.
    BitReversal,
    /// The transposition of a matrix of `2 ^ p` rows.
    Transpose { p: u8 },
    /// The Gray code.
    Gray,
    /// The inverse Gray code.
    InverseGray,
    /// Target bit i is source bit `(i + by) mod n`.
    Rotation { by: u8 },
    /// Target bit i is source bit `list[i]`.
    Bits { list: ByteList },
    /// The matrix of these rows.
    Rows { rows: WordList },
}

/// What the table of the map says.
#[derive(Drop)]
pub enum MapText {
    /// A map, followed by XOR with the complement.
    Permute { named: NamedMap, complement: u64 },
    /// The transform.
    Walsh,
}

/// What a table of this kind says, or its first faulty field.
#[tactic(auto, unfolding(crate::specs::MapTable::map_in))]
pub fn map_text(alloc: Global, map: &Table, kind: Kind) -> Result<MapText, FieldError>
    ensures ok { IfOk result (λ text. map_in kind (table_view map.now) ≡ Ok text) }
    ensures faulty { (which : FieldName) → IsErrOf result (FieldError.Faulty which)
        → map_in kind (table_view map.now) ≡ Err which }
{
    let Some(named) = named_map(alloc, map, kind)? else {
        return Ok(MapText::Walsh);
    };
    let complement = count_field(map, "complement", FieldName::Complement)?;
    Ok(MapText::Permute { named, complement })
}

// The map of addresses of a table of this kind, or nothing where it is the transform.
fn named_map(alloc: Global, map: &Table, kind: Kind) -> Result<Option<NamedMap>, FieldError>
    ensures ok { IfOk result (λ named. named_in kind (table_view map.now) ≡ Ok named) }
    ensures faulty { (which : FieldName) → IsErrOf result (FieldError.Faulty which)
        → named_in kind (table_view map.now) ≡ Err which }
{
    let named = match kind {
        Kind::Identity => NamedMap::Identity,
        Kind::Reversal => NamedMap::Reversal,
        Kind::BitReversal => NamedMap::BitReversal,
        Kind::Transpose => NamedMap::Transpose {
            p: byte_field(map, "p", FieldName::P)?,
        },
        Kind::Gray => NamedMap::Gray,
        Kind::InverseGray => NamedMap::InverseGray,
        Kind::Rotation => NamedMap::Rotation {
            by: byte_field(map, "by", FieldName::By)?,
        },
        Kind::Bits => NamedMap::Bits {
            list: bit_list(alloc, map)?,
        },
        Kind::Rows => NamedMap::Rows {
            rows: row_list(alloc, map)?,
        },
        Kind::Walsh => return Ok(None),
    };
    Ok(Some(named))
}

// The list of the source bits.
fn bit_list(alloc: Global, map: &Table) -> Result<ByteList, FieldError>
    ensures ok { IfOk result (λ list. bits_in (table_view map.now) ≡ Ok list) }
    ensures faulty { (which : FieldName) → IsErrOf result (FieldError.Faulty which)
        → bits_in (table_view map.now) ≡ Err which }
{
    let values = array_field(map, "bits", FieldName::Bits)?;
    match bytes_of(alloc, values)? {
        Some(list) => Ok(list),
        None => Err(FieldError::from(FieldName::Bits)),
    }
}

// The list of the rows.
fn row_list(alloc: Global, map: &Table) -> Result<WordList, FieldError>
    ensures ok { IfOk result (λ rows. rows_in (table_view map.now) ≡ Ok rows) }
    ensures faulty { (which : FieldName) → IsErrOf result (FieldError.Faulty which)
        → rows_in (table_view map.now) ≡ Err which }
{
    let values = array_field(map, "rows", FieldName::Rows)?;
    match words_of(alloc, values)? {
        Some(rows) => Ok(rows),
        None => Err(FieldError::from(FieldName::Rows)),
    }
}
