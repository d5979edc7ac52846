//! Reading the text of a transform over chosen bits.

ghost use Rattle.std.specs.Prelude.{◌≡◌, ℕ, IfOk, IfErr, IsErrOf, Ok, Err};
ghost use Rattle.bm_base.specs.declared.field_name.FieldName.{FieldName};
ghost use Rattle.bm_base.specs.declared.shape.Shape.{Shape};
ghost use Rattle.bm_named.specs.declared.map_fault.MapFault.{MapFault};
ghost use Rattle.bm_jobfile.specs.JobFile.{IsNoDocument};
ghost use Rattle.toml.specs.View.{table_view};
ghost use Rattle.bm_kindjob.specs.KindText.{text_of, set_in};
ghost use Rattle.bm_kindjob.specs.KindFile.{IsSetFor, MapFaultIs, IsFileOf, BreaksRule, FaultsMap, IsKindFile, HasFaultyField, HasBrokenRule, HasMapFault};

use crate::key_pairs::has_only_keys;
use crate::kind_file::KindFile;
use crate::kind_names::{KindName, kind_field};
use crate::set_list::set_of_list;
use bm_base::{FieldName, Shape};
use bm_jobfile::{
    ByteList, FieldError, JobError, ShapeNumbers, TableName, array_field, bytes_of, document_in,
    has_known_keys, shape_numbers, table_field,
};
use bm_named::MapFault;
use std::alloc::Global;
use toml::Table;

/// What the fields of a text say.
#[derive(Drop)]
pub struct KindText {
    /// The table of the shape.
    pub shape: ShapeNumbers,
    /// The kind.
    pub kind: KindName,
    /// The list of the bits.
    pub list: ByteList,
}

/// The shape, the kind and the set of a text, a TOML document of at most 65536 bytes.
///
/// Refused in this order: a text that is longer or no document; the first faulty field; the first
/// rule of a shape that is broken; records that are no numbers of 8 bytes; the first entry of the
/// set that is no address bit or repeats an earlier one. Want of memory may come at any point.
pub fn read_kind(alloc: Global, text: &[u8]) -> Result<KindFile, JobError>
    ensures file { IfOk result (λ file. IsKindFile text.now file) }
    ensures text { IsErrOf result JobError.Text → IsNoDocument text.now }
    ensures field { (which : FieldName) → IsErrOf result (JobError.Field which)
        → HasFaultyField text.now which }
    ensures shape { (rule : ℕ) → IsErrOf result (JobError.Shape rule)
        → HasBrokenRule text.now rule }
    ensures map { (shape : Shape) (fault : MapFault) → IsErrOf result (JobError.Map shape fault)
        → HasMapFault text.now shape fault }
{
    let document = document_in(alloc, text)?;
    let said = kind_text(alloc, &document)?;
    file_of(said)
}

// What the fields of a document say, or its first faulty field.
#[tactic(auto, unfolding(crate::specs::KindText::text_of))]
fn kind_text(alloc: Global, document: &Table) -> Result<KindText, FieldError>
    ensures ok { IfOk result (λ text. text_of (table_view document.now) ≡ Ok text) }
    ensures faulty { (which : FieldName) → IsErrOf result (FieldError.Faulty which)
        → text_of (table_view document.now) ≡ Err which }
{
    let shape = table_field(document, "shape", FieldName::Shape)?;
    let numbers = shape_numbers(shape)?;
    let map = table_field(document, "map", FieldName::Map)?;
    let kind = kind_field(map)?;
    let list = set_field(alloc, map)?;
    let known = has_only_keys(document, "shape", "map")
        && has_known_keys(TableName::Shape, shape)
        && has_only_keys(map, "kind", "set");
    if !known {
        return Err(FieldError::from(FieldName::Unknown));
    }
    Ok(KindText {
        shape: numbers,
        kind,
        list,
    })
}

// The list of the bits of the set.
fn set_field(alloc: Global, map: &Table) -> Result<ByteList, FieldError>
    ensures ok { IfOk result (λ list. set_in (table_view map.now) ≡ Ok list) }
    ensures faulty { (which : FieldName) → IsErrOf result (FieldError.Faulty which)
        → set_in (table_view map.now) ≡ Err which }
{
    let values = array_field(map, "set", FieldName::Set)?;
    match bytes_of(alloc, values)? {
        Some(list) => Ok(list),
        None => Err(FieldError::from(FieldName::Set)),
    }
}

// The file of what the fields say.
fn file_of(text: KindText) -> Result<KindFile, JobError>
    ensures file { IfOk result (λ file. IsFileOf text file) }
    ensures text { ¬ IsErrOf result JobError.Text }
    ensures field { (which : FieldName) → ¬ IsErrOf result (JobError.Field which) }
    ensures shape { (rule : ℕ) → IsErrOf result (JobError.Shape rule) → BreaksRule text rule }
    ensures map { (shape : Shape) (fault : MapFault) → IsErrOf result (JobError.Map shape fault)
        → FaultsMap text shape fault }
{
    let numbers = text.shape;
    let shape = Shape::new(numbers.n, numbers.b, numbers.d, numbers.m, numbers.width)?;
    match set_for(&shape, text.list.as_slice()) {
        Ok(set) => Ok(KindFile {
            shape,
            kind: text.kind,
            set,
        }),
        Err(fault) => Err(JobError::Map { shape, fault }),
    }
}

// The set of the bits of a list, where a transform fits the shape, or the first fault of both.
fn set_for(shape: &Shape, list: &[u8]) -> Result<u64, MapFault>
    ensures set { IfOk result (λ set. IsSetFor shape.now list.now set) }
    ensures fault { IfErr result (λ e. MapFaultIs shape.now list.now e) }
{
    if shape.width() != 8 {
        return Err(MapFault::Width);
    }
    set_of_list(shape.n(), list)
}
