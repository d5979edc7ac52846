//! Reading a job text.

ghost use Rattle.std.specs.Prelude.{◌≡◌, ◌⊎◌, ℕ, ◌-◌, ◌^◌, ◌≤◌, length, IfOk, IfErr, IsErrOf, Ok, Err};
ghost use Rattle.std.specs.Option.{ForSome};
ghost use Rattle.bm_base.specs.declared.field_name.FieldName.{FieldName};
ghost use Rattle.bm_base.specs.declared.shape.Shape.{Shape};
ghost use Rattle.bm_named.specs.declared.map_fault.MapFault.{MapFault};
ghost use Rattle.bm_forms.specs.Job.{JobFits};
ghost use Rattle.toml.specs.View.{table_view};
ghost use Rattle.bm_jobfile.specs.JobText.{text_of};
ghost use Rattle.bm_jobfile.specs.JobFile.{every_of, IsDocument, IsNoDocument, HasFaultyField, HasBrokenRule, HasMapFault, IsJobFile, BreaksRule, FaultsMap, IsFileOf};

use crate::drill_table::{start_in, stops_in};
use crate::fields::{FieldError, optional_field, table_field};
use crate::job_file::{JobError, JobFile};
use crate::key_tables::{TableName, has_known_keys, has_known_keys_if_there};
use crate::kinds::{Kind, kind_field};
use crate::map_job::job_of;
use crate::map_table::{MapText, map_text};
use crate::run_table::checkpoint_in;
use crate::shape_table::{ShapeNumbers, shape_numbers};
use bm_base::{FieldName, MOST_TEXT_BYTES, Shape, Stops};
use std::alloc::Global;
use toml::Table;

/// What the fields of a job text say.
#[derive(Drop)]
pub struct JobText {
    /// The table of the shape.
    pub shape: ShapeNumbers,
    /// The table of the map.
    pub map: MapText,
    /// Where the generator begins.
    pub start: u64,
    /// The stops of a drill.
    pub stops: Stops,
    /// The number of loads of a checkpoint, if the text names one.
    pub checkpoint: Option<u64>,
}

/// The shape, the job and the rest of a job text, a TOML document of at most 65536 bytes.
///
/// Refused in this order: a text that is longer or no document; the first faulty field; the first
/// rule of a shape that is broken; the first fault of the map. Want of memory may come at any
/// point.
pub fn read_job(alloc: Global, text: &[u8]) -> Result<JobFile, JobError>
    ensures file { IfOk result (λ file. IsJobFile text.now file) }
    ensures text { IsErrOf result JobError.Text → IsNoDocument text.now }
    ensures field { (which : FieldName) → IsErrOf result (JobError.Field which)
        → HasFaultyField text.now which }
    ensures shape { (rule : ℕ) → IsErrOf result (JobError.Shape rule)
        → HasBrokenRule text.now rule }
    ensures map { (shape : Shape) (fault : MapFault) → IsErrOf result (JobError.Map shape fault)
        → HasMapFault text.now shape fault }
    ensures fits { IfOk result (λ file. JobFits file.shape file.job) }
    ensures every_some { IfOk result (λ file. 1 ≤ file.every) }
    ensures every_few { IfOk result (λ file. file.every ≤ 2 ^ (file.shape.n - file.shape.m)) }
    ensures stops { IfOk result (λ file. length file.stops ≤ 64) }
{
    let document = document_in(alloc, text)?;
    let job = job_text(alloc, &document)?;
    file_of(job)
}

/// The document of a text of at most 65536 bytes.
pub fn document_in(alloc: Global, text: &[u8]) -> Result<Table, JobError>
    ensures ok { IfOk result (λ document. IsDocument text.now (table_view document)) }
    ensures text { IsErrOf result JobError.Text → IsNoDocument text.now }
    ensures cause { IfErr result (λ e. (e ≡ JobError.Text) ⊎ (e ≡ JobError.OutOfMemory)) }
{
    if text.len() > MOST_TEXT_BYTES {
        return Err(JobError::Text);
    }
    match toml::table_from_slice(alloc, text) {
        Ok(document) => Ok(document),
        Err(error) => {
            if error.is_memory() {
                return Err(JobError::OutOfMemory);
            }
            Err(JobError::Text)
        }
    }
}

// What the fields of a document say, or its first faulty field.
#[tactic(auto, unfolding(crate::specs::JobText::text_of))]
fn job_text(alloc: Global, document: &Table) -> Result<JobText, FieldError>
    ensures ok { IfOk result (λ text. text_of (table_view document.now) ≡ Ok text) }
    ensures faulty { (which : FieldName) → IsErrOf result (FieldError.Faulty which)
        → text_of (table_view document.now) ≡ Err which }
    ensures checkpoint { IfOk result (λ text. ForSome text.checkpoint (λ count. 1 ≤ count)) }
    ensures stops { IfOk result (λ text. length text.stops ≤ 64) }
{
    let shape = table_field(document, "shape", FieldName::Shape)?;
    let numbers = shape_numbers(shape)?;
    let map = table_field(document, "map", FieldName::Map)?;
    let kind = kind_field(map)?;
    let named = map_text(alloc, map, kind)?;
    let drill = optional_field(document, "drill", FieldName::Drill)?;
    let start = start_in(drill)?;
    let stops = stops_in(alloc, drill)?;
    let run = optional_field(document, "run", FieldName::Run)?;
    let checkpoint = checkpoint_in(run)?;
    let known = has_known_keys(TableName::Document, document)
        && has_known_keys(TableName::Shape, shape)
        && has_known_keys(TableName::Map { kind }, map)
        && has_known_keys_if_there(TableName::Drill, drill)
        && has_known_keys_if_there(TableName::Run, run);
    if !known {
        return Err(FieldError::from(FieldName::Unknown));
    }
    Ok(JobText {
        shape: numbers,
        map: named,
        start,
        stops,
        checkpoint,
    })
}

// The file of what the fields say.
fn file_of(text: JobText) -> Result<JobFile, JobError>
    requires { ForSome text.checkpoint (λ count. 1 ≤ count) }
    ensures file { IfOk result (λ file. IsFileOf text file) }
    ensures text { ¬ IsErrOf result JobError.Text }
    ensures field { (which : FieldName) → ¬ IsErrOf result (JobError.Field which) }
    ensures shape { (rule : ℕ) → IsErrOf result (JobError.Shape rule) → BreaksRule text rule }
    ensures map { (shape : Shape) (fault : MapFault) → IsErrOf result (JobError.Map shape fault)
        → FaultsMap text shape fault }
    ensures fits { IfOk result (λ file. JobFits file.shape file.job) }
    ensures every_some { IfOk result (λ file. 1 ≤ file.every) }
    ensures every_few { IfOk result (λ file. file.every ≤ 2 ^ (file.shape.n - file.shape.m)) }
{
    let numbers = text.shape;
    let shape = Shape::new(numbers.n, numbers.b, numbers.d, numbers.m, numbers.width)?;
    match job_of(&shape, &text.map) {
        Ok(job) => Ok(JobFile {
            shape,
            job,
            start: text.start,
            stops: text.stops,
            every: every_of(text.checkpoint, shape.loads()),
        }),
        Err(fault) => Err(JobError::Map { shape, fault }),
    }
}

// After how many loads a checkpoint is taken: all of a pass at most, and where nothing is named.
fn every_of(checkpoint: Option<u64>, loads: u64) -> u64
    requires count { ForSome checkpoint (λ count. 1 ≤ count) }
    requires loads { 1 ≤ loads }
    ensures value { result ≡ every_of checkpoint loads }
    ensures some { 1 ≤ result }
    ensures few { result ≤ loads }
{
    match checkpoint {
        Some(count) => count.min(loads),
        None => loads,
    }
}
