//! The job body: what is to be done, in how many passes, and how often progress is made durable.

ghost use Rattle.std.specs.Prelude.{◌≡◌, ◌↔◌, ◌≤◌, ◌++◌, ℕ, length, codes, slice_index, Some};
ghost use Rattle.std.specs.Prelude.{IsTrue, IfSome};
ghost use Rattle.bm_forms.specs.declared.job.Job.{Job};
ghost use Rattle.bm_forms.specs.Job.{JobFits};
ghost use Rattle.bm_control.specs.Bodies.{body_head, kind_of, job_map, job_version, named_loads};
ghost use Rattle.bm_control.specs.Bodies.{job_page, JobBodyFits, IsJobBody};

use crate::map_body::{end_body, put_map, read_map, start_body};
use crate::page_reader::{same_page, u16_at, u64_at};
use crate::page_writer::PageWriter;
use bm_base::{PAGE_BYTES, Shape};
use bm_forms::{Job, pass_limit};
use bm_rank::kernel_least;

// The version of a job whose progress is made durable after whole passes alone.
const WHOLE_PASSES: u16 = 1;

// The version of a job whose progress is made durable after fewer loads, which its body names.
const PARTS_OF_PASSES: u16 = 2;

// Where the version stands.
const VERSION_AT: usize = 8;

// Where the kind stands.
const KIND_AT: usize = 10;

// Where the number of passes stands.
const PASSES_AT: usize = 12;

// Where the number of loads stands.
const LOADS_AT: usize = 504;

// The kind of a permutation.
const PERMUTE: u8 = 1;

// The kind of the transform.
const WALSH: u8 = 2;

/// The job body's page. `every` is the number of loads of a pass after which progress is made
/// durable, N/M at most.
pub fn encode_job(shape: &Shape, job: &Job, passes: u16, every: u64) -> [u8; PAGE_BYTES]
    requires { JobBodyFits shape.now job.now passes every }
    ensures { result ≡ job_page shape.now job.now passes every }
{
    let page = start_job_body(shape, job, version_for(shape, every), passes);
    end_body(page, named_for(shape, every))
}

// The version that such a body has.
fn version_for(shape: &Shape, every: u64) -> u16
    ensures { result ≡ job_version shape.now every }
{
    if every == shape.loads() {
        WHOLE_PASSES
    } else {
        PARTS_OF_PASSES
    }
}

// The number of loads that such a body names.
fn named_for(shape: &Shape, every: u64) -> u64
    ensures { result ≡ named_loads shape.now every }
{
    if every == shape.loads() { 0 } else { every }
}

// The head and the map.
fn start_job_body(shape: &Shape, job: &Job, version: u16, passes: u16) -> PageWriter
    ensures bytes { result
        ≡ body_head (codes "BMMCTASK") version (kind_of job.now) shape.now.n passes
        ++ job_map job.now }
    ensures length { length result ≤ 504 }
{
    match job {
        Job::Permute(map) => {
            let mut page = start_body(b"BMMCTASK", version, PERMUTE, shape.n(), passes);
            put_map(&mut page, map);
            page
        }
        Job::Walsh => start_body(b"BMMCTASK", version, WALSH, shape.n(), passes),
    }
}

/// The job, number of passes and number of loads whose body the page is, or nothing where it is no
/// job's body for this shape.
pub fn decode_job(shape: &Shape, page: &[u8; PAGE_BYTES]) -> Option<(Job, u16, u64)>
    ensures { (job : Job) (passes every : ℕ)
        → (result ≡ Some (job, passes, every)) ↔ IsJobBody shape.now page.now job passes every }
{
    let (job, passes, every) = read_numbers(shape, page)?;
    if same_page(&encode_job(shape, &job, passes, every), page) {
        Some((job, passes, every))
    } else {
        None
    }
}

// Values that fit, as they stand in the page.
fn read_numbers(shape: &Shape, page: &[u8; PAGE_BYTES]) -> Option<(Job, u16, u64)>
    ensures fits { IfSome result (λ r. JobBodyFits shape.now r.0 r.1 r.2) }
    ensures read { (job : Job) (passes every : ℕ)
        → IsJobBody shape.now page.now job passes every → result ≡ Some (job, passes, every) }
{
    let job = read_job(shape, page)?;
    let passes = u16_at(page, PASSES_AT);
    let every = read_every(shape, page);
    if !are_in_range(shape, &job, passes, every) {
        return None;
    }
    Some((job, passes, every))
}

// Whether the body of this job may have these numbers.
fn are_in_range(shape: &Shape, job: &Job, passes: u16, every: u64) -> bool
    requires { JobFits shape.now job.now }
    ensures { IsTrue result ↔ JobBodyFits shape.now job.now passes every }
{
    passes >= 1 && passes <= pass_limit(shape, job) && every >= 1 && every <= shape.loads()
}

// The number of loads that the page names, or all of a pass.
fn read_every(shape: &Shape, page: &[u8; PAGE_BYTES]) -> u64
    ensures read { (job : Job) (passes every : ℕ)
        → IsJobBody shape.now page.now job passes every → result ≡ every }
{
    if u16_at(page, VERSION_AT) == WHOLE_PASSES {
        shape.loads()
    } else {
        u64_at(page, LOADS_AT)
    }
}

// A job of the shape, as it stands in the page.
fn read_job(shape: &Shape, page: &[u8; PAGE_BYTES]) -> Option<Job>
    ensures fits { IfSome result (λ job. JobFits shape.now job) }
    ensures read { (job : Job) (passes every : ℕ)
        → IsJobBody shape.now page.now job passes every → result ≡ Some job }
{
    let kind = page[KIND_AT];
    if kind == PERMUTE {
        return read_permutation(shape, page);
    }
    if kind != WALSH {
        return None;
    }
    if shape.width() != 8 {
        return None;
    }
    Some(Job::Walsh)
}

// A permutation, as it stands in the page.
fn read_permutation(shape: &Shape, page: &[u8; PAGE_BYTES]) -> Option<Job>
    requires { slice_index page.now 10 ≡ 1 }
    ensures fits { IfSome result (λ job. JobFits shape.now job) }
    ensures read { (job : Job) (passes every : ℕ)
        → IsJobBody shape.now page.now job passes every → result ≡ Some job }
{
    let map = read_map(page, shape.n())?;
    match kernel_least(&map.a) {
        None => Some(Job::Permute(map)),
        Some(_) => None,
    }
}
