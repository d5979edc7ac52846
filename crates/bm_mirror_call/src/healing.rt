//! Taking the other side in before a command.

ghost use Rattle.std.specs.Prelude.{◌≡◌, ◌⊎◌, ◌↔◌, ◌&&◌, ◌*◌, ◌≤◌, length, Some, Err, IsTrue, IsFalse, IsOk, IfErr};
ghost use Rattle.bm_base.specs.Count.{Rose};
ghost use Rattle.bm_base.specs.Shape.{dims_of};
ghost use Rattle.bm_mirror.specs.TwoSides.{two_sides};
ghost use Rattle.bm_top.specs.Causes.{Attaches};
ghost use Rattle.bm_top.specs.JobRead.{TakesShape};
ghost use Rattle.bm_mirror_call.specs.Healing.{ComesIn, HealStops, JobComesIn, ShownAs, StopsAt};

use bm_base::{Dims, Shape};
use bm_jobfile::{JobError, read_job};
use bm_mirror::{HealError, Mirror};
use bm_rack::{AttachError, Found, Rack};
use bm_top::{Status, Verb};
use std::alloc::Global;

// Whether the command goes on with disks that stand.
fn goes_on(verb: Verb) -> bool
    ensures goes { IsTrue result → Attaches verb }
    ensures rests { IsFalse result → ¬ Attaches verb }
{
    match verb {
        Verb::Load | Verb::Run | Verb::Status | Verb::Dump | Verb::Drop | Verb::Detect => true,
        Verb::New | Verb::Plan | Verb::Carry | Verb::Drill => false,
    }
}

// Whether such a command takes records of this shape: `detect` reads numbers of 8 bytes.
fn takes(verb: Verb, shape: &Shape) -> bool
    requires { Attaches verb }
    ensures { IsTrue result ↔ TakesShape verb shape.now }
{
    verb != Verb::Detect || shape.width() == 8
}

// Fills the side that is out of a mirror that is attached with these sizes. One that can't be
// filled is left out.
fn heal_attached<L: Rack, G: Rack>(
    mirror: &mut Mirror<L, G>,
    dims: &Dims,
    row: &mut [u8],
) -> Result<(), Status>
    requires attached { mirror.old.attached ≡ Some dims.now }
    requires few { dims.now.disks ≤ 64 }
    requires fits { length row.old ≡ dims.now.disks * dims.now.block }
    ensures shows { ShownAs
        (⟦<Mirror<L, G> as Rack>⟧.view mirror.old) (⟦<Mirror<L, G> as Rack>⟧.view mirror.new) }
    ensures calm { IsOk result → mirror.new.faults ≡ mirror.old.faults }
    ensures stops { IfErr result (λ status. StopsAt status
        (⟦<Mirror<L, G> as Rack>⟧.view mirror.old) (⟦<Mirror<L, G> as Rack>⟧.view mirror.new)) }
    ensures sides { IsOk result → ComesIn (L.tells_stands && G.tells_stands) dims.now (Some dims.now)
        (two_sides (L.view mirror.old.left) (G.view mirror.old.right) mirror.old.sides)
        (two_sides (L.view mirror.new.left) (G.view mirror.new.right) mirror.new.sides) }
{
    match mirror.heal(dims, row) {
        Ok(_) => Ok(()),
        Err(HealError::Failed) => Err(Status::RackFault),
        Err(HealError::OutOfMemory) => Err(Status::OutOfMemory),
    }
}

// Fills the side that is out, where disks of this shape stand on the other.
fn heal_disks<L: Rack, G: Rack>(
    alloc: Global,
    shape: &Shape,
    mirror: &mut Mirror<L, G>,
) -> Result<(), Status>
    ensures shows { ShownAs
        (⟦<Mirror<L, G> as Rack>⟧.view mirror.old) (⟦<Mirror<L, G> as Rack>⟧.view mirror.new) }
    ensures calm { IsOk result → mirror.new.faults ≡ mirror.old.faults }
    ensures stops { IfErr result (λ status. StopsAt status
        (⟦<Mirror<L, G> as Rack>⟧.view mirror.old) (⟦<Mirror<L, G> as Rack>⟧.view mirror.new)) }
    ensures sides { IsOk result → ComesIn (L.tells_stands && G.tells_stands) (dims_of shape.now)
        (⟦<Mirror<L, G> as Rack>⟧.view mirror.old).stands
        (two_sides (L.view mirror.old.left) (G.view mirror.old.right) mirror.old.sides)
        (two_sides (L.view mirror.new.left) (G.view mirror.new.right) mirror.new.sides) }
{
    let Ok(mut row) = vec![in alloc; 0u8; shape.row_bytes()] else {
        return Err(Status::OutOfMemory);
    };
    let dims = shape.dims();
    match mirror.attach(&dims) {
        Ok(Found::Ready) => heal_attached(mirror, &dims, &mut row),
        Ok(Found::Absent) => Ok(()),
        Ok(Found::Other) => Ok(()),
        Err(AttachError::Failed) => Err(Status::RackFault),
        Err(AttachError::OutOfMemory) => Err(Status::OutOfMemory),
    }
}

// Fills the side that is out for the job that a text means, if it means one of a shape that the
// command takes.
fn heal_job<L: Rack, G: Rack>(
    alloc: Global,
    verb: Verb,
    text: &[u8],
    mirror: &mut Mirror<L, G>,
) -> Result<(), Status>
    requires { Attaches verb }
    ensures shows { ShownAs
        (⟦<Mirror<L, G> as Rack>⟧.view mirror.old) (⟦<Mirror<L, G> as Rack>⟧.view mirror.new) }
    ensures calm { IsOk result → mirror.new.faults ≡ mirror.old.faults }
    ensures stops { IfErr result (λ status. HealStops verb text.now status
        (⟦<Mirror<L, G> as Rack>⟧.view mirror.old) (⟦<Mirror<L, G> as Rack>⟧.view mirror.new)) }
    ensures sides { IsOk result → JobComesIn (L.tells_stands && G.tells_stands) verb text.now
        (⟦<Mirror<L, G> as Rack>⟧.view mirror.old).stands
        (two_sides (L.view mirror.old.left) (G.view mirror.old.right) mirror.old.sides)
        (two_sides (L.view mirror.new.left) (G.view mirror.new.right) mirror.new.sides) }
{
    match read_job(alloc, text) {
        Ok(file) => {
            if takes(verb, &file.shape) {
                heal_disks(alloc, &file.shape, mirror)
            } else {
                Ok(())
            }
        }
        Err(JobError::OutOfMemory) => Err(Status::OutOfMemory),
        Err(JobError::Text) => Ok(()),
        Err(JobError::Field { which: _ }) => Ok(()),
        Err(JobError::Shape { rule: _ }) => Ok(()),
        Err(JobError::Map { shape: _, fault: _ }) => Ok(()),
    }
}

/// Fills the side that is out before a command that goes on with disks that stand.
///
/// The commands are `load`, `run`, `status`, `dump`, `drop` and, for records of 8 bytes, `detect`. A
/// text that is no job, disks that are missing or others, and a side that can't be filled are passed
/// over. `RackFault` where the side that is in failed, and `OutOfMemory`.
pub fn heal_for<L: Rack, G: Rack>(
    alloc: Global,
    verb: Verb,
    text: &[u8],
    mirror: &mut Mirror<L, G>,
) -> Result<(), Status>
    ensures shows { ShownAs
        (⟦<Mirror<L, G> as Rack>⟧.view mirror.old) (⟦<Mirror<L, G> as Rack>⟧.view mirror.new) }
    ensures calm { IsOk result → mirror.new.faults ≡ mirror.old.faults }
    ensures idle { ¬ Attaches verb → ⟦<Mirror<L, G> as Rack>⟧.view mirror.new
        ≡ ⟦<Mirror<L, G> as Rack>⟧.view mirror.old }
    ensures stops { IfErr result (λ status. HealStops verb text.now status
        (⟦<Mirror<L, G> as Rack>⟧.view mirror.old) (⟦<Mirror<L, G> as Rack>⟧.view mirror.new)) }
    ensures sides { IsOk result → JobComesIn (L.tells_stands && G.tells_stands) verb text.now
        (⟦<Mirror<L, G> as Rack>⟧.view mirror.old).stands
        (two_sides (L.view mirror.old.left) (G.view mirror.old.right) mirror.old.sides)
        (two_sides (L.view mirror.new.left) (G.view mirror.new.right) mirror.new.sides) }
{
    if goes_on(verb) {
        heal_job(alloc, verb, text, mirror)
    } else {
        Ok(())
    }
}
