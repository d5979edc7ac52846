//! A job that is under way on a rack.

ghost use Rattle.std.specs.Prelude.{◌≡◌};
ghost use Rattle.bm_job.specs.Ranges.{MachineFits, FormFits};

use bm_base::Shape;
use bm_forms::{Job, PassForm};

/// A job that is under way on a rack, and how far it is. It takes no memory.
#[derive(Clone, Copy, Debug)]
pub struct Machine {
    pub(crate) shape: Shape,
    pub(crate) job: Job,
    // its passes, and how many of them are done
    pub(crate) passes: u16,
    pub(crate) done: u16,
    // after how many loads of a pass its progress is made durable
    pub(crate) every: u64,
    // the loads that are counted of the pass under way, and the slot that counts them
    pub(crate) part: u64,
    pub(crate) slot: u8,
    // the loads that are moved of it
    pub(crate) load: u64,
    // its form, once it is read
    pub(crate) form: Option<PassForm>,
    pub(crate) alive: bool,
    pub ghost keeps: { MachineFits shape job passes done every part slot load },
    pub ghost of_shape: { FormFits shape form },
}

impl Machine {
    ghost use Rattle.std.specs.Prelude.{◌↔◌, IsTrue};
    ghost use Rattle.bm_job.specs.Follows.{loads_moved};

    /// Whether it may take turns: a turn that was refused ends that.
    pub fn alive(&self) -> bool
        ensures { result ≡ self.now.alive }
    {
        self.alive
    }

    /// How many passes the job has.
    pub fn all(&self) -> u16
        ensures { result ≡ self.now.passes }
    {
        self.passes
    }

    /// How many of them are done.
    pub fn done(&self) -> u16
        ensures { result ≡ self.now.done }
    {
        self.done
    }

    /// Whether all of them are.
    pub fn finished(&self) -> bool
        ensures { IsTrue result ↔ (self.now.done ≡ self.now.passes) }
    {
        self.done == self.passes
    }

    /// The loads that are moved: N/M for each pass that is done, and those of the pass under way, with
    /// those that were counted before this machine began.
    pub fn moved(&self) -> u64
        ensures { result ≡ loads_moved self.now }
    {
        u64::from(self.done) * self.shape.loads() + self.load
    }
}
