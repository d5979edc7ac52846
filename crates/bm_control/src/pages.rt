//! The pages of the control file, by their names.

ghost use Rattle.std.specs.Prelude.{◌≡◌, ◌<◌};
ghost use Rattle.bm_control.specs.Pages as page;

/// The page of the load body, which names the shape of the records.
pub const LOAD_BODY: u16 = 0;

/// The page of its gate, which is open where records are loaded.
pub const LOAD_GATE: u16 = 1;

/// The page of the job body.
pub const JOB_BODY: u16 = 2;

/// The page of its gate, which is open where a job is.
pub const JOB_GATE: u16 = 3;

/// The page of the body of pass k + 1. k is below 256.
pub fn pass_body(k: u16) -> u16
    requires { k < 256 }
    ensures { result ≡ page.pass_body k }
{
    4 + 2 * k
}

/// The page of the gate of pass k + 1. k is below 256.
pub fn pass_gate(k: u16) -> u16
    requires { k < 256 }
    ensures { result ≡ page.pass_gate k }
{
    5 + 2 * k
}

/// The page of the body of a slot, 0 or 1.
pub fn slot_body(slot: u8) -> u16
    requires { slot < 2 }
    ensures { result ≡ page.slot_body slot }
{
    512 + 2 * u16::from(slot)
}

/// The page of the gate of a slot, 0 or 1.
pub fn slot_gate(slot: u8) -> u16
    requires { slot < 2 }
    ensures { result ≡ page.slot_gate slot }
{
    513 + 2 * u16::from(slot)
}
