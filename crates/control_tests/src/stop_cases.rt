//! Calls that write the control file, what is made before each, and the states that it goes through.

use run_helpers::{Said, Step};

/// A call, what is made before it, and the states that it goes through.
#[derive(Clone, Copy, Debug, PartialEq, Eq)]
pub enum Case {
    /// On new disks.
    OpenLoad,
    /// After a job that was done, in whole passes.
    StartWhole,
    /// After a job with both slots open.
    StartParts,
    /// Of the first pass.
    OpenGate,
    /// Of the last pass, with a slot open.
    OpenLast,
    /// In a slot that is closed.
    MarkClosed,
    /// In the slot that is counted.
    MarkCounted,
    /// In a slot that is open and not counted.
    MarkOther,
}

/// The records are 16 of one byte, reversed by bits: on two disks two passes of two loads, on one
/// disk three passes of four loads.
pub fn is_on_one_disk(case: Case) -> bool {
    match case {
        Case::MarkClosed | Case::MarkCounted | Case::MarkOther => true,
        _ => false,
    }
}

/// The calls before.
pub fn steps_of(case: Case) -> [Step; 6] {
    let whole = Step::StartJob { every: 2 };
    let parts = Step::StartJob { every: 1 };
    let first = Step::MarkPart {
        slot: 0,
        pass: 1,
        loads: 1,
    };
    let no = Step::Nothing;
    let gate = Step::OpenGate { k: 0 };
    let last = Step::OpenGate { k: 1 };
    let next = Step::MarkPart {
        slot: 1,
        pass: 2,
        loads: 1,
    };
    let more = Step::MarkPart {
        slot: 1,
        pass: 1,
        loads: 2,
    };
    match case {
        Case::OpenLoad => [no, no, no, no, no, no],
        Case::StartWhole => [Step::OpenLoad, whole, gate, last, Step::CloseJob, no],
        Case::StartParts => [Step::OpenLoad, parts, first, gate, next, Step::CloseJob],
        Case::OpenGate => [Step::OpenLoad, whole, no, no, no, no],
        Case::OpenLast => [Step::OpenLoad, parts, gate, next, no, no],
        Case::MarkClosed => [Step::OpenLoad, parts, no, no, no, no],
        Case::MarkCounted => [Step::OpenLoad, parts, first, no, no, no],
        Case::MarkOther => [Step::OpenLoad, parts, first, more, no, no],
    }
}

/// The call.
pub fn step_of(case: Case) -> Step {
    match case {
        Case::OpenLoad => Step::OpenLoad,
        Case::StartWhole => Step::StartJob { every: 2 },
        Case::StartParts => Step::StartJob { every: 1 },
        Case::OpenGate => Step::OpenGate { k: 0 },
        Case::OpenLast => Step::OpenGate { k: 1 },
        Case::MarkClosed => Step::MarkPart {
            slot: 0,
            pass: 1,
            loads: 1,
        },
        Case::MarkCounted => Step::MarkPart {
            slot: 0,
            pass: 1,
            loads: 2,
        },
        Case::MarkOther => Step::MarkPart {
            slot: 0,
            pass: 1,
            loads: 3,
        },
    }
}

// An open job with so many passes done, and the counted slot.
fn working(done: u16, every: u64, part: u64, slot: u8) -> Said {
    Said::Working {
        done,
        every,
        part,
        slot,
    }
}

/// The states before the call, between and after it.
pub fn states_of(case: Case) -> (Said, Said, Said) {
    match case {
        Case::OpenLoad => (Said::Closed, Said::Closed, Said::Loaded),
        Case::StartWhole => (Said::Loaded, Said::Loaded, working(0, 2, 0, 2)),
        Case::StartParts => (Said::Loaded, Said::Loaded, working(0, 1, 0, 2)),
        Case::OpenGate => (
            working(0, 2, 0, 2),
            working(0, 2, 0, 2),
            working(1, 2, 0, 2),
        ),
        Case::OpenLast => (
            working(1, 1, 1, 1),
            working(1, 1, 1, 1),
            working(2, 1, 0, 2),
        ),
        Case::MarkClosed => (
            working(0, 1, 0, 2),
            working(0, 1, 0, 2),
            working(0, 1, 1, 0),
        ),
        Case::MarkCounted => (
            working(0, 1, 1, 0),
            working(0, 1, 0, 2),
            working(0, 1, 2, 0),
        ),
        Case::MarkOther => (
            working(0, 1, 2, 1),
            working(0, 1, 2, 1),
            working(0, 1, 3, 0),
        ),
    }
}
