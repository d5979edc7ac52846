//! The call that carries out a command over a mirror.

ghost use Rattle.std.specs.Prelude.{◌≡◌, ◌≤◌, ◌++◌, true, Bool, IsTrue, length, None, drop};
ghost use Rattle.bm_base.specs.Count.{Rose};
ghost use Rattle.bm_mirror.specs.Lasting.{history};
ghost use Rattle.bm_mirror.specs.TwoSides.{two_sides};
ghost use Rattle.bm_rack.specs.Sink.{AppendsFront};
ghost use Rattle.bm_top.specs.Moment.{source_of, sink_of, tells_of};
ghost use Rattle.bm_top.specs.StatusWords.{line_of};
ghost use Rattle.bm_top.specs.Words.{IsCommand, IsJobWords};
ghost use Rattle.bm_mirror_call.specs.MirrorCall.{AppendsFronts, CommandCall, MirrorJob, MirrorTop, TextCall, last_line};
ghost use Rattle.bm_mirror_call.specs.Seen.{mirror_devices, mirror_moment, mirror_seen, new_mirror};
ghost use Rattle.bm_mirror_call.specs.Seen.{sides_tell, tells_over};
ghost use Rattle.bm_mirror_call.specs.Sides.{IsNewMirror, SidesOf};

use crate::healing::heal_for;
use crate::sides_line::write_sides;
use crate::words::mirror_of;
use bm_memrack::SureSource;
use bm_mirror::{Mirror, Side};
use bm_rack::{Rack, Sink, Source};
use bm_top::{Command, Status, Verb, bmmc_top, job_text, write_answer};
use std::alloc::Global;

// Carries out a command whose job text is read, and writes the line of its answer.
fn run_on_text<L: Rack, G: Rack, S: Source, K: Sink, E: Sink>(
    alloc: Global,
    verb: Verb,
    words: &[String],
    text: Vec<u8>,
    input: &mut S,
    out: &mut K,
    err: &mut E,
    mirror: &mut Mirror<L, G>,
) -> Status
    requires words { IsJobWords words.now verb }
    requires fresh { IsNewMirror
        (mirror_seen (sides_tell L.tells_stands L.tells_contents G.tells_stands G.tells_contents)
        (two_sides (L.view mirror.old.left) (G.view mirror.old.right) mirror.old.sides)
        (history mirror.old.level mirror.old.lapsed mirror.old.starved mirror.old.faults)
        mirror.old.attached mirror.old.moves mirror.old.pages mirror.old.syncs) }
    ensures call { (told : Bool) → TextCall
        (tells_over told S.tells K.tells
        (sides_tell L.tells_stands L.tells_contents G.tells_stands G.tells_contents)) verb text.items
        (mirror_devices (source_of (S.left input.old) (S.faults input.old))
        (sink_of (K.taken out.old) (K.faults out.old))
        (mirror_seen (sides_tell L.tells_stands L.tells_contents G.tells_stands G.tells_contents)
        (two_sides (L.view mirror.old.left) (G.view mirror.old.right) mirror.old.sides)
        (history mirror.old.level mirror.old.lapsed mirror.old.starved mirror.old.faults)
        mirror.old.attached mirror.old.moves mirror.old.pages mirror.old.syncs)) result
        (mirror_devices (source_of (S.left input.new) (S.faults input.new))
        (sink_of (K.taken out.new) (K.faults out.new))
        (mirror_seen (sides_tell L.tells_stands L.tells_contents G.tells_stands G.tells_contents)
        (two_sides (L.view mirror.new.left) (G.view mirror.new.right) mirror.new.sides)
        (history mirror.new.level mirror.new.lapsed mirror.new.starved mirror.new.faults)
        mirror.new.attached mirror.new.moves mirror.new.pages mirror.new.syncs)) }
    ensures sides { (told : Bool) → SidesOf
        (tells_over told S.tells K.tells
        (sides_tell L.tells_stands L.tells_contents G.tells_stands G.tells_contents))
        (Command.On verb)
        (mirror_devices (source_of (S.left input.old) (S.faults input.old))
        (sink_of (K.taken out.old) (K.faults out.old))
        (mirror_seen (sides_tell L.tells_stands L.tells_contents G.tells_stands G.tells_contents)
        (two_sides (L.view mirror.old.left) (G.view mirror.old.right) mirror.old.sides)
        (history mirror.old.level mirror.old.lapsed mirror.old.starved mirror.old.faults)
        mirror.old.attached mirror.old.moves mirror.old.pages mirror.old.syncs)) result
        (mirror_devices (source_of (S.left input.new) (S.faults input.new))
        (sink_of (K.taken out.new) (K.faults out.new))
        (mirror_seen (sides_tell L.tells_stands L.tells_contents G.tells_stands G.tells_contents)
        (two_sides (L.view mirror.new.left) (G.view mirror.new.right) mirror.new.sides)
        (history mirror.new.level mirror.new.lapsed mirror.new.starved mirror.new.faults)
        mirror.new.attached mirror.new.moves mirror.new.pages mirror.new.syncs)) }
    ensures line { IsTrue E.tells → ¬ Rose (E.faults err.old) (E.faults err.new)
        → E.taken err.new ≡ E.taken err.old ++ line_of result }
    ensures front { IsTrue E.tells → AppendsFront (E.taken err.old) (E.taken err.new) (line_of result) }
    ensures faults { E.faults err.old ≤ E.faults err.new }
{
    match heal_for(alloc, verb, &text, mirror) {
        Ok(()) => {
            let mut source = SureSource::new(text);
            bmmc_top(alloc, words, &mut source, input, out, err, mirror)
        }
        Err(status) => {
            write_answer(err, &status);
            status
        }
    }
}

// Carries out a command that has a job, and writes the line of its answer.
fn run_on_job<L: Rack, G: Rack, J: Source, S: Source, K: Sink, E: Sink>(
    alloc: Global,
    verb: Verb,
    words: &[String],
    job: &mut J,
    input: &mut S,
    out: &mut K,
    err: &mut E,
    mirror: &mut Mirror<L, G>,
) -> Status
    requires words { IsJobWords words.now verb }
    requires fresh { IsNewMirror
        (mirror_seen (sides_tell L.tells_stands L.tells_contents G.tells_stands G.tells_contents)
        (two_sides (L.view mirror.old.left) (G.view mirror.old.right) mirror.old.sides)
        (history mirror.old.level mirror.old.lapsed mirror.old.starved mirror.old.faults)
        mirror.old.attached mirror.old.moves mirror.old.pages mirror.old.syncs) }
    ensures call { CommandCall
        (tells_over J.tells S.tells K.tells
        (sides_tell L.tells_stands L.tells_contents G.tells_stands G.tells_contents)) (Command.On verb)
        (mirror_moment (source_of (J.left job.old) (J.faults job.old))
        (mirror_devices (source_of (S.left input.old) (S.faults input.old))
        (sink_of (K.taken out.old) (K.faults out.old))
        (mirror_seen (sides_tell L.tells_stands L.tells_contents G.tells_stands G.tells_contents)
        (two_sides (L.view mirror.old.left) (G.view mirror.old.right) mirror.old.sides)
        (history mirror.old.level mirror.old.lapsed mirror.old.starved mirror.old.faults)
        mirror.old.attached mirror.old.moves mirror.old.pages mirror.old.syncs))) result
        (mirror_moment (source_of (J.left job.new) (J.faults job.new))
        (mirror_devices (source_of (S.left input.new) (S.faults input.new))
        (sink_of (K.taken out.new) (K.faults out.new))
        (mirror_seen (sides_tell L.tells_stands L.tells_contents G.tells_stands G.tells_contents)
        (two_sides (L.view mirror.new.left) (G.view mirror.new.right) mirror.new.sides)
        (history mirror.new.level mirror.new.lapsed mirror.new.starved mirror.new.faults)
        mirror.new.attached mirror.new.moves mirror.new.pages mirror.new.syncs))) }
    ensures line { IsTrue E.tells → ¬ Rose (E.faults err.old) (E.faults err.new)
        → E.taken err.new ≡ E.taken err.old ++ line_of result }
    ensures front { IsTrue E.tells → AppendsFront (E.taken err.old) (E.taken err.new) (line_of result) }
    ensures faults { E.faults err.old ≤ E.faults err.new }
{
    match job_text(alloc, job) {
        Ok(text) => run_on_text(alloc, verb, words, text, input, out, err, mirror),
        Err(status) => {
            write_answer(err, &status);
            status
        }
    }
}

// Carries out a command, and writes the line of its answer.
fn run_command<L: Rack, G: Rack, J: Source, S: Source, K: Sink, E: Sink>(
    alloc: Global,
    command: Command,
    words: &[String],
    job: &mut J,
    input: &mut S,
    out: &mut K,
    err: &mut E,
    mirror: &mut Mirror<L, G>,
) -> Status
    requires words { IsCommand words.now command }
    requires fresh { IsNewMirror
        (mirror_seen (sides_tell L.tells_stands L.tells_contents G.tells_stands G.tells_contents)
        (two_sides (L.view mirror.old.left) (G.view mirror.old.right) mirror.old.sides)
        (history mirror.old.level mirror.old.lapsed mirror.old.starved mirror.old.faults)
        mirror.old.attached mirror.old.moves mirror.old.pages mirror.old.syncs) }
    ensures call { CommandCall
        (tells_over J.tells S.tells K.tells
        (sides_tell L.tells_stands L.tells_contents G.tells_stands G.tells_contents)) command
        (mirror_moment (source_of (J.left job.old) (J.faults job.old))
        (mirror_devices (source_of (S.left input.old) (S.faults input.old))
        (sink_of (K.taken out.old) (K.faults out.old))
        (mirror_seen (sides_tell L.tells_stands L.tells_contents G.tells_stands G.tells_contents)
        (two_sides (L.view mirror.old.left) (G.view mirror.old.right) mirror.old.sides)
        (history mirror.old.level mirror.old.lapsed mirror.old.starved mirror.old.faults)
        mirror.old.attached mirror.old.moves mirror.old.pages mirror.old.syncs))) result
        (mirror_moment (source_of (J.left job.new) (J.faults job.new))
        (mirror_devices (source_of (S.left input.new) (S.faults input.new))
        (sink_of (K.taken out.new) (K.faults out.new))
        (mirror_seen (sides_tell L.tells_stands L.tells_contents G.tells_stands G.tells_contents)
        (two_sides (L.view mirror.new.left) (G.view mirror.new.right) mirror.new.sides)
        (history mirror.new.level mirror.new.lapsed mirror.new.starved mirror.new.faults)
        mirror.new.attached mirror.new.moves mirror.new.pages mirror.new.syncs))) }
    ensures line { IsTrue E.tells → ¬ Rose (E.faults err.old) (E.faults err.new)
        → E.taken err.new ≡ E.taken err.old ++ line_of result }
    ensures front { IsTrue E.tells → AppendsFront (E.taken err.old) (E.taken err.new) (line_of result) }
    ensures faults { E.faults err.old ≤ E.faults err.new }
{
    match command {
        Command::Flip(_) => bmmc_top(alloc, words, job, input, out, err, mirror),
        Command::On(verb) => run_on_job(alloc, verb, words, job, input, out, err, mirror),
    }
}

/// Carries out a command over a mirror of two racks, and writes the line of its answer and a line
/// that tells which sides are in to `err`.
///
/// The words are `mirror left` or `mirror right` and those of a command of `bmmc_top`; `Usage` for
/// all else, and then no line of the sides. The side is in at first, and the other is out: the user
/// trusts that one. The mirror is handed back as it stands at the end.
///
/// The job source is read whole, with the refusals of `bmmc_top`. For `load`, `run`, `status`, `dump`,
/// `drop` and `detect` the other side is filled from the first one before, where the disks of the
/// job stand on that, and is in then. A side that can't be filled stays out. `RackFault` where the
/// first side failed, and `OutOfMemory` where memory for a row of blocks was refused. `new`, `carry`
/// and `flip` make disks on both sides.
///
/// Every answer then is that of `bmmc_top` with the mirror as its rack. So one side may fail at any
/// time, and `RackFault` comes where each side that had been level did. The line of the sides is
/// `sides left right`, `sides left` or `sides right`. It is tried also where the first line failed.
pub fn mirror_top<L: Rack, G: Rack, J: Source, S: Source, K: Sink, E: Sink>(
    alloc: Global,
    words: &[String],
    job: &mut J,
    input: &mut S,
    out: &mut K,
    err: &mut E,
    left: L,
    right: G,
) -> (Status, Mirror<L, G>)
    ensures call { MirrorTop
        (tells_over J.tells S.tells K.tells
        (sides_tell L.tells_stands L.tells_contents G.tells_stands G.tells_contents)) words.now
        (λ first. mirror_moment (source_of (J.left job.old) (J.faults job.old))
        (mirror_devices (source_of (S.left input.old) (S.faults input.old))
        (sink_of (K.taken out.old) (K.faults out.old))
        (new_mirror (sides_tell L.tells_stands L.tells_contents G.tells_stands G.tells_contents) (L.view left) (G.view right) first))) result.0
        (mirror_moment (source_of (J.left job.new) (J.faults job.new))
        (mirror_devices (source_of (S.left input.new) (S.faults input.new))
        (sink_of (K.taken out.new) (K.faults out.new))
        (mirror_seen (sides_tell L.tells_stands L.tells_contents G.tells_stands G.tells_contents)
        (two_sides (L.view result.1.left) (G.view result.1.right) result.1.sides)
        (history result.1.level result.1.lapsed result.1.starved result.1.faults)
        result.1.attached result.1.moves result.1.pages result.1.syncs))) }

    // the lines
    ensures line { IsTrue E.tells → ¬ Rose (E.faults err.old) (E.faults err.new)
        → E.taken err.new
        ≡ E.taken err.old ++ line_of result.0 ++ last_line result.0 result.1.sides }
    ensures front { IsTrue E.tells → AppendsFronts (E.taken err.old) (E.taken err.new)
        (line_of result.0) (last_line result.0 result.1.sides) }
    ensures faults { E.faults err.old ≤ E.faults err.new }
{
    match mirror_of(words) {
        Some(spelled) => {
            let mut mirror = Mirror::new(left, right, spelled.first);
            let status = run_command(
                alloc,
                spelled.command,
                &words[2..],
                job,
                input,
                out,
                err,
                &mut mirror,
            );
            write_sides(err, mirror.sides());
            (status, mirror)
        }
        None => {
            write_answer(err, &Status::Usage);
            (Status::Usage, Mirror::new(left, right, Side::Left))
        }
    }
}
