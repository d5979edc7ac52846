//! What `plan` answers and writes for job texts.

use bm_memrack::{MemSink, MemSource, SureRack, SureSource};
use bm_rack::Source;
use call_helpers::{Answer, said, said_over};
use std::alloc::Global;
use std::test::Fail;
use test_helpers::DONE;

/// The shape of sixteen records of one byte.
pub const SIXTEEN: &str = "n = 4\nb = 1\nd = 1\nm = 3\nwidth = 1";

const GRAY: &str = "kind = \"gray\"";

// What `plan` says of the text of these parts: what stands before the tables of the shape and the
// map, these two, and what stands after them. Nothing where memory is refused.
fn planned(alloc: Global, before: &str, shape: &str, map: &str, rest: &str) -> Option<Answer> {
    let text = format!(in alloc; "{before}\n[shape]\n{shape}\n[map]\n{map}\n{rest}\n").ok()?;
    said(
        alloc,
        "plan job",
        text.as_str(),
        &[],
        &mut SureRack::new(alloc),
    )
}

/// The status of `plan` over the text of these parts, whether this is its line on error, and whether
/// it writes nothing. Nothing where memory is refused.
pub fn answer_of(
    alloc: Global,
    before: &str,
    shape: &str,
    map: &str,
    rest: &str,
    line: &str,
) -> Option<(u8, bool, bool)> {
    let said = planned(alloc, before, shape, map, rest)?;
    Some((
        said.code,
        said.err.taken() == line.as_bytes(),
        said.out.taken().is_empty(),
    ))
}

// What `plan` says of a job source. Nothing where memory is refused.
fn planned_of<J: Source>(alloc: Global, job: &mut J) -> Option<Answer> {
    let mut input = SureSource::new(Vec::new(alloc));
    let out = MemSink::new(alloc, 512, 64, Vec::new(alloc)).ok()?;
    said_over(
        alloc,
        "plan job",
        job,
        &mut input,
        out,
        &mut SureRack::new(alloc),
    )
}

// The plans of two large bit reversals and of a transform, whole.
#[test]
fn whole_plans(rt: HostRuntime) -> Result<(), Fail> {
    let rows = [
        (
            "n = 48\nb = 10\nd = 3\nm = 26\nwidth = 8",
            "kind = \"bit-reversal\"",
            "shape n=48 b=10 d=3 m=26 width=8\njob permute\nstep 1 butterflies 0 lower 10 high 22 passes 3 at-most 3\npasses 3\nmoves 206158430208\nbound 206158430208\n",
        ),
        (
            "n = 52\nb = 12\nd = 4\nm = 28\nwidth = 4",
            "kind = \"bit-reversal\"",
            "shape n=52 b=12 d=4 m=28 width=4\njob permute\nstep 1 butterflies 0 lower 12 high 24 passes 3 at-most 3\npasses 3\nmoves 412316860416\nbound 412316860416\n",
        ),
        (
            "n = 2\nb = 0\nd = 0\nm = 1\nwidth = 8",
            "kind = \"walsh\"",
            "shape n=2 b=0 d=0 m=1 width=8\njob walsh\nstep 1 butterflies 1 lower 0 high 1 passes 2 at-most 2\nstep 2 butterflies 1 lower 0 high 1 passes 2 at-most 2\npasses 4\nmoves 32\nbound 32\n",
        ),
    ];
    for (shape, map, want) in rows {
        let said = planned(rt.alloc(), "", shape, map, "").ok_or("memory")?;
        assert_eq!(rt;
            (
                said.code,
                said.err.taken() == DONE.as_bytes(),
                said.out.taken() == want.as_bytes()
            ),
            (0, true, true),
            "{shape}"
        );
    }
    Ok(())
}

// A table of the shape, with the status and the line on error of its Gray code.
const SHAPES: [(&str, u8, &str); 11] = [
    ("n = 4\nn = 4", 4, "bmmc: job text\n"),
    (
        "b = 1\nd = 1\nm = 3\nwidth = 1",
        5,
        "bmmc: job field shape.n\n",
    ),
    (
        "n = \"4\"\nb = 1\nd = 1\nm = 3\nwidth = 1",
        5,
        "bmmc: job field shape.n\n",
    ),
    (
        "n = 4\nb = 256\nd = 1\nm = 3\nwidth = 1",
        5,
        "bmmc: job field shape.b\n",
    ),
    (
        "n = 4\nb = 1\nd = -1\nm = 3\nwidth = 1",
        5,
        "bmmc: job field shape.d\n",
    ),
    (
        "n = 4\nb = 1\nd = 1\nwidth = 1",
        5,
        "bmmc: job field shape.m\n",
    ),
    (
        "n = 4\nb = 1\nd = 1\nm = 3\nwidth = 65536",
        5,
        "bmmc: job field shape.width\n",
    ),
    (
        "n = 4\nb = 1\nd = 1\nm = 3\nwidth = 1\nsize = 1",
        5,
        "bmmc: job field unknown\n",
    ),
    (
        "n = 53\nb = 12\nd = 4\nm = 28\nwidth = 4",
        6,
        "bmmc: job shape rule 1\n",
    ),
    (
        "n = 20\nb = 7\nd = 2\nm = 14\nwidth = 4097",
        6,
        "bmmc: job shape rule 6\n",
    ),
    (
        "n = 52\nb = 8\nd = 0\nm = 18\nwidth = 4096",
        6,
        "bmmc: job shape rule 9\n",
    ),
];

// Each fault of the fields of the shape, and of its rules.
#[test]
fn answers_of_shapes(rt: HostRuntime) -> Result<(), Fail> {
    for (shape, code, line) in SHAPES {
        let answer = answer_of(rt.alloc(), "", shape, GRAY, "", line);
        assert_eq!(rt; answer, Some((code, true, code != 0)), "{shape}");
    }
    Ok(())
}

// What stands before the shape, the shape, and what stands after the map, with the status and the
// line on error of the Gray code.
const TABLES: [(&str, &str, &str, u8, &str); 8] = [
    ("shape = 1\n[other]", "", "", 4, "bmmc: job text\n"),
    ("a = ", SIXTEEN, "", 4, "bmmc: job text\n"),
    (
        "",
        SIXTEEN,
        "[drill]\nstart = 3\nstops = [22, 0]\n[run]\ncheckpoint = 9",
        0,
        DONE,
    ),
    ("drill = 1", SIXTEEN, "", 5, "bmmc: job field drill\n"),
    (
        "",
        SIXTEEN,
        "[drill]\nstart = -1",
        5,
        "bmmc: job field drill.start\n",
    ),
    (
        "",
        SIXTEEN,
        "[drill]\nstops = [1]",
        5,
        "bmmc: job field drill.stops\n",
    ),
    ("run = 1", SIXTEEN, "", 5, "bmmc: job field run\n"),
    (
        "",
        SIXTEEN,
        "[run]\ncheckpoint = 0",
        5,
        "bmmc: job field run.checkpoint\n",
    ),
];

// The other tables, each fault of their fields, and texts that are no TOML.
#[test]
fn answers_of_other_tables(rt: HostRuntime) -> Result<(), Fail> {
    for (before, shape, rest, code, line) in TABLES {
        let answer = answer_of(rt.alloc(), before, shape, GRAY, rest, line);
        assert_eq!(rt; answer, Some((code, true, code != 0)), "{before} {rest}");
    }
    Ok(())
}

// A text without its tables, one that is too long, and a source that fails at its first read.
#[test]
fn other_job_sources(rt: HostRuntime) -> Result<(), Fail> {
    let alloc = rt.alloc();
    let shape = format!(in alloc; "[shape]\n{SIXTEEN}\n")?;
    let longest = vec![in alloc; b'#'; 65536]?;
    let too_long = vec![in alloc; b'#'; 65537]?;
    let mut failing = MemSource::new(Vec::new(alloc), 1, [1u64].to_vec(alloc)?);
    let rows = [
        (
            planned_of(alloc, &mut SureSource::new(Vec::new(alloc))),
            5,
            "bmmc: job field shape\n",
        ),
        (
            planned_of(alloc, &mut SureSource::new(shape.into_bytes())),
            5,
            "bmmc: job field map\n",
        ),
        (
            planned_of(alloc, &mut SureSource::new(longest)),
            5,
            "bmmc: job field shape\n",
        ),
        (
            planned_of(alloc, &mut SureSource::new(too_long)),
            4,
            "bmmc: job text\n",
        ),
        (planned_of(alloc, &mut failing), 3, "bmmc: job fault\n"),
    ];
    for (said, code, line) in rows {
        let said = said.ok_or("memory")?;
        assert_eq!(rt;
            (said.code, said.err.taken()),
            (code, line.as_bytes()),
            "{line}"
        );
    }
    Ok(())
}
