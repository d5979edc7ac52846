//! What `plan` answers for each kind of map.

use crate::job_rows::{SIXTEEN, answer_of};
use std::test::Fail;
use test_helpers::DONE;

// A table of the map, with the status and the line on error of a job by it.
const MAPS: [(&str, u8, &str); 23] = [
    ("kind = \"identity\"", 0, DONE),
    ("kind = \"reversal\"", 0, DONE),
    ("kind = \"bit-reversal\"\ncomplement = 15", 0, DONE),
    ("kind = \"transpose\"\np = 2", 0, DONE),
    ("kind = \"inverse-gray\"", 0, DONE),
    ("kind = \"rotation\"\nby = 1", 0, DONE),
    ("kind = \"bits\"\nbits = [1, 0, 2, 3]", 0, DONE),
    ("kind = \"rows\"\nrows = [1, 2, 4, 10]", 0, DONE),
    ("kind = \"flip\"", 5, "bmmc: job field map.kind\n"),
    ("kind = \"transpose\"", 5, "bmmc: job field map.p\n"),
    ("kind = \"rotation\"", 5, "bmmc: job field map.by\n"),
    (
        "kind = \"bits\"\nbits = [0, 1, 2, 256]",
        5,
        "bmmc: job field map.bits\n",
    ),
    (
        "kind = \"rows\"\nrows = [1, 2, 4, -8]",
        5,
        "bmmc: job field map.rows\n",
    ),
    (
        "kind = \"gray\"\ncomplement = -1",
        5,
        "bmmc: job field map.complement\n",
    ),
    ("kind = \"gray\"\np = 2", 5, "bmmc: job field unknown\n"),
    ("kind = \"walsh\"", 7, "bmmc: job map width\n"),
    ("kind = \"transpose\"\np = 5", 7, "bmmc: job map side 5\n"),
    (
        "kind = \"bits\"\nbits = [0, 1]",
        7,
        "bmmc: job map length 2\n",
    ),
    (
        "kind = \"bits\"\nbits = [0, 4, 1, 2]",
        7,
        "bmmc: job map range 1\n",
    ),
    (
        "kind = \"bits\"\nbits = [0, 1, 1, 2]",
        7,
        "bmmc: job map twice 1 2\n",
    ),
    (
        "kind = \"rows\"\nrows = [1, 16, 4, 8]",
        7,
        "bmmc: job map wide 1\n",
    ),
    (
        "kind = \"rows\"\nrows = [3, 3, 4, 8]",
        7,
        "bmmc: job map singular 3\n",
    ),
    (
        "kind = \"gray\"\ncomplement = 16",
        7,
        "bmmc: job map complement 16\n",
    ),
];

// A map of each kind, and each fault of its fields and of the map.
#[test]
fn answers_of_maps(rt: HostRuntime) -> Result<(), Fail> {
    for (map, code, line) in MAPS {
        let answer = answer_of(rt.alloc(), "", SIXTEEN, map, "", line);
        assert_eq!(rt; answer, Some((code, true, code != 0)), "{map}");
    }
    Ok(())
}
