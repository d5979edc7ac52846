//! Plans of the transform.

use bm_base::Shape;
use bm_factor::FactorError;
use bm_forms::{Job, pass_count, pass_limit};
use bm_walsh::{WalshError, walsh_plan};
use std::test::Fail;

// A shape by n, b, d and m, and the butterfly bits of each of its passes.
#[derive(Clone, Copy)]
struct Row {
    shape: (u8, u8, u8, u8),
    lows: &'static [u8],
}

// Counted by hand. The first two have two rounds, and their rotations (by 1 and 1, by 3 and 1) are
// not MLD and send one bit out of the load: two passes each. The third has one round, whose
// rotation changes nothing.
const ROWS: [Row; 3] = [
    Row {
        shape: (2, 0, 0, 1),
        lows: &[1, 0, 1, 0],
    },
    Row {
        shape: (4, 1, 1, 3),
        lows: &[3, 0, 1, 0],
    },
    Row {
        shape: (3, 1, 1, 3),
        lows: &[3],
    },
];

// The passes of a plan and their butterflies, and the number that is said without making it.
#[test]
fn passes_of_the_transform(rt: HostRuntime) -> Result<(), Fail> {
    for row in ROWS {
        let (n, b, d, m) = row.shape;
        let shape = Shape::new(n, b, d, m, 8).ok().ok_or("shape")?;
        let plan = walsh_plan(rt.alloc(), &shape).ok().ok_or("plan")?;
        assert_eq!(rt; usize::from(plan.len()), row.lows.len());
        for (i, low) in row.lows.iter().enumerate() {
            assert_eq!(rt; plan.at(i as u16).low, *low, "pass {i} at n = {n}");
        }
        assert_eq!(rt; pass_count(&shape, &Job::Walsh), plan.len());
        assert!(rt; plan.len() <= pass_limit(&shape, &Job::Walsh));
    }
    Ok(())
}

// Records that are no numbers of 8 bytes have no transform.
#[test]
fn other_widths_are_refused(rt: HostRuntime) -> Result<(), Fail> {
    for width in [1, 4, 16] {
        let shape = Shape::new(2, 0, 0, 1, width).ok().ok_or("shape")?;
        let refused = walsh_plan(rt.alloc(), &shape).err();
        assert_eq!(rt; refused, Some(WalshError::Width), "{width}");
    }
    Ok(())
}

// The texts of the planners' errors.
#[test]
fn errors_have_texts(rt: HostRuntime) -> Result<(), Fail> {
    let alloc = rt.alloc();
    let singular = format!(in alloc; "{}", FactorError::Singular { x: 3 })?;
    assert_eq!(rt;
        singular.as_str(),
        "the matrix is singular: it sends 3 to 0"
    );
    let no_memory = format!(in alloc; "{}", FactorError::OutOfMemory)?;
    assert_eq!(rt; no_memory.as_str(), "out of memory");
    let width = format!(in alloc; "{}", WalshError::Width)?;
    assert_eq!(rt; width.as_str(), "the records are not 8 bytes wide");
    let no_memory = format!(in alloc; "{}", WalshError::OutOfMemory)?;
    assert_eq!(rt; no_memory.as_str(), "out of memory");
    Ok(())
}
