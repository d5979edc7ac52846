//! Ranks, inverses, named maps and forms against values worked out by hand.

use bm_base::Shape;
use bm_forms::{FormError, Job, MldForm, pass_limit};
use bm_gf2::{Affine, Matrix};
use bm_named::{MapFault, bit_reversal, bits, from_rows, gray, identity, transpose};
use bm_rank::{inverse, rank_of, solve_rows};
use std::test::Fail;

#[test]
fn ranks_and_inverses(rt: HostRuntime) -> Result<(), Fail> {
    let reversed = bit_reversal(4);
    assert_eq!(rt; rank_of(&reversed.a, 1, 1), 1);
    assert_eq!(rt; rank_of(&reversed.a, 3, 3), 1);
    let back = inverse(&gray(4).a).ok().ok_or("gray code is nonsingular")?;
    assert_eq!(rt; &back.cols[..4], [1u64, 3, 7, 15].as_slice());
    let singular = Matrix::from_rows(4, &[3, 3, 4, 8]);
    let refusal = inverse(&singular).err().ok_or("rows 0 and 1 are the same")?;
    assert_eq!(rt; refusal.x, 3);
    let shuffled = from_rows(4, &[1, 2, 4, 10])?;
    assert_eq!(rt; &shuffled.a.cols[..4], [1u64, 10, 4, 8].as_slice());
    let k = solve_rows(&shuffled.a, 1, 3).ok().ok_or("it is MLD")?;
    assert_eq!(rt; (k.count, k.cols[0], k.cols[1]), (2, 1, 0));
    let outside = solve_rows(&reversed.a, 1, 3).err().ok_or("it is not MLD")?;
    assert_eq!(rt; outside.x, 1);
    Ok(())
}

// The lower and the high rank of two large bit reversals.
#[test]
fn large_ranks(rt: HostRuntime) -> Result<(), Fail> {
    let a = bit_reversal(48).a;
    assert_eq!(rt; (rank_of(&a, 10, 10), rank_of(&a, 26, 26)), (10, 22));
    let a = bit_reversal(52).a;
    assert_eq!(rt; (rank_of(&a, 12, 12), rank_of(&a, 28, 28)), (12, 24));
    Ok(())
}

// Each map with the permuted list of the sixteen addresses.
#[test]
fn maps_of_sixteen_addresses(rt: HostRuntime) -> Result<(), Fail> {
    let rows: [(Affine, [u64; 16]); 5] = [
        (
            identity(4),
            [0, 1, 2, 3, 4, 5, 6, 7, 8, 9, 10, 11, 12, 13, 14, 15],
        ),
        (
            bit_reversal(4),
            [0, 8, 4, 12, 2, 10, 6, 14, 1, 9, 5, 13, 3, 11, 7, 15],
        ),
        (
            from_rows(4, &[1, 2, 4, 10])?,
            [0, 1, 10, 11, 4, 5, 14, 15, 8, 9, 2, 3, 12, 13, 6, 7],
        ),
        (
            gray(4),
            [0, 1, 3, 2, 7, 6, 4, 5, 15, 14, 12, 13, 8, 9, 11, 10],
        ),
        (
            transpose(4, 2),
            [0, 4, 8, 12, 1, 5, 9, 13, 2, 6, 10, 14, 3, 7, 11, 15],
        ),
    ];
    for (map, permuted) in rows {
        for x in 0..16u64 {
            if map.a.n == 4 {
                let y = map.apply(x);
                assert_eq!(rt; permuted.get(y as usize).copied(), Some(x), "{y}");
            }
        }
    }
    Ok(())
}

#[test]
fn lists_and_forms(rt: HostRuntime) -> Result<(), Fail> {
    assert_eq!(rt; &transpose(3, 1).a.cols[..3], [2u64, 4, 1].as_slice());
    assert_eq!(rt; bits(3, &[0, 1]).err(), Some(MapFault::Length { got: 2 }));
    assert_eq!(rt; bits(3, &[0, 3, 1]).err(), Some(MapFault::Range { i: 1 }));
    assert_eq!(rt;
        bits(3, &[0, 1, 1]).err(),
        Some(MapFault::Twice { i: 1, j: 2 })
    );
    assert_eq!(rt;
        from_rows(4, &[3, 3, 4, 8]).err(),
        Some(MapFault::Singular { x: 3 })
    );
    let shape = Shape::new(4, 1, 1, 3, 1).ok().ok_or("shape")?;
    assert_eq!(rt;
        MldForm::of(&shape, &bit_reversal(4)).err(),
        Some(FormError::NotMld { x: 1 })
    );
    let singular = Affine {
        a: Matrix::from_rows(4, &[3, 3, 4, 8]),
        c: 0,
    };
    assert_eq!(rt;
        MldForm::of(&shape, &singular).err(),
        Some(FormError::Singular { x: 3 })
    );
    assert_eq!(rt;
        MldForm::of(&shape, &from_rows(4, &[1, 2, 4, 10])?).is_ok(),
        true
    );
    assert_eq!(rt; pass_limit(&shape, &Job::Permute(bit_reversal(4))), 3);
    let numbers = Shape::new(2, 0, 0, 1, 8).ok().ok_or("shape")?;
    assert_eq!(rt; pass_limit(&numbers, &Job::Walsh), 4);
    Ok(())
}
