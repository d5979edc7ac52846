//! Sets of address bits that are given as lists.

ghost use Rattle.std.specs.Prelude.{◌≡◌, ◌^◌, ◌<◌, ◌≤◌, length, slice_index, IfOk, IfErr};
ghost use Rattle.bm_kinds.specs.OnBits.{set_of, AreBits};
ghost use Rattle.bm_kindjob.specs.SetList.{SetFaultIs};

use bm_named::{MapFault, earlier};

/// The set of the bits of a list, or the first fault of the list: entry j is no bit of n, or the
/// same as an earlier one.
pub fn set_of_list(n: u8, list: &[u8]) -> Result<u64, MapFault>
    requires { n ≤ 52 }
    ensures bits { IfOk result (λ set. AreBits n (length list.now) (slice_index list.now)) }
    ensures set { IfOk result (λ set. set ≡ set_of (slice_index list.now) (length list.now)) }
    ensures below { IfOk result (λ set. set < 2 ^ n) }
    ensures fault { IfErr result (λ e. SetFaultIs n list.now e) }
{
    let mut set = 0;
    for j in 0..list.len() {
        let bit = list[j];
        if bit >= n {
            return Err(MapFault::Range { i: j as u8 });
        }
        if let Some(i) = earlier(list, j as u8) {
            return Err(MapFault::Twice { i, j: j as u8 });
        }
        set |= 1 << bit;
    }
    Ok(set)
}
