//! One pair of a bit.

ghost use Rattle.std.specs.Prelude.{◌≡◌, ◌≢◌, ℕ, ◌+◌, ◌*◌, ◌≤◌, length};
ghost use Rattle.bm_base.specs.Butterfly.{record_of};
ghost use Rattle.bm_butter.specs.Records.{record_in_order};
ghost use Rattle.bm_butter.specs.Pairs.{IsPaired};

use crate::kernels::Kernel;
use bm_base::{NUMBER_BYTES, number_at};
use byteorder::{ByteOrder, LittleEndian};

/// Writes a number into record i.
pub fn set_number(buf: &mut [u8], i: usize, number: u64)
    requires { (i + 1) * 8 ≤ length buf.old }
    ensures written { record_in_order buf.new i ≡ record_of number }
    ensures others { (k : ℕ) → k ≢ i → record_in_order buf.new k ≡ record_in_order buf.old k }
    ensures size { length buf.new ≡ length buf.old }
{
    let at = i * NUMBER_BYTES;
    LittleEndian::write_u64(&mut buf[at..at + NUMBER_BYTES], number);
}

/// Takes u in record i and v in record j through a kernel.
pub fn pair<K: Kernel>(kernel: &K, buf: &mut [u8], i: usize, j: usize)
    requires apart { i ≢ j }
    requires i { (i + 1) * 8 ≤ length buf.old }
    requires j { (j + 1) * 8 ≤ length buf.old }
    ensures paired { IsPaired (K.meaning kernel.now) buf.old buf.new i j }
    ensures others { (k : ℕ) → k ≢ i → k ≢ j
        → record_in_order buf.new k ≡ record_in_order buf.old k }
    ensures size { length buf.new ≡ length buf.old }
{
    let (first, second) = kernel.pair(number_at(buf, i), number_at(buf, j));
    set_number(buf, i, first);
    set_number(buf, j, second);
}
