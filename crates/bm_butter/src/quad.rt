//! One group of four of two bits.

ghost use Rattle.std.specs.Prelude.{◌≡◌, ◌≢◌, ℕ, ◌+◌, ◌*◌, ◌≤◌, length};
ghost use Rattle.bm_butter.specs.Records.{record_in_order};
ghost use Rattle.bm_butter.specs.Groups.{pick, AreApart, IsGroup};

use crate::kernels::Kernel;
use crate::pair::set_number;
use bm_base::number_at;

/// Takes a group through a kernel on both bits: records p and q are a pair of the first bit, as r
/// and s are, and records p and r are a pair of the second, as q and s are.
pub fn quad<K: Kernel>(kernel: &K, buf: &mut [u8], p: usize, q: usize, r: usize, s: usize)
    requires apart { AreApart p q r s }
    requires p { (p + 1) * 8 ≤ length buf.old }
    requires q { (q + 1) * 8 ≤ length buf.old }
    requires r { (r + 1) * 8 ≤ length buf.old }
    requires s { (s + 1) * 8 ≤ length buf.old }
    ensures group { IsGroup (K.meaning kernel.now) (pick p q r s) buf.old buf.new }
    ensures others { (k : ℕ) → k ≢ p → k ≢ q → k ≢ r → k ≢ s
        → record_in_order buf.new k ≡ record_in_order buf.old k }
    ensures size { length buf.new ≡ length buf.old }
{
    let above = kernel.pair(number_at(buf, p), number_at(buf, q));
    let below = kernel.pair(number_at(buf, r), number_at(buf, s));
    let (at_p, at_r) = kernel.pair(above.0, below.0);
    let (at_q, at_s) = kernel.pair(above.1, below.1);
    set_number(buf, p, at_p);
    set_number(buf, q, at_q);
    set_number(buf, r, at_r);
    set_number(buf, s, at_s);
}
