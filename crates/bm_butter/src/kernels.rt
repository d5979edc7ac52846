//! Kernels: what a transform makes of a pair of numbers.

ghost use Rattle.std.specs.Prelude.{◌≡◌, ℕ};
ghost use Rattle.bm_butter.specs.Pairings.{KeepsWords, Commutes};
ghost use Rattle.bm_butter.specs.Kernels as kernels;
ghost use Rattle.bm_butter.specs.Laws.{keeps_words, commutes};

/// What a transform makes of u and v, the numbers at two addresses without and with a bit.
///
/// By its law two bits may be taken in either order.
pub trait Kernel {
    ghost meaning: { Self → ℕ → ℕ → ℕ × ℕ };

    /// The numbers that stand at the two addresses afterwards.
    fn pair(&self, u: u64, v: u64) -> (u64, u64)
        ensures { result ≡ meaning self.now u v };

    ghost keeps: { (it : Self) → KeepsWords (meaning it) };

    ghost law: { (it : Self) → Commutes (meaning it) };
}

/// u + v and u - v: over a set of bits, the Walsh-Hadamard transform of those bits.
#[derive(Clone, Copy, Debug, PartialEq, Eq)]
pub struct Signs;

/// u and u + v: sums over the subsets of an address.
#[derive(Clone, Copy, Debug, PartialEq, Eq)]
pub struct Sums;

/// u and v - u, which undoes `Sums`.
#[derive(Clone, Copy, Debug, PartialEq, Eq)]
pub struct Differences;

/// u and u XOR v, which undoes itself.
#[derive(Clone, Copy, Debug, PartialEq, Eq)]
pub struct Xors;

impl Kernel for Signs {
    ghost meaning = { λ it. kernels.pairing kernels.WalshBits };

    ghost keeps = { λ it. keeps_words kernels.WalshBits };

    ghost law = { λ it. commutes kernels.WalshBits };

    fn pair(&self, u: u64, v: u64) -> (u64, u64) {
        (u.wrapping_add(v), u.wrapping_sub(v))
    }
}

impl Kernel for Sums {
    ghost meaning = { λ it. kernels.pairing kernels.Sums };

    ghost keeps = { λ it. keeps_words kernels.Sums };

    ghost law = { λ it. commutes kernels.Sums };

    fn pair(&self, u: u64, v: u64) -> (u64, u64) {
        (u, u.wrapping_add(v))
    }
}

impl Kernel for Differences {
    ghost meaning = { λ it. kernels.pairing kernels.Differences };

    ghost keeps = { λ it. keeps_words kernels.Differences };

    ghost law = { λ it. commutes kernels.Differences };

    fn pair(&self, u: u64, v: u64) -> (u64, u64) {
        (u, v.wrapping_sub(u))
    }
}

impl Kernel for Xors {
    ghost meaning = { λ it. kernels.pairing kernels.Xors };

    ghost keeps = { λ it. keeps_words kernels.Xors };

    ghost law = { λ it. commutes kernels.Xors };

    fn pair(&self, u: u64, v: u64) -> (u64, u64) {
        (u, u ^ v)
    }
}
