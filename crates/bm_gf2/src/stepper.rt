//! Images of positions one after another, each from the last one by one XOR.

ghost use Rattle.std.specs.Prelude.{◌≡◌, ◌+◌, ◌-◌, ◌%◌, ◌^◌, ◌<◌, length, slice_index, bit_xor};
ghost use Rattle.bm_gf2.specs.Vector.{xor_sum};
ghost use Rattle.bm_gf2.specs.Stepper.{IsPrefixTable};

use crate::affine::Affine;
use crate::matrix::Matrix;
use crate::vector::MOST_COLUMNS;

// A place in the table of prefix sums for each number of trailing ones, 0 to 52.
const PREFIX_SUMS: usize = MOST_COLUMNS + 1;

/// A position that goes up by one, and from the last to 0, and its image under an affine map.
///
/// The next position differs from this one in the trailing ones of this one and the bit above
/// them. So the image changes by the sum of the first columns, which stands in a table.
#[derive(Clone, Copy, Debug, PartialEq, Eq)]
pub struct Stepper {
    map: Affine,
    position: u64,
    here: u64,
    last: u64,
    prefix_sums: [u64; PREFIX_SUMS],
    pub ghost inside: { position < 2 ^ map.a.n },
    pub ghost stands: { here ≡ bit_xor map.c (xor_sum (slice_index map.a.cols) map.a.n position) },
    pub ghost last_position: { last ≡ 2 ^ map.a.n - 1 },
    pub ghost table: { IsPrefixTable map.a.cols prefix_sums },
}

// Entry t is the XOR of columns 0 to t.
fn prefix_sums(cols: &[u64; MOST_COLUMNS]) -> [u64; PREFIX_SUMS]
    ensures long { length result ≡ 53 }
    ensures table { IsPrefixTable cols.now result }
{
    let mut sums = [0; PREFIX_SUMS];
    let mut sum = 0;
    for t in 0..MOST_COLUMNS {
        sum ^= cols[t];
        sums[t] = sum;
    }
    sums[MOST_COLUMNS] = sum;
    sums
}

impl Stepper {
    ghost use Rattle.bm_gf2.specs.Affine.{affine_image};

    /// Stands at `first`, under the map that sends x to `a x XOR plus`.
    pub fn start(a: &Matrix, plus: u64, first: u64) -> Stepper
        requires plus { plus < 2 ^ a.now.n }
        requires first { first < 2 ^ a.now.n }
        ensures matrix { result.map.a ≡ a.now }
        ensures plus { result.map.c ≡ plus }
        ensures position { result.position ≡ first }
    {
        let map = Affine { a: *a, c: plus };
        Stepper {
            map,
            position: first,
            here: map.apply(first),
            last: (1 << a.n) - 1,
            prefix_sums: prefix_sums(&a.cols),
        }
    }

    /// The image of the position.
    pub fn here(&self) -> u64
        ensures value { result ≡ affine_image self.now.map self.now.position }
        ensures below { result < 2 ^ self.now.map.a.n }
    {
        self.here
    }

    /// Goes to the next position, and from `2 ^ n - 1` to 0.
    pub fn step(&mut self)
        ensures map { self.new.map ≡ self.old.map }
        ensures position { self.new.position ≡ (self.old.position + 1) % 2 ^ self.old.map.a.n }
    {
        self.here ^= self.prefix_sums[self.position.trailing_ones() as usize];
        self.position = (self.position + 1) & self.last;
    }
}
