//! The sizes of a set of records on a rack.

ghost use Rattle.std.specs.Prelude.{◌≡◌, ℕ, ◌+◌, ◌-◌, ◌*◌, ◌/◌, ◌^◌, ◌<◌, ◌≤◌, ◌↔◌, IsOk, IfOk, IfErr};
ghost use Rattle.bm_base.specs.ShapeRules.{IsShape, broken_rule};

use crate::dims::Dims;
use crate::limits::{
    MOST_ADDRESS_BITS, MOST_DISK_BITS, MOST_DISK_BYTES_BITS, MOST_LOAD_BITS, MOST_WIDTH,
};

/// The sizes of N records that lie striped over D disks, all powers of two but the width.
///
/// A record's address has n bits. Of these, bits 0 to b-1 are the offset in its block, the next d
/// bits the disk, the rest the stripe (Cormen, Sundquist, Wisniewski, section 1). Bits m to n-1
/// are the number of its memory load.
#[derive(Clone, Copy, Debug, PartialEq, Eq)]
pub struct Shape {
    n: u8,
    b: u8,
    d: u8,
    m: u8,
    width: u16,
    pub ghost keeps: { IsShape n b d m width },
}

/// The first rule that the numbers of a shape break.
#[derive(Clone, Copy, Debug, PartialEq, Eq)]
pub struct ShapeRule {
    /// 1 to 7 or 9.
    pub rule: u8,
}

impl Shape {
    ghost use Rattle.bm_base.specs.Shape.{dims_of, stripes, load_stripes};

    /// The shape of these numbers, or the first rule that they break.
    ///
    /// 1: n is at most 52. 2: d is at most 6. 3: b is less than m. 4: b + d is at most m.
    /// 5: m is at most n. 6: the width is 1 to 4096 bytes. 7: a memory load has at most 2^30 bytes.
    /// 9: a disk of three areas has at most 2^63 bytes.
    pub fn new(n: u8, b: u8, d: u8, m: u8, width: u16) -> Result<Shape, ShapeRule>
        ensures kept { IsOk result ↔ (broken_rule n b d m width ≡ 0) }
        ensures sizes { IfOk result (λ s. (s.n ≡ n) × (s.b ≡ b) × (s.d ≡ d) × (s.m ≡ m) × (s.width ≡ width)) }
        ensures broken { IfErr result (λ e. e.rule ≡ broken_rule n b d m width) }
    {
        if n > MOST_ADDRESS_BITS {
            return Err(ShapeRule { rule: 1 });
        }
        if d > MOST_DISK_BITS {
            return Err(ShapeRule { rule: 2 });
        }
        if b >= m {
            return Err(ShapeRule { rule: 3 });
        }
        if u16::from(b) + u16::from(d) > u16::from(m) {
            return Err(ShapeRule { rule: 4 });
        }
        if m > n {
            return Err(ShapeRule { rule: 5 });
        }
        if width < 1 || width > MOST_WIDTH {
            return Err(ShapeRule { rule: 6 });
        }
        let bytes = u128::from(width);
        if (1u128 << m) * bytes > 1u128 << MOST_LOAD_BITS {
            return Err(ShapeRule { rule: 7 });
        }
        if 3 * (1u128 << n) * bytes > 1u128 << (MOST_DISK_BYTES_BITS + d) {
            return Err(ShapeRule { rule: 9 });
        }
        Ok(Shape { n, b, d, m, width })
    }

    /// lg N: the bits of an address.
    pub fn n(&self) -> u8
        ensures { result ≡ self.now.n }
    {
        self.n
    }

    /// lg B: the bits of an offset in a block.
    pub fn b(&self) -> u8
        ensures { result ≡ self.now.b }
    {
        self.b
    }

    /// lg D: the bits of a disk's number.
    pub fn d(&self) -> u8
        ensures { result ≡ self.now.d }
    {
        self.d
    }

    /// lg M: the bits of a place in a memory load.
    pub fn m(&self) -> u8
        ensures { result ≡ self.now.m }
    {
        self.m
    }

    /// The bytes of a record.
    pub fn width(&self) -> u16
        ensures { result ≡ self.now.width }
    {
        self.width
    }

    /// N: the records of an area.
    pub fn records(&self) -> u64
        ensures { result ≡ 2 ^ self.now.n }
    {
        1 << self.n
    }

    /// The bytes of a memory load.
    pub fn load_bytes(&self) -> usize
        ensures { result ≡ 2 ^ self.now.m * self.now.width }
    {
        (1usize << self.m) * usize::from(self.width)
    }

    /// The bytes of a row: one block of each disk.
    pub fn row_bytes(&self) -> usize
        ensures bytes { result ≡ 2 ^ (self.now.b + self.now.d) * self.now.width }
        ensures row { result ≡ (dims_of self.now).disks * (dims_of self.now).block }
    {
        (1usize << (self.b + self.d)) * usize::from(self.width)
    }

    /// N/M: the memory loads of an area.
    pub fn loads(&self) -> u64
        ensures { result ≡ 2 ^ (self.now.n - self.now.m) }
    {
        1 << (self.n - self.m)
    }

    /// N/BD: the rows of an area.
    pub fn stripes(&self) -> u64
        ensures { result ≡ stripes self.now }
    {
        1 << (self.n - self.b - self.d)
    }

    /// M/BD: the rows of a memory load.
    pub fn load_stripes(&self) -> u64
        ensures { result ≡ load_stripes self.now }
    {
        1 << (self.m - self.b - self.d)
    }

    /// 2N/BD: the parallel transfers of a pass.
    pub fn pass_moves(&self) -> u64
        ensures { result ≡ 2 * stripes self.now }
    {
        2 * self.stripes()
    }

    /// The sizes of the rack that the records ask for: D disks of three areas.
    pub fn dims(&self) -> Dims
        ensures { result ≡ dims_of self.now }
    {
        Dims {
            disks: 1 << self.d,
            places: 3 * self.stripes(),
            block: (1 << self.b) * u32::from(self.width),
        }
    }
}
