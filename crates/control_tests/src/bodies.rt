//! Pages of the control file, byte for byte.

ghost use Rattle.std.specs.Prelude.{◌≤◌, ◌+◌, length};

/// The load body of 16 records of one byte, on two disks in blocks of two, eight of them in a load.
pub const LOAD: [u8; 16] = [
    0x42, 0x4d, 0x4d, 0x43, 0x4c, 0x4f, 0x41, 0x44, 1, 0, 4, 1, 1, 3, 1, 0,
];

/// The body of a permutation of four bits in two passes, and of a job with checkpoints.
pub const WHOLE: [u8; 16] = [
    0x42, 0x4d, 0x4d, 0x43, 0x54, 0x41, 0x53, 0x4b, 1, 0, 1, 4, 2, 0, 0, 0,
];

pub const PARTS: [u8; 16] = [
    0x42, 0x4d, 0x4d, 0x43, 0x54, 0x41, 0x53, 0x4b, 2, 0, 1, 4, 2, 0, 0, 0,
];

/// The body of pass 1.
pub const PASS: [u8; 16] = [
    0x42, 0x4d, 0x4d, 0x43, 0x50, 0x41, 0x53, 0x53, 1, 0, 0, 4, 1, 0, 0, 0,
];

/// The columns of the bit reversal.
pub const REVERSAL: [u64; 4] = [8, 4, 2, 1];

/// The columns of a map that one pass can do.
pub const ONE_PASS: [u64; 4] = [1, 10, 4, 8];

/// The page with these bytes at a place.
pub fn put(page: [u8; 512], place: usize, bytes: &[u8]) -> [u8; 512]
    requires { place + length bytes.now ≤ 512 }
{
    let mut page = page;
    page[place..place + bytes.len()].copy_from_slice(bytes);
    page
}

/// The page of 16 bytes, the constant 0, these columns of 8 bytes each, and a last number.
pub fn map_page(head: [u8; 16], cols: [u64; 4], last: u64) -> [u8; 512] {
    let [one, two, three, four] = cols;
    let page = put([0; 512], 0, &head);
    let page = put(page, 24, &one.to_le_bytes());
    let page = put(page, 32, &two.to_le_bytes());
    let page = put(page, 40, &three.to_le_bytes());
    let page = put(page, 48, &four.to_le_bytes());
    put(page, 504, &last.to_le_bytes())
}

/// The page of the part body of a pass and a number of loads below 256.
pub fn part_page(pass: u8, loads: u8) -> [u8; 512] {
    let front = [
        0x42, 0x4d, 0x4d, 0x43, 0x50, 0x41, 0x52, 0x54, 2, 0, pass, 0, 0, 0, 0, 0, loads,
    ];
    put([0; 512], 0, &front)
}

/// What is written on a page.
#[derive(Clone, Copy, Debug, PartialEq, Eq)]
pub enum Body {
    Zeros,
    Gate,
    /// The job body by these columns with this number of passes, from version 1.
    Job { cols: [u64; 4], passes: u8 },
    /// The body of pass 1 by these columns.
    Pass { cols: [u64; 4] },
    Part { pass: u8, loads: u8 },
}

/// A job body.
pub fn job(cols: [u64; 4], passes: u8) -> Body {
    Body::Job { cols, passes }
}

/// A part body.
pub fn part(pass: u8, loads: u8) -> Body {
    Body::Part { pass, loads }
}

/// The bytes of a body.
pub fn bytes_of(body: Body) -> [u8; 512] {
    match body {
        Body::Zeros => [0; 512],
        Body::Gate => put([0; 512], 0, b"BMMCOPEN"),
        Body::Job { cols, passes } => put(map_page(WHOLE, cols, 0), 12, &[passes]),
        Body::Pass { cols } => map_page(PASS, cols, 0),
        Body::Part { pass, loads } => part_page(pass, loads),
    }
}
