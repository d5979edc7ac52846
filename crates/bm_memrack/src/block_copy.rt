//! Copies of blocks between a row's bytes and one list that holds a rack's blocks.

ghost use Rattle.std.specs.Prelude.{◌≡◌, ℕ, ◌+◌, ◌*◌, ◌^◌, ◌<◌, ◌≤◌, Bool, length, take, drop, replicate, slice_index_or, Some, None};
ghost use Rattle.std.specs.Fork.{slice_chunk};
ghost use borrow.Rule.Slice.PartMut.{put_mid};
ghost use Rattle.bm_memrack.specs.BlockCopy.{AreOnDisks, BlocksRead, BlocksWritten, number, flat_at, zero_block};

use bm_base::Dims;

/// Copies some bytes of one list over some of another.
pub fn copy_bytes(to: &mut [u8], at: usize, from: &[u8], start: usize, len: usize)
    requires to { at + len ≤ length to.old }
    requires from { start + len ≤ length from.now }
    ensures { to.new ≡ put_mid at len to.old (take len (drop start from.now)) }
{
    to[at..at + len].copy_from_slice(&from[start..start + len]);
}

// Sets some bytes of a list to zero.
fn clear_bytes(bytes: &mut [u8], at: usize, len: usize)
    requires { at + len ≤ length bytes.old }
    ensures { bytes.new ≡ put_mid at len bytes.old (replicate len 0) }
{
    bytes[at..at + len].fill(0);
}

// The number of a block.
fn number_of(dims: &Dims, disk: usize, place: u64) -> usize
    requires disk { disk < dims.now.disks }
    requires place { place < dims.now.places }
    requires count { dims.now.disks * dims.now.places < 2 ^ 63 }
    ensures number { result ≡ number dims.now disk place }
    ensures below { result < dims.now.disks * dims.now.places }
{
    disk * dims.places as usize + place as usize
}

/// Reads the blocks of a row.
pub fn read_blocks(dims: &Dims, flat: &[u8], places: &[Option<u64>], bytes: &mut [u8])
    requires count { dims.now.disks * dims.now.places < 2 ^ 63 }
    requires flat { length flat.now ≡ dims.now.disks * dims.now.places * dims.now.block }
    requires disks { length places.now ≡ dims.now.disks }
    requires below { AreOnDisks dims.now places.now }
    requires bytes { length bytes.old ≡ dims.now.disks * dims.now.block }
    ensures { BlocksRead dims.now dims.now.disks (flat_at dims.now flat.now)
        places.now bytes.old bytes.new }
{
    let block = dims.block as usize;
    for (disk, place) in places.iter().enumerate() {
        if let Some(place) = *place {
            let from = number_of(dims, disk, place);
            copy_bytes(bytes, disk * block, flat, from * block, block);
        }
    }
}

/// Sets the bytes of the disks that take part to zero.
pub fn clear_blocks(dims: &Dims, places: &[Option<u64>], bytes: &mut [u8])
    requires disks { length places.now ≡ dims.now.disks }
    requires bytes { length bytes.old ≡ dims.now.disks * dims.now.block }
    ensures { BlocksRead dims.now dims.now.disks (zero_block dims.now)
        places.now bytes.old bytes.new }
{
    let block = dims.block as usize;
    for (disk, place) in places.iter().enumerate() {
        if place.is_some() {
            clear_bytes(bytes, disk * block, block);
        }
    }
}

/// Writes the first bytes of the blocks of a row, and makes the blocks dirty.
pub fn write_blocks(
    dims: &Dims,
    flat: &mut [u8],
    dirty_blocks: &mut [bool],
    places: &[Option<u64>],
    bytes: &[u8],
    len: usize,
)
    requires count { dims.now.disks * dims.now.places < 2 ^ 63 }
    requires flat { length flat.old ≡ dims.now.disks * dims.now.places * dims.now.block }
    requires dirty_blocks { length dirty_blocks.old ≡ dims.now.disks * dims.now.places }
    requires disks { length places.now ≡ dims.now.disks }
    requires below { AreOnDisks dims.now places.now }
    requires bytes { length bytes.now ≡ dims.now.disks * dims.now.block }
    requires len { len ≤ dims.now.block }
    ensures { BlocksWritten dims.now dims.now.disks places.now bytes.now len
        flat.old dirty_blocks.old flat.new dirty_blocks.new }
{
    let block = dims.block as usize;
    for (disk, place) in places.iter().enumerate() {
        if let Some(place) = *place {
            let to = number_of(dims, disk, place);
            copy_bytes(flat, to * block, bytes, disk * block, len);
            dirty_blocks[to] = true;
        }
    }
}
