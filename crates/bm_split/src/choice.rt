//! The two steps by which a placing is fastest.
//!
//! The bounds were measured. They decide speed alone, and no contract speaks of them.

ghost use Rattle.std.specs.Prelude.{◌≡◌, ◌+◌, ◌^◌, ◌<◌, ◌≤◌, IfSome};
ghost use Rattle.bm_rank.specs.Rank.{rank_of_rows};
ghost use Rattle.bm_split.specs.Splits.{IsSplit};
ghost use Rattle.bm_split.specs.MostBits.{IsMostBits};

use crate::split::Split;
use crate::splitting::split_placing;
use bm_bufs::Placing;
use bm_rank::rank_of;

// What the processor's first cache holds, and what a line of it holds, in bytes.
const CACHE_BYTES: u64 = 32768;

const LINE_BYTES: u64 = 64;

// What a page of memory holds, in bytes.
const MEMORY_PAGE_BYTES: u64 = 4096;

// What the second cache keeps of lines that are still being filled, in bytes.
const FILLED_BYTES: u64 = 131072;

// The bits of the most pages that records of a cache may go to at once.
const MOST_STREAM_BITS: u8 = 4;

// The bits of neighbours that may go to 2 pages at most, where the records of a cache go to more.
const NEIGHBOUR_BITS: u8 = 5;

const MOST_NEIGHBOUR_STREAM_BITS: u8 = 1;

// Loads below this many bytes stay in the processor's caches, and records of so many bytes and more
// are placed one by one as fast in larger ones.
const LARGE_LOAD: u64 = 1048576;

const WIDE: u16 = 32;

const LARGE_LOAD_OF_WIDE: u64 = 4194304;

// Records above this many bytes fill lines of their own.
const WIDEST: u16 = 256;

// The least bytes of a run, and the most, for records of one byte, of up to 8 bytes and of more.
const LEAST_RUN_BYTES: u64 = 32;

const RUN_BYTES_AT_ONE: u64 = 512;

const RUN_BYTES_OF_NARROW: u64 = 1024;

const RUN_BYTES: u64 = 2048;

// The most bytes of a tile: larger ones leave the first cache too often while they are filled.
const TILE_BYTES: u64 = 65536;

// The most bits, up to a number, for which 2^bits records take no more than so many bytes.
fn most_bits(bytes: u64, width: u16, most: u8) -> u8
    requires { most ≤ 52 }
    ensures { IsMostBits bytes width most result }
{
    for below in (0..most).rev() {
        if bytes >> (below + 1) >= u64::from(width) {
            return below + 1;
        }
    }
    0
}

// Whether records that are still in the caches fill the units that they go to. A unit is a line, or
// 8 records where these are more.
fn fills_lines(placing: &Placing) -> bool {
    let n = placing.a.n;
    let filled = most_bits(FILLED_BYTES, placing.width, n);
    let bytes = LINE_BYTES.max(8 * u64::from(placing.width));
    let unit = most_bits(bytes, placing.width, n);
    rank_of(&placing.a, unit, filled) + unit <= filled
}

// Whether the records that the first cache holds go to few pages, or leave a page seldom. Lines at
// powers of two share the sets of a cache, so with more streams a line leaves the cache before it
// is full.
fn has_few_streams(placing: &Placing) -> bool {
    let n = placing.a.n;
    let cached = most_bits(CACHE_BYTES, placing.width, n);
    let page = most_bits(MEMORY_PAGE_BYTES, placing.width, n);
    let neighbours = NEIGHBOUR_BITS.min(n);
    rank_of(&placing.a, page, cached) <= MOST_STREAM_BITS
        || rank_of(&placing.a, page, neighbours) <= MOST_NEIGHBOUR_STREAM_BITS
}

// Whether records that follow one another stay in few lines of few pages.
fn is_local(placing: &Placing) -> bool {
    fills_lines(placing) && has_few_streams(placing)
}

// Whether runs of 2^low records are worth moving as a whole.
fn is_run(width: u16, low: u8) -> bool
    requires { low ≤ 52 }
{
    let most = match width {
        1 => RUN_BYTES_AT_ONE,
        2..=8 => RUN_BYTES_OF_NARROW,
        _ => RUN_BYTES,
    };
    let bytes = u64::from(width).saturating_mul(1 << low);
    low >= 3 && bytes >= LEAST_RUN_BYTES && bytes <= most
}

// Whether the load is larger than what caches hold.
fn is_large(placing: &Placing) -> bool {
    let least = if placing.width < WIDE {
        LARGE_LOAD
    } else {
        LARGE_LOAD_OF_WIDE
    };
    u64::from(placing.width).saturating_mul(1 << placing.a.n) >= least
}

// The split by the longest runs that are worth it and whose tiles fit the room and the cache.
fn longest_split(placing: &Placing, room: u8) -> Option<Split>
    requires { placing.now.plus < 2 ^ placing.now.a.n }
    ensures split { IfSome result (IsSplit placing.now room) }
    ensures tile { IfSome result (λ s.
        s.inner.tile ≡ s.inner.low + rank_of_rows placing.now.a.cols s.inner.low s.inner.low) }
{
    let room = room.min(most_bits(TILE_BYTES, placing.width, placing.a.n));
    for low in (3..placing.a.n).rev() {
        if is_run(placing.width, low) {
            let split = split_placing(placing, low, room);
            if split.is_some() {
                return split;
            }
        }
    }
    None
}

/// The two steps by which the placing is fastest, or nothing where its records are best placed
/// one by one: where neighbours stay in few lines of few pages, records are wide, or the load is
/// one that caches hold, and where no tile of at most 2^room records serves.
///
/// Of the runs that serve it takes the longest. A run has at least 8 records and 32 bytes, and at
/// most 2 KiB: 1 KiB of records of up to 8 bytes, and 512 bytes of records of one. A tile has at
/// most 64 KiB.
pub fn best_split(placing: &Placing, room: u8) -> Option<Split>
    requires { placing.now.plus < 2 ^ placing.now.a.n }
    ensures split { IfSome result (IsSplit placing.now room) }
    ensures tile { IfSome result (λ s.
        s.inner.tile ≡ s.inner.low + rank_of_rows placing.now.a.cols s.inner.low s.inner.low) }
{
    if placing.width > WIDEST || !is_large(placing) || is_local(placing) {
        return None;
    }
    longest_split(placing, room)
}
