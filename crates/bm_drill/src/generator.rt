//! Generated records.

ghost use Rattle.std.specs.Prelude.{◌≡◌, ℕ, ◌+◌, ◌-◌, ◌*◌, ◌%◌, ◌^◌, ◌<◌, length};
ghost use Rattle.std.specs.Fork.{slice_chunk};
ghost use Rattle.std.specs.Int.{byte_at};
ghost use Rattle.bm_base.specs.Records.{record_in};
ghost use Rattle.bm_drill.specs.Generated.{generated_number, spread_bytes, generated};

use bm_base::Shape;

// The odd number next to 2^64 over the golden ratio.
const FACTOR: u64 = 0x9E37_79B9_7F4A_7C15;

// The number of record x.
fn number_of(x: u64, start: u64) -> u64
    ensures { result ≡ generated_number start x }
{
    x.wrapping_add(start).wrapping_mul(FACTOR)
}

// Byte `i mod 8` of a number, the lowest first.
fn byte_of(number: u64, i: usize) -> u8
    ensures { result ≡ byte_at (i % 8) number }
{
    number.to_le_bytes()[i % 8]
}

// Fills a record with a number's bytes, from the lowest to the eighth, again and again.
fn fill_record(bytes: &mut [u8], number: u64)
    ensures { bytes.new ≡ spread_bytes (length bytes.old) number }
{
    for i in 0..bytes.len() {
        bytes[i] = byte_of(number, i);
    }
}

// Fills so many records with those generated from number `first` on.
fn fill_records(bytes: &mut [u8], width: usize, count: usize, first: u64, start: u64)
    requires size { length bytes.old ≡ count * width }
    requires numbers { first + count < 2 ^ 64 }
    ensures size { length bytes.new ≡ count * width }
    ensures records { (i : ℕ) → i < count
        → slice_chunk bytes.new width i ≡ generated width start (first + i) }
{
    for i in 0..count {
        fill_record(
            &mut bytes[i * width..(i + 1) * width],
            number_of(first + i as u64, start),
        );
    }
}

/// Fills a memory load with the generated records of its addresses.
pub fn fill_load(shape: &Shape, load: u64, start: u64, bytes: &mut [u8])
    requires load { load < 2 ^ (shape.now.n - shape.now.m) }
    requires size { length bytes.old ≡ 2 ^ shape.now.m * shape.now.width }
    ensures size { length bytes.new ≡ 2 ^ shape.now.m * shape.now.width }
    ensures records { (i : ℕ) → i < 2 ^ shape.now.m → record_in shape.now bytes.new i
        ≡ generated shape.now.width start (2 ^ shape.now.m * load + i) }
{
    fill_records(
        bytes,
        usize::from(shape.width()),
        1 << shape.m(),
        load << shape.m(),
        start,
    );
}
