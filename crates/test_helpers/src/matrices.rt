//! A large matrix of numbers, transposed.

/// Whether these are the numbers below 2^20 as records of 8 bytes, where record 1024 * j + i is the
/// number 1024 * i + j.
pub fn is_transposed(bytes: &[u8]) -> bool {
    for (y, record) in bytes.chunks_exact(8).enumerate() {
        let (i, j) = (y as u64 % 1024, y as u64 / 1024);
        if record != (1024 * i + j).to_le_bytes().as_slice() {
            return false;
        }
    }
    bytes.len() == 8 << 20
}
