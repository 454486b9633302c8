//! Checksums of what was found.

/// The checksum with a number more.
pub fn sum_with(sum: u64, more: u64) -> u64 {
    sum.wrapping_mul(31).wrapping_add(more)
}

/// The checksum with bytes more.
pub fn sum_with_bytes(sum: u64, bytes: &[u8]) -> u64 {
    let mut sum = sum;
    for byte in bytes {
        sum = sum_with(sum, u64::from(*byte));
    }
    sum
}
