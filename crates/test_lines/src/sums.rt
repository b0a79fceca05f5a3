//! A checksum of bytes, by which a long text is told in short.

/// The checksum of no bytes.
const START: u32 = 0x811c_9dc5;

/// What each byte multiplies the checksum by.
const FACTOR: u32 = 0x0100_0193;

/// The checksum of bytes by the rule of Fowler, Noll and Vo, in its form 1a of 32 bits.
pub fn checksum(bytes: &[u8]) -> u32 {
    let mut sum = START;
    for byte in bytes {
        sum = (sum ^ u32::from(*byte)).wrapping_mul(FACTOR);
    }
    sum
}
