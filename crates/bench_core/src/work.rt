//! What is measured.

/// Something that can be done again and again.
pub trait Work {
    fn name(&self) -> &'static str;

    /// Does it once. The round's number picks among samples; what was found is told as a number.
    fn once(&mut self, round: u64) -> u64;
}

/// Does it so many times, and folds what was found into one number.
pub fn checksum<W: Work>(work: &mut W, rounds: u64) -> u64 {
    let mut sum = 0u64;
    for round in 0..rounds {
        sum = sum.wrapping_mul(0x100_0000_01b3) ^ work.once(round);
    }
    sum
}
