// The step memory of a session: what it holds before the opening, and a sum of what it holds.

// Before the opening the word i holds 2^64 - 1 - i.
pub fn mark(memory: &mut [u64]) {
    for (i, word) in memory.iter_mut().enumerate() {
        *word = u64::MAX - i as u64;
    }
}

// The largest prime below 2^43.
const MODULUS: u64 = 8796093022151;

// The words are the digits of a number of base 1000003.
pub fn sum(memory: &[u64]) -> u64 {
    memory.iter().fold(
        0,
        |sum, word| (sum % MODULUS * 1000003 + word % MODULUS) % MODULUS,
    )
}
