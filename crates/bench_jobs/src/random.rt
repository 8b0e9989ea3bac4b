//! Random numbers from a seed, by SplitMix64 (Steele, Lea and Flood, "Fast splittable pseudorandom number generators", 2014).

/// A source of random numbers.
#[derive(Drop)]
pub struct Source {
    state: u64,
}

impl Source {
    /// The numbers of this seed.
    pub fn new(seed: u32) -> Source {
        Source { state: seed as u64 }
    }

    /// The next number.
    pub fn next(&mut self) -> u64 {
        self.state = self.state.wrapping_add(0x9E37_79B9_7F4A_7C15);
        let mut mixed = self.state;
        mixed = (mixed ^ (mixed >> 30)).wrapping_mul(0xBF58_476D_1CE4_E5B9);
        mixed = (mixed ^ (mixed >> 27)).wrapping_mul(0x94D0_49BB_1331_11EB);
        mixed ^ (mixed >> 31)
    }

    /// A number below the bound; 0 if that is 0.
    pub fn below(&mut self, bound: u64) -> u64 {
        let number = self.next();
        if bound == 0 { 0 } else { number % bound }
    }

    /// The index of one of so many items; 0 if there are none.
    pub fn index(&mut self, items: usize) -> usize {
        self.below(items as u64) as usize
    }

    /// Four bytes.
    pub fn four(&mut self) -> [u8; 4] {
        let [first, second, third, fourth, ..] = self.next().to_le_bytes();
        [first, second, third, fourth]
    }
}
