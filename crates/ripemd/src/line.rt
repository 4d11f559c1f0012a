//! The tables of both lines of rounds.

// The two lines of a block: five rounds of sixteen steps each, as tables.

ghost use Rattle.std.specs.Prelude.{◌≡◌};
ghost use Rattle.ripemd.specs.inside.Lines.{function_of};

/// A bitwise function of three words, f1 to f5 of the algorithm.
#[derive(Clone, Copy)]
pub enum Bitwise {
    F1,
    F2,
    F3,
    F4,
    F5,
}

impl Bitwise {
    /// The function's word.
    #[inline(always)]
    pub fn of(self, x: u32, y: u32, z: u32) -> u32
        ensures { result ≡ function_of self x y z }
    {
        match self {
            Bitwise::F1 => x ^ y ^ z,
            Bitwise::F2 => (x & y) | (!x & z),
            Bitwise::F3 => (x | !y) ^ z,
            Bitwise::F4 => (x & z) | (y & !z),
            Bitwise::F5 => x ^ (y | !z),
        }
    }
}

// The left line's function in each round.
pub const LEFT_FUNCTIONS: [Bitwise; 5] = [
    Bitwise::F1,
    Bitwise::F2,
    Bitwise::F3,
    Bitwise::F4,
    Bitwise::F5,
];

// The left line's constant in each round.
pub const LEFT_CONSTANTS: [u32; 5] = [
    0x0000_0000,
    0x5A82_7999,
    0x6ED9_EBA1,
    0x8F1B_BCDC,
    0xA953_FD4E,
];

// The place of the word that each step of the left line reads, a row for a round.
pub const LEFT_READS: [[usize; 16]; 5] = [
    [0, 1, 2, 3, 4, 5, 6, 7, 8, 9, 10, 11, 12, 13, 14, 15],
    [7, 4, 13, 1, 10, 6, 15, 3, 12, 0, 9, 5, 2, 14, 11, 8],
    [3, 10, 14, 4, 9, 15, 8, 1, 2, 7, 0, 6, 13, 11, 5, 12],
    [1, 9, 11, 10, 0, 8, 12, 4, 13, 3, 7, 15, 14, 5, 6, 2],
    [4, 0, 5, 9, 7, 12, 2, 10, 14, 1, 3, 8, 11, 6, 15, 13],
];

// The places by which each step of the left line rotates, a row for a round.
pub const LEFT_ROTATIONS: [[u32; 16]; 5] = [
    [11, 14, 15, 12, 5, 8, 7, 9, 11, 13, 14, 15, 6, 7, 9, 8],
    [7, 6, 8, 13, 11, 9, 7, 15, 7, 12, 15, 9, 11, 7, 13, 12],
    [11, 13, 6, 7, 14, 9, 13, 15, 14, 8, 13, 6, 5, 12, 7, 5],
    [11, 12, 14, 15, 14, 15, 9, 8, 9, 14, 5, 6, 8, 6, 5, 12],
    [9, 15, 5, 11, 6, 8, 13, 12, 5, 12, 13, 14, 11, 8, 5, 6],
];

// The right line's function in each round.
pub const RIGHT_FUNCTIONS: [Bitwise; 5] = [
    Bitwise::F5,
    Bitwise::F4,
    Bitwise::F3,
    Bitwise::F2,
    Bitwise::F1,
];

// The right line's constant in each round.
pub const RIGHT_CONSTANTS: [u32; 5] = [
    0x50A2_8BE6,
    0x5C4D_D124,
    0x6D70_3EF3,
    0x7A6D_76E9,
    0x0000_0000,
];

// The place of the word that each step of the right line reads, a row for a round.
pub const RIGHT_READS: [[usize; 16]; 5] = [
    [5, 14, 7, 0, 9, 2, 11, 4, 13, 6, 15, 8, 1, 10, 3, 12],
    [6, 11, 3, 7, 0, 13, 5, 10, 14, 15, 8, 12, 4, 9, 1, 2],
    [15, 5, 1, 3, 7, 14, 6, 9, 11, 8, 12, 2, 10, 0, 4, 13],
    [8, 6, 4, 1, 3, 11, 15, 0, 5, 12, 2, 13, 9, 7, 10, 14],
    [12, 15, 10, 4, 1, 5, 8, 7, 6, 2, 13, 14, 0, 3, 9, 11],
];

// The places by which each step of the right line rotates, a row for a round.
pub const RIGHT_ROTATIONS: [[u32; 16]; 5] = [
    [8, 9, 9, 11, 13, 15, 15, 5, 7, 7, 8, 11, 14, 14, 12, 6],
    [9, 13, 15, 7, 12, 8, 9, 11, 7, 7, 12, 7, 6, 15, 13, 11],
    [9, 7, 15, 11, 8, 6, 6, 14, 12, 13, 5, 14, 13, 13, 7, 5],
    [15, 5, 8, 11, 14, 14, 6, 14, 6, 9, 12, 9, 12, 5, 15, 8],
    [8, 5, 12, 9, 12, 5, 14, 6, 8, 13, 6, 5, 15, 13, 11, 11],
];
