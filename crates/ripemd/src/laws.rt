//! What the definition gives, beside what the algorithm's authors published.

ghost use Rattle.std.specs.Prelude.{◌≡◌, ◌+◌, ◌%◌, ◌<◌, ◌∷◌, [], ℕ, List, length, codes};
ghost use Rattle.ripemd.specs.Ripemd160.{padded_message, ripemd160, zeros_after};

/// The digests of no byte, of "abc" and of 56 bytes, which the padding carries into a second block.
pub fn published_digests()
    ensures nothing { ripemd160 []
        ≡ 0x9c ∷ 0x11 ∷ 0x85 ∷ 0xa5 ∷ 0xc5 ∷ 0xe9 ∷ 0xfc ∷ 0x54 ∷ 0x61 ∷ 0x28
        ∷ 0x08 ∷ 0x97 ∷ 0x7e ∷ 0xe8 ∷ 0xf5 ∷ 0x48 ∷ 0xb2 ∷ 0x25 ∷ 0x8d ∷ 0x31 ∷ [] }
    ensures abc { ripemd160 (codes "abc")
        ≡ 0x8e ∷ 0xb2 ∷ 0x08 ∷ 0xf7 ∷ 0xe0 ∷ 0x5d ∷ 0x98 ∷ 0x7a ∷ 0x9b ∷ 0x04
        ∷ 0x4a ∷ 0x8e ∷ 0x98 ∷ 0xc6 ∷ 0xb0 ∷ 0x87 ∷ 0xf1 ∷ 0x5a ∷ 0x0b ∷ 0xfc ∷ [] }
    ensures longer { ripemd160 (codes "abcdbcdecdefdefgefghfghighijhijkijkljklmklmnlmnomnopnopq")
        ≡ 0x12 ∷ 0xa0 ∷ 0x53 ∷ 0x38 ∷ 0x4a ∷ 0x9c ∷ 0x0c ∷ 0x88 ∷ 0xe4 ∷ 0x05
        ∷ 0xa0 ∷ 0x6c ∷ 0x27 ∷ 0xdc ∷ 0xf4 ∷ 0x9a ∷ 0xda ∷ 0x62 ∷ 0xeb ∷ 0x2b ∷ [] }
{}

/// The fewest zero bytes take a message to 56 bytes of a block, so a padded message is whole blocks; and a digest has
/// 20 bytes.
pub fn lengths()
    ensures zeros { (n : ℕ) → ((n + 1 + zeros_after n) % 64 ≡ 56) × (zeros_after n < 64) }
    ensures padded { (message : List ℕ) → length (padded_message message) % 64 ≡ 0 }
    ensures digest { (message : List ℕ) → length (ripemd160 message) ≡ 20 }
{}
