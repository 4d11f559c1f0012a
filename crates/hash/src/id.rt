//! The ids of transactions and blocks.

ghost use Rattle.std.specs.Prelude.{◌≡◌, ◌↔◌, length, reverse, refl, Ok, Some, IsSome, IfSome};
ghost use Rattle.std.specs.Cmp.{on_po, on_total};
ghost use Rattle.std.specs.Cmp.Lexicographic.{slice_cmp, nat_list_cmp_total, texts_po, texts_ties};
ghost use Rattle.std.specs.List.{AllPass};
ghost use Rattle.std.specs.Ordering.{nat_cmp, on};
ghost use Rattle.hex.specs.Hex.{decode_of, is_hex_digit};

use crate::order::order;
use hex::FromHex;
use std::cmp::Ordering;
use std::{fmt, str};

/// The id of a block or a transaction: a double SHA-256, in the order in which it is hashed and sent. Ids are ordered
/// by these bytes.
#[derive(Clone, Copy, Debug, PartialEq, Eq, Hash)]
pub struct Id(pub [u8; 32]);

impl Id {
    ghost use Rattle.hash.specs.Id.{hex_of_id, IsWhole};

    /// The id as it is printed: lower-case hexadecimal digits, the last byte's first.
    pub fn show(&self) -> [u8; 64]
        ensures { result ≡ hex_of_id self.now }
    {
        let mut bytes = self.0;
        bytes.reverse();
        let mut digits = [0; 64];
        hex::encode_to_slice(bytes, &mut digits).unwrap();
        digits
    }

    /// The id that is printed so, its digits in either case.
    pub fn read(text: &[u8]) -> Option<Id>
        // The digits spell the reversed bytes.
        ensures found { IfSome result (λ id. decode_of text.now ≡ Ok (reverse id.0)) }
        // All else than 64 digits is refused.
        ensures reads { IsSome result ↔ ((length text.now ≡ 64) × AllPass is_hex_digit text.now) }
        // What was shown is read again.
        ensures shown { (id : Id) → IsWhole id → text.now ≡ hex_of_id id → result ≡ Some id }
    {
        let mut bytes = <[u8; 32] as FromHex>::from_hex(text).ok()?;
        bytes.reverse();
        Some(Id(bytes))
    }
}

impl Ord for Id {
    ghost cmp = { on (λ id. id.0) (slice_cmp nat_cmp) };

    ghost total = { on_total (λ id. id.0) nat_list_cmp_total };

    ghost matches_partial_cmp = { λ a b. refl };

    ghost matches_eq = { λ a b. texts_ties a.0 b.0 };

    fn cmp(&self, other: &Id) -> Ordering {
        order(&self.0, &other.0)
    }
}

impl PartialOrd for Id {
    ghost partial_cmp = { λ a b. Some (slice_cmp nat_cmp a.0 b.0) };

    ghost laws = { on_po (λ id. id.0) texts_po };

    fn partial_cmp(&self, other: &Id) -> Option<Ordering> {
        Some(self.cmp(other))
    }
}

impl fmt::Display for Id {
    ghost use Rattle.hash.specs.Id.{hex_of_id};

    ghost output = { λ id. Some (hex_of_id id) };

    fn fmt<W: fmt::Write>(&self, f: &mut fmt::Formatter<W>) -> fmt::Result {
        let digits = self.show();
        let Ok(text) = str::from_utf8(&digits) else {
            unreachable!();
        };
        f.write_str(text)
    }
}
