//! Why no step was taken.

ghost use Rattle.std.specs.Prelude.{◌≡◌};

use queue::Undecided;
use signatures::KeptTriple;
use wire::Memory;

/// Why no step was taken.
#[derive(Drop)]
pub(crate) enum Refusal {
    Memory,
    /// Something else is published than was last, or there is no reader or no writer.
    Closed,
    /// Scripts want these signatures, and whether they are valid isn't known.
    Unknown(Vec<KeptTriple>),
}

impl From<Memory> for Refusal {
    ghost use Rattle.node.specs.declared.published_history.refusal.Refusal.TheVariants as variants;

    ghost from_gives = { λ _ refusal. refusal ≡ variants.Memory };

    fn from(_fault: Memory) -> Refusal {
        Refusal::Memory
    }
}

impl From<Undecided> for Refusal {
    ghost use Rattle.node.specs.inside.Refusal.{refusal_of};

    ghost from_gives = { λ stop refusal. refusal ≡ refusal_of stop };

    fn from(stop: Undecided) -> Refusal {
        match stop {
            Undecided::Memory => Refusal::Memory,
            Undecided::Unknown(wants) => Refusal::Unknown(wants),
        }
    }
}
