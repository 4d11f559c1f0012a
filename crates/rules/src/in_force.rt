//! Which rules a block obeys that came with soft forks.

ghost use Rattle.std.specs.Prelude.{◌≡◌};
ghost use Rattle.rules.specs.Params.{is_outdated};

/// The rules of soft forks that are in force for a block: [`Params::at`](crate::Params::at) gives them by its height.
#[derive(Clone, Copy, Debug, PartialEq, Eq)]
pub struct InForce {
    /// BIP 34: the coinbase begins with the block's height, and the version is at least 2.
    pub bip34: bool,
    /// BIP 65: CHECKLOCKTIMEVERIFY has its effect, and the version is at least 4.
    pub bip65: bool,
    /// BIP 66: signatures have the strict encoding, and the version is at least 3.
    pub bip66: bool,
    /// BIPs 68, 112 and 113: relative locks, CHECKSEQUENCEVERIFY, and finality by the median time past of the
    /// parent in place of the block's own time.
    pub csv: bool,
    /// BIP 147: the element more that CHECKMULTISIG takes is empty.
    pub nulldummy: bool,
}

impl InForce {
    /// Whether a rule in force asks for a later version of a block.
    pub(crate) fn is_outdated(self, version: i32) -> bool
        ensures { result ≡ is_outdated self version }
    {
        (self.bip34 && version < 2) || (self.bip66 && version < 3) || (self.bip65 && version < 4)
    }
}
