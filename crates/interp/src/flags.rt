//! The rules of scripts that came by soft forks.

/// Which rules of scripts that came by soft forks are in force for the block that holds the transaction.
#[derive(Clone, Copy, Debug, PartialEq, Eq)]
pub struct Flags {
    /// What pays to a script's hash runs that script too (BIP 16).
    pub p2sh: bool,
    /// A signature that is tried is strictly encoded (BIP 66).
    pub dersig: bool,
    /// The opcode b1 is CHECKLOCKTIMEVERIFY (BIP 65), and else does nothing.
    pub cltv: bool,
    /// The opcode b2 is CHECKSEQUENCEVERIFY (BIP 112), and else does nothing.
    pub csv: bool,
    /// The element more that CHECKMULTISIG takes is empty (BIP 147).
    pub nulldummy: bool,
}

impl Flags {
    /// All rules that regtest has from its first block on: those of BIPs 16, 65, 66 and 112. That of BIP 147 isn't.
    pub const ALL: Flags = Flags {
        p2sh: true,
        dersig: true,
        cltv: true,
        csv: true,
        nulldummy: false,
    };

    /// None of them is.
    pub const NONE: Flags = Flags {
        p2sh: false,
        dersig: false,
        cltv: false,
        csv: false,
        nulldummy: false,
    };
}
