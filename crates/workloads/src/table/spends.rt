//! Spends. A coinbase's coin is spent 100 blocks above it, so most begin with a chain of 100.

use super::{REGTEST, Scenario};

/// Those that spend coins.
pub const SPENDS: [Scenario; 11] = [
    A_SPEND_TOO_EARLY_AND_IN_TIME,
    TRANSACTIONS_THAT_STAND_TWICE,
    A_BLOCK_WITH_SPENDS_IS_TAKEN_BACK,
    TWO_OF_THREE_KEYS,
    LOCKED_BY_HEIGHT,
    LOCKED_BY_HEIGHT_OUT_OF_FORCE,
    LOCKED_BY_HEIGHT_IN_FORCE,
    LOCKED_BY_TIME,
    LOCKED_BY_TIME_A_SECOND_SHORT,
    TWO_BAD_INPUTS,
    AMOUNTS,
];

/// The coin of height 1 is spent at height 100, and at height 101.
pub const A_SPEND_TOO_EARLY_AND_IN_TIME: Scenario = Scenario {
    name: "a spend too early and in time",
    heights: REGTEST,
    definitions: "chain c 100 genesis
tx A 1 0
in c1.cb:0 -
out 5000000000 51
block early c99 A
block right c100 A",
    told: "each c 1 99 = accepted @1
submit early = bad-txns-premature-spend-of-coinbase @100
submit c100 = accepted @101
submit right = accepted @102
txout c1.cb:0 = none @102
txout A:0 = 5000000000 51 height 101 conf 1 @102
tips = right 101 0 active; early 100 1 invalid @102",
};

/// The twin of `m3` is one level up in its tree.
pub const TRANSACTIONS_THAT_STAND_TWICE: Scenario = Scenario {
    name: "transactions that stand twice",
    heights: REGTEST,
    definitions: "chain c 100 genesis
tx A 1 0
in c1.cb:0 -
out 5000000000 51
tx B 1 0
in A:0 -
out 5000000000 51
tx C 1 0
in B:0 -
out 5000000000 51
tx D 1 0
in C:0 -
out 5000000000 51
tx E 1 0
in D:0 -
out 5000000000 51
block m1 c100 A A
block m2 c100 A B B
block m3 c100 A B C D E D E
block m0 c100 A B",
    told: "each c 1 100 = accepted @1
submit m1 = bad-txns-inputs-missingorspent @101
submit m2 = bad-txns-duplicate @102
submit m3 = bad-txns-duplicate @103
submit m0 = accepted @104",
};

/// An output that begins with OP_RETURN is no coin, and one that its own block spends is none after it.
pub const A_BLOCK_WITH_SPENDS_IS_TAKEN_BACK: Scenario = Scenario {
    name: "a block with spends is taken back",
    heights: REGTEST,
    definitions: "chain c 100 genesis
tx U 1 0
in c1.cb:0 -
out 1000 6a
out 4999999000 51
tx V 1 0
in U:1 -
out 4999999000 51
block d c100 U V",
    told: "each c 1 100 = accepted @1
submit d = accepted @101
txout U:0 = none @101
txout U:1 = none @101
txout c1.cb:0 = none @101
txout V:0 = 4999999000 51 height 101 conf 1 @101
invalidate d = done @102
txout V:0 = none @102
txout c1.cb:0 = 5000000000 51 height 1 coinbase conf 100 @102
best = c100 @102
submit d = duplicate-invalid @103",
};

/// Two of three keys sign, in the order of the keys and in the other.
pub const TWO_OF_THREE_KEYS: Scenario = Scenario {
    name: "two of three keys",
    heights: REGTEST,
    definitions: "block f1 genesis pay=5201aa01bb01cc53ae
chain c 99 f1
tx G 1 0
in f1.cb:0 000930060201010201010109300602010102010201
out 5000000000 51
tx W 1 0
in f1.cb:0 000930060201010201020109300602010102010101
out 5000000000 51
verdict aa 3006020101020101 G 0 5201aa01bb01cc53ae 1
verdict cc 3006020101020102 G 0 5201aa01bb01cc53ae 1
block w c99 W
block g c99 G",
    told: "submit f1 = accepted @1
each c 1 99 = accepted @2
submit w = blk-bad-inputs 1:0 @101
submit g = accepted @102",
};

/// R spends A behind a lock of three blocks.
const LOCKS_BY_HEIGHT: &str = "chain c 100 genesis
tx A 1 0
in c1.cb:0 -
out 5000000000 51
tx R 2 0
in A:0 - 3
out 5000000000 51
block d c100 A
block e102 d
block r103 e102 R
block e103 e102
block r104 e103 R";

/// Three blocks must lie between.
pub const LOCKED_BY_HEIGHT: Scenario = Scenario {
    name: "locked by height",
    heights: REGTEST,
    definitions: LOCKS_BY_HEIGHT,
    told: "each c 1 100 = accepted @1
submit d = accepted @101
submit e102 = accepted @102
submit r103 = bad-txns-nonfinal @103
submit e103 = accepted @104
submit r104 = accepted @105",
};

/// The same with relative locks from height 104 on.
pub const LOCKED_BY_HEIGHT_OUT_OF_FORCE: Scenario = Scenario {
    name: "locked by height out of force",
    heights: "1,1,1,104",
    definitions: LOCKS_BY_HEIGHT,
    told: "each c 1 100 = accepted @1
submit d = accepted @101
submit e102 = accepted @102
submit r103 = accepted @103",
};

/// The same with relative locks from height 103 on.
pub const LOCKED_BY_HEIGHT_IN_FORCE: Scenario = Scenario {
    name: "locked by height in force",
    heights: "1,1,1,103",
    definitions: LOCKS_BY_HEIGHT,
    told: "each c 1 100 = accepted @1
submit d = accepted @101
submit e102 = accepted @102
submit r103 = bad-txns-nonfinal @103",
};

/// Genesis' time and 95 and 512 seconds are its time and 607 seconds: the median is just met.
pub const LOCKED_BY_TIME: Scenario = Scenario {
    name: "locked by time",
    heights: REGTEST,
    definitions: "chain c 100 genesis
tx A 1 0
in c1.cb:0 -
out 5000000000 51
tx S 2 0
in A:0 - 4194305
out 5000000000 51
block d c100 A
block e1 d time=1296689209
chain f 5 e1
block s107 f4 S
block s108 f5 S",
    told: "each c 1 100 = accepted @1
submit d = accepted @101
submit e1 = accepted @102
each f 1 4 = accepted @103
submit s107 = bad-txns-nonfinal @107
submit f5 = accepted @108
submit s108 = accepted @109",
};

/// The same a second earlier.
pub const LOCKED_BY_TIME_A_SECOND_SHORT: Scenario = Scenario {
    name: "locked by time a second short",
    heights: REGTEST,
    definitions: "chain c 100 genesis
tx A 1 0
in c1.cb:0 -
out 5000000000 51
tx S 2 0
in A:0 - 4194305
out 5000000000 51
block d c100 A
block e1 d time=1296689208
chain f 5 e1
block s107 f4 S
block s108 f5 S",
    told: "each c 1 100 = accepted @1
submit d = accepted @101
submit e1 = accepted @102
each f 1 4 = accepted @103
submit s107 = bad-txns-nonfinal @107
submit f5 = accepted @108
submit s108 = bad-txns-nonfinal @109",
};

/// Of the 40 outputs of M those at 7 and 31 can't be spent. Whoever looks first, the first is named.
pub const TWO_BAD_INPUTS: Scenario = Scenario {
    name: "two bad inputs",
    heights: REGTEST,
    definitions: "chain c 100 genesis
tx M 1 0
in c1.cb:0 -
out 125000000 51
out 125000000 51
out 125000000 51
out 125000000 51
out 125000000 51
out 125000000 51
out 125000000 51
out 125000000 00
out 125000000 51
out 125000000 51
out 125000000 51
out 125000000 51
out 125000000 51
out 125000000 51
out 125000000 51
out 125000000 51
out 125000000 51
out 125000000 51
out 125000000 51
out 125000000 51
out 125000000 51
out 125000000 51
out 125000000 51
out 125000000 51
out 125000000 51
out 125000000 51
out 125000000 51
out 125000000 51
out 125000000 51
out 125000000 51
out 125000000 51
out 125000000 00
out 125000000 51
out 125000000 51
out 125000000 51
out 125000000 51
out 125000000 51
out 125000000 51
out 125000000 51
out 125000000 51
tx N 1 0
in M:0 -
in M:1 -
in M:2 -
in M:3 -
in M:4 -
in M:5 -
in M:6 -
in M:7 -
in M:8 -
in M:9 -
in M:10 -
in M:11 -
in M:12 -
in M:13 -
in M:14 -
in M:15 -
in M:16 -
in M:17 -
in M:18 -
in M:19 -
in M:20 -
in M:21 -
in M:22 -
in M:23 -
in M:24 -
in M:25 -
in M:26 -
in M:27 -
in M:28 -
in M:29 -
in M:30 -
in M:31 -
in M:32 -
in M:33 -
in M:34 -
in M:35 -
in M:36 -
in M:37 -
in M:38 -
in M:39 -
out 5000000000 51
block m c100 M N",
    told: "each c 1 100 = accepted @1
submit m = blk-bad-inputs 2:7 @101",
};

/// Inputs and coinbases that are short by one satoshi.
pub const AMOUNTS: Scenario = Scenario {
    name: "amounts",
    heights: REGTEST,
    definitions: "chain c 100 genesis
tx X 1 0
in c1.cb:0 -
out 5000000001 51
tx Z 1 0
in c1.cb:0 -
out 4999999999 51
block x c100 X
block y c100 reward=5000000001
block z c100 Z reward=5000000001
block w x",
    told: "each c 1 100 = accepted @1
submit x = bad-txns-in-belowout @101
submit y = bad-cb-amount @102
submit z = accepted @103
submit x = duplicate-invalid @104
submit w = bad-prevblk @105",
};

/// Three hundred blocks are taken back and put again, among them one that spends. The definition would take minutes.
pub const A_LONG_BRANCH_TAKEN_BACK: Scenario = Scenario {
    name: "a long branch taken back",
    heights: REGTEST,
    definitions: "chain c 100 genesis
tx A 1 0
in c1.cb:0 -
out 5000000000 51
block d c100 A
chain g 300 d",
    told: "each c 1 100 = accepted @1
submit d = accepted @101
each g 1 300 = accepted @102
txout A:0 = 5000000000 51 height 101 conf 301 @401
invalidate c100 = done @402
best = c99 @402
txout A:0 = none @402
txout c1.cb:0 = 5000000000 51 height 1 coinbase conf 99 @402
reconsider c100 = done @403
best = g300 @403
txout A:0 = 5000000000 51 height 101 conf 301 @403",
};
