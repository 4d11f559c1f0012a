//! Branches, marks and soft forks.

use super::{REGTEST, Scenario};

/// The scenarios of branches, marks and soft forks.
pub const BRANCHES: [Scenario; 17] = [
    NOTHING_BUT_GENESIS,
    THE_FIRST_TWO_BLOCKS,
    HEIGHTS_OF_COINBASES,
    A_LONGER_BRANCH,
    FAILING_BRANCH,
    MARKS_SET_AND_TAKEN,
    MARKS_ABOVE_AND_BELOW,
    A_MARK_BEFORE_A_FAILING_BRANCH,
    PREFERENCES,
    A_REFUSED_BLOCK_IS_FORGOTTEN,
    FAULTS_BY_THE_PLACE,
    BIP_34_BY_HEIGHT,
    BIP_65_BY_HEIGHT,
    BIP_66_BY_HEIGHT,
    MARKS_AND_A_FAILING_BLOCK,
    A_FRONT_OF_GENESIS,
    A_BRANCH_OF_THIRTEEN,
];

/// What is told before any step.
pub const NOTHING_BUT_GENESIS: Scenario = Scenario {
    name: "nothing but genesis",
    heights: REGTEST,
    definitions: "",
    told: "best = genesis @0
tips = genesis 0 0 active @0
txout genesis.cb:0 = none @0",
};

/// Blocks that come again, and one whose time is 7,201 seconds ahead, then 7,200.
pub const THE_FIRST_TWO_BLOCKS: Scenario = Scenario {
    name: "the first two blocks",
    heights: REGTEST,
    definitions: "block b1 genesis
block b2 b1 time=1296695803",
    told: "submit genesis = duplicate @1
submit b1 = accepted @2
best = b1 @2
submit b1 = duplicate @3
submit b2 = time-too-new @4
now 1296688603
submit b2 = accepted @5
best = b2 @5",
};

/// The push of a height is one byte up to 16, and two above it.
pub const HEIGHTS_OF_COINBASES: Scenario = Scenario {
    name: "heights of coinbases",
    heights: REGTEST,
    definitions: "chain c 15 genesis
block e16 c15 cb=0110
block d16 c15
block e17 d16 cb=021100
block d17 d16",
    told: "each c 1 15 = accepted @1
submit e16 = bad-cb-height @16
submit d16 = accepted @17
submit e17 = bad-cb-height @18
submit d17 = accepted @19",
};

/// A third block on another branch makes it the active one.
pub const A_LONGER_BRANCH: Scenario = Scenario {
    name: "a longer branch",
    heights: REGTEST,
    definitions: "block b1 genesis
block p2 b1
block q2 b1
block q3 q2",
    told: "submit b1 = accepted @1
submit p2 = accepted @2
submit q2 = inconclusive @3
tips = p2 2 0 active; q2 2 1 valid-headers @3
submit q3 = accepted @4
tips = q3 3 0 active; p2 2 1 valid-fork @4",
};

/// A higher branch of which the second block pays too much.
pub const FAILING_BRANCH: Scenario = Scenario {
    name: "failing branch",
    heights: REGTEST,
    definitions: "block b1 genesis
block b2 b1
block x1 genesis
block x2 x1 reward=5000000001
block x3 x2
block x4 x3",
    told: "submit b1 = accepted @1
submit b2 = accepted @2
submit x1 = inconclusive @3
submit x2 = inconclusive @4
submit x3 = inconclusive @5
best = b2 @5
tips = x3 3 3 invalid; b2 2 0 active @5
txout b2.cb:0 = 5000000000 51 height 2 coinbase conf 1 @5
submit x2 = duplicate-invalid @6
submit x3 = duplicate-invalid @7
submit x1 = duplicate @8
submit x4 = bad-prevblk @9",
};

/// A mark moves the active block beside, and back when it is taken away.
pub const MARKS_SET_AND_TAKEN: Scenario = Scenario {
    name: "marks set and taken",
    heights: REGTEST,
    definitions: "block b1 genesis
block p2 b1
block q2 b1
block z1 genesis",
    told: "submit b1 = accepted @1
submit p2 = accepted @2
submit q2 = inconclusive @3
invalidate p2 = done @4
best = q2 @4
submit q2 = duplicate @5
reconsider p2 = done @6
best = p2 @6
invalidate genesis = genesis @7
invalidate z1 = not-found @8
tips = p2 2 0 active; q2 2 1 valid-fork @8
submit p2 = duplicate @9",
};

/// Marks are taken from the blocks below and above one.
pub const MARKS_ABOVE_AND_BELOW: Scenario = Scenario {
    name: "marks above and below",
    heights: REGTEST,
    definitions: "block b1 genesis
block p2 b1",
    told: "submit b1 = accepted @1
submit p2 = accepted @2
invalidate b1 = done @3
submit p2 = duplicate-invalid @4
reconsider p2 = done @5
submit p2 = duplicate @6
invalidate p2 = done @7
submit b1 = duplicate @8
reconsider b1 = done @9
submit p2 = duplicate @10",
};

/// One branch fails when it is looked at first, and a lower one becomes active.
pub const A_MARK_BEFORE_A_FAILING_BRANCH: Scenario = Scenario {
    name: "a mark before a failing branch",
    heights: REGTEST,
    definitions: "block b1 genesis
block p2 b1
block p3 p2
block q2 b1
block x1 genesis
block x2 x1 reward=5000000001
block x3 x2",
    told: "submit b1 = accepted @1
submit p2 = accepted @2
submit p3 = accepted @3
submit q2 = inconclusive @4
submit x1 = inconclusive @5
submit x2 = inconclusive @6
submit x3 = inconclusive @7
submit x1 = duplicate-inconclusive @8
invalidate p2 = done @9
submit q2 = duplicate @10
submit x3 = duplicate-invalid @11
submit x1 = duplicate @12",
};

/// Preferences between blocks of one height, until a higher one comes and goes. A block that is known as duplicate
/// was looked at whole, and so was active at some time.
pub const PREFERENCES: Scenario = Scenario {
    name: "preferences",
    heights: REGTEST,
    definitions: "block b1 genesis
block p2 b1
block q2 b1
block q3 q2
block r2 b1
block z1 genesis",
    told: "submit b1 = accepted @1
submit p2 = accepted @2
submit q2 = inconclusive @3
submit q2 = duplicate-inconclusive @4
precious q2 = done @5
best = q2 @5
submit q2 = duplicate @6
precious p2 = done @7
best = p2 @7
precious q2 = done @8
precious b1 = done @9
best = q2 @9
submit r2 = inconclusive @10
precious z1 = not-found @11
submit q3 = accepted @12
precious p2 = done @13
best = q3 @13
tips = q3 3 0 active; p2 2 1 valid-fork; r2 2 1 valid-headers @13
submit r2 = duplicate-inconclusive @14
invalidate q3 = done @15
best = q2 @15
submit r2 = duplicate-inconclusive @16",
};

/// A block that is refused by its place is judged anew.
pub const A_REFUSED_BLOCK_IS_FORGOTTEN: Scenario = Scenario {
    name: "a refused block is forgotten",
    heights: REGTEST,
    definitions: "block b1 genesis
block p2 b1",
    told: "submit p2 = prev-blk-not-found @1
submit p2 = prev-blk-not-found @2
submit b1 = accepted @3
submit p2 = accepted @4",
};

/// A block for each rule on its place.
pub const FAULTS_BY_THE_PLACE: Scenario = Scenario {
    name: "faults by the place",
    heights: REGTEST,
    definitions: "block b1 genesis
block x b1 bits=207ffffe
block y x
block o b1 time=1296688603
block p b1 version=3
tx L 1 5
in b1.cb:0 - 0
out 1 51
block l b1 L",
    told: "submit b1 = accepted @1
submit x = bad-diffbits @2
submit y = prev-blk-not-found @3
submit o = time-too-old @4
submit p = bad-version @5
submit l = bad-txns-nonfinal @6",
};

/// BIP 34 from height 3 on: before it a coinbase may be the same as another, whose coin is still there.
pub const BIP_34_BY_HEIGHT: Scenario = Scenario {
    name: "bip 34 by height",
    heights: "3,1,1,1",
    definitions: "block n1 genesis cb=0000
block n2 n1 cb=0000
block n3 n1 cb=0001
block n4 n3 cb=0002",
    told: "submit n1 = accepted @1
submit n2 = bad-txns-BIP30 @2
submit n3 = accepted @3
submit n4 = bad-cb-height @4",
};

/// BIP 65 from height 5 on.
pub const BIP_65_BY_HEIGHT: Scenario = Scenario {
    name: "bip 65 by height",
    heights: "1,5,1,1",
    definitions: "chain c 3 genesis
block v4 c3 version=3
block v5 v4 version=3
block w5 v4",
    told: "each c 1 3 = accepted @1
submit v4 = accepted @4
submit v5 = bad-version @5
submit w5 = accepted @6",
};

/// BIP 66 from height 5 on, and BIP 65 from height 9 on.
pub const BIP_66_BY_HEIGHT: Scenario = Scenario {
    name: "bip 66 by height",
    heights: "1,9,5,1",
    definitions: "chain c 3 genesis
block v4 c3 version=2
block v5 v4 version=2
block w5 v4 version=3",
    told: "each c 1 3 = accepted @1
submit v4 = accepted @4
submit v5 = bad-version @5
submit w5 = accepted @6",
};

/// Marks of a block that isn't kept and of genesis; and a block that pays too much, which is looked at whole when it is
/// called precious.
pub const MARKS_AND_A_FAILING_BLOCK: Scenario = Scenario {
    name: "marks and a failing block",
    heights: REGTEST,
    definitions: "block a1 genesis
block b1 genesis
block x1 genesis reward=5000000001
block y1 genesis
block y2 y1",
    told: "invalidate y1 = not-found @1
reconsider y1 = not-found @2
precious y1 = not-found @3
invalidate genesis = genesis @4
reconsider genesis = done @5
precious genesis = done @6
submit a1 = accepted @7
submit b1 = inconclusive @8
submit b1 = duplicate-inconclusive @9
submit y2 = prev-blk-not-found @10
invalidate a1 = done @11
submit a1 = duplicate-invalid @12
submit b1 = duplicate @13
reconsider a1 = done @14
submit a1 = duplicate @15
submit x1 = inconclusive @16
precious x1 = done @17
submit x1 = duplicate-invalid @18",
};

/// Bytes that are no block take no step, whoever submits them.
pub const A_FRONT_OF_GENESIS: Scenario = Scenario {
    name: "a front of genesis",
    heights: REGTEST,
    definitions: "",
    told: "cut genesis 284 = decode-failed @0
submit genesis = duplicate @1",
};

/// More coins come in one step than a map of coins or a list has room for at first.
pub const A_BRANCH_OF_THIRTEEN: Scenario = Scenario {
    name: "a branch of thirteen",
    heights: REGTEST,
    definitions: "chain p 12 genesis
chain q 13 genesis",
    told: "each p 1 12 = accepted @1
each q 1 12 = inconclusive @13
submit q13 = accepted @25
best = q13 @25
tips = q13 13 0 active; p12 12 12 valid-fork @25",
};
