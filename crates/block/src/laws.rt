//! What holds of the grammars of blocks and of blk files, of Merkle trees, and of the genesis block.

ghost use Rattle.std.specs.Prelude.{◌≡◌, ◌||◌, Bool, true, List, ℕ, [], ◌∷◌, ◌++◌, Ok, Some};
ghost use Rattle.std.specs.List.{AllByRecursion};
ghost use Rattle.hash.specs.declared.id.Id.{Id};
ghost use Rattle.wire.specs.Grammar.{IsBytes};
ghost use Rattle.txn.specs.Tx.{Tx};
ghost use Rattle.txn.specs.Grammar.{transaction};
ghost use Rattle.txn.specs.Identity as txn;
ghost use Rattle.txn.specs.computed.Reader.{tx_at};
ghost use Rattle.block.specs.declared.block.Block.{Block};
ghost use Rattle.block.specs.Grammar.{block, block_by};
ghost use Rattle.block.specs.BlockOfBytes.{block_of_bytes, block_of_bytes_by};
ghost use Rattle.block.specs.laws.Files.{Splits, Gave, IsLast};
ghost use Rattle.block.specs.Identity.{id_of};
ghost use Rattle.block.specs.Merkle.{root, twin, has_twin, next};
ghost use Rattle.block.specs.Genesis as genesis;

use crate::genesis::{GENESIS, GENESIS_ID, GENESIS_ROOT, GENESIS_TIME};

/// No spelling of a block begins another.
pub fn no_front()
    ensures { (a b : Block) (more : List ℕ) → block.Lawful a → block.Lawful b
        → block.spell b ≡ block.spell a ++ more → (a ≡ b) × (more ≡ []) }
{}

/// A blk file is the records of no other blocks, and ends with no other rest.
pub fn one_split()
    ensures { (file : List ℕ) (blocks : List (List ℕ)) (rest : List ℕ)
        (others : List (List ℕ)) (last : List ℕ)
        → Splits file blocks rest → Splits file others last → (blocks ≡ others) × (rest ≡ last) }
{}

/// The blocks that a run of calls gives, until one gives none, are the file's records' blocks, in order.
pub fn a_run_gives_the_records()
    ensures { (file : List ℕ) (blocks : List (List ℕ)) (rest : List ℕ)
        → Gave file blocks rest → IsLast rest → Splits file blocks rest }
{}

/// What is spelled of a lawful block is read again. What `write` has written is lawful where no list and no script
/// is too long.
pub fn what_is_spelled_is_read()
    ensures { (b : Block) → block.Lawful b → block_of_bytes (block.spell b) ≡ Some b }
{}

/// Bytes that are read as a block are its spelling, and it is lawful. So bytes are read as a block exactly where they
/// spell one.
pub fn what_is_read_is_spelled()
    ensures { (bytes : List ℕ) (b : Block) → IsBytes bytes → block_of_bytes bytes ≡ Some b
        → block.Lawful b × (bytes ≡ block.spell b) }
{}

/// The same of both grammars: no spelling begins another, what is spelled is read again, and what is read is spelled.
pub fn what_is_spelled_with_witnesses_is_read()
    ensures front { (by : Bool) (a b : Block) (more : List ℕ)
        → (block_by by).Lawful a → (block_by by).Lawful b
        → (block_by by).spell b ≡ (block_by by).spell a ++ more → (a ≡ b) × (more ≡ []) }
    ensures read { (by : Bool) (b : Block) → (block_by by).Lawful b
        → block_of_bytes_by by ((block_by by).spell b) ≡ Some b }
    ensures spelled { (by : Bool) (bytes : List ℕ) (b : Block) → IsBytes bytes
        → block_of_bytes_by by bytes ≡ Some b
        → (block_by by).Lawful b × (bytes ≡ (block_by by).spell b) }
{}

/// A block that is read without witnesses is read the same with them, where each of its transactions has an input (BIP 144).
pub fn a_block_with_inputs_is_read_the_same()
    ensures { (bytes : List ℕ) (b : Block) → IsBytes bytes → block_of_bytes bytes ≡ Some b
        → AllByRecursion (λ t. ¬ (t.inputs ≡ [])) b.txs → block_of_bytes_by true bytes ≡ Some b }
{}

/// Bytes that begin with what is read as a transaction begin with its spelling, and it is lawful. So a transaction is read
/// at the front of bytes exactly where one is spelled there ([`txn::laws::what_is_spelled_is_read`]).
pub fn a_transaction_that_is_read_is_spelled()
    ensures { (bytes rest : List ℕ) (t : Tx) → IsBytes bytes → tx_at bytes ≡ Ok (t, rest)
        → transaction.Lawful t × (bytes ≡ transaction.spell t ++ rest) }
{}

/// Two ids or more have the root of the level above.
pub fn root_is_that_of_the_level_above()
    ensures { (a b : Id) (ids : List Id) → root (a ∷ b ∷ ids) ≡ root (next (a ∷ b ∷ ids)) }
{}

/// Two ids or more have a twin where this level has one, or the level above.
pub fn twin_is_here_or_above()
    ensures { (a b : Id) (ids : List Id)
        → twin (a ∷ b ∷ ids) ≡ (has_twin (a ∷ b ∷ ids) || twin (next (a ∷ b ∷ ids))) }
{}

/// The 285 bytes spell the genesis block, and the other constants are its id, its root and its time.
pub fn genesis_is_its_parts()
    ensures bytes { GENESIS ≡ block.spell genesis.genesis }
    ensures root { (GENESIS_ROOT ≡ genesis.root) × (txn.id_of genesis.coinbase ≡ genesis.root) }
    ensures id { (GENESIS_ID ≡ genesis.id) × (id_of genesis.header ≡ genesis.id) }
    ensures time { GENESIS_TIME ≡ genesis.header.time }
{}
