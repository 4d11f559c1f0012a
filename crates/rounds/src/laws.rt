//! What holds of rounds.

ghost use Rattle.std.specs.Prelude.{◌≤◌, ◌*◌, All, List, length};
ghost use Rattle.txn.specs.Tx.{Tx};
ghost use Rattle.signatures.specs.Known.{Agrees, Known};
ghost use Rattle.signatures.specs.Triple.{Triples};
ghost use Rattle.interp.specs.Question.{Question};
ghost use Rattle.interp.specs.declared.job.Job.{Job};
ghost use Rattle.coins.specs.Coins.{Coins};
ghost use Rattle.connect.specs.Scripts.{AreWantedByBlock};
ghost use Rattle.connect.specs.BlockContext.{Setting};
ghost use Rattle.model.specs.declared.command.Command.{Command};
ghost use Rattle.activate.specs.CoreState.{CoreState};
ghost use Rattle.activate.specs.Wants.{AreWantedByStep};
ghost use Rattle.rounds.specs.Rounds.{AreRounds, WantsOne, JobsWant, max_rounds};
ghost use Rattle.rounds.specs.Tries.{most_tries};

/// Whatever is known at first, at most 402 rounds come before the verdict on an input: each wants a signature, on which
/// the next one has the verdict.
pub fn an_input_takes_few_rounds()
    ensures { (q : Question) (rounds : List Known) → AreRounds (WantsOne q) rounds
        → length rounds ≤ max_rounds }
{}

/// However many jobs there are, at most 402 rounds come before their first refusal is found: each finds out all that
/// they want before the first that is refused.
pub fn jobs_take_as_few_rounds_as_one()
    ensures { (jobs : List Job) (rounds : List Known) → AreRounds (JobsWant jobs) rounds
        → length rounds ≤ max_rounds }
{}

/// A block takes at most 402 rounds, however many scripts it has: each round wants all that they want before the first
/// that is refused, and the next one knows it.
pub fn a_block_takes_few_rounds()
    ensures { (s : Setting) (coins : Coins) (txs : List Tx) (rounds : List Known)
        → AreRounds (AreWantedByBlock s coins txs) rounds → length rounds ≤ max_rounds }
{}

/// **A command takes at most 402 rounds for each block that it may try, and one call more**: each round wants all that
/// scripts of one or more of these blocks want before the first that is refused, and the next one knows it.
pub fn a_command_takes_few_rounds_a_block()
    ensures { (c : CoreState) (command : Command) (triples : Triples) (rounds : List Known)
        → All (λ known. Agrees known triples) rounds
        → AreRounds (AreWantedByStep c command) rounds
        → length rounds ≤ max_rounds * most_tries c triples command }
{}
