//! What holds of the definitions.

ghost use Rattle.std.specs.Prelude.{◌≡◌, ◌↔◌, ℕ, List, IsTrue};
ghost use Rattle.signatures.specs.Known.{Known};
ghost use Rattle.interp.specs.Question.{Question};
ghost use Rattle.interp.specs.Running.{Running};
ghost use Rattle.interp.specs.Stack.{Stack};
ghost use Rattle.interp.specs.computed.Step.{outcome, verdict};
ghost use Rattle.interp.specs.computed.NamedFailures.{eval_running, verify_script};
ghost use Rattle.interp.specs.laws.FailureNames.{unnamed, passes};
ghost use Rattle.txn.specs.Tx.{Tx};
ghost use Rattle.signatures.specs.Triple.{Triples};
ghost use Rattle.interp.specs.declared.flags.Flags.{Flags};
ghost use Rattle.interp.specs.Rules.{Accepts};
ghost use Rattle.interp.specs.computed.InputVerdict.{accepts};

/// The verdict that is computed is the relation's.
pub fn the_verdict_is_computed()
    ensures { (tx : Tx) (input : ℕ) (spent : List ℕ) (flags : Flags) (triples : Triples)
        → IsTrue (accepts tx input spent flags triples) ↔ Accepts tx input spent flags triples }
{}

/// A failure has a name exactly where a script fails; names change no stack that is left, and no verdict.
pub fn names_change_no_verdict()
    ensures scripts { (known : Known) (r : Running) (script : List ℕ) (stack : Stack)
        → unnamed (eval_running known r script stack) ≡ outcome known r script stack }
    ensures inputs { (known : Known) (q : Question)
        → passes (verify_script known q) ≡ verdict known q }
{}
