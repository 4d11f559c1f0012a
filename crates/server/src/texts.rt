//! What objects have of a node's answers.

ghost use Rattle.std.specs.Prelude.{◌≡◌, IfOk};
ghost use Rattle.std.specs.String.{string_bytes};
ghost use Rattle.journal.specs.Line.{text_of_answer};
ghost use Rattle.serving.specs.Answers.{output_members};
ghost use Rattle.server.specs.UnspentOutput.{unspent_members};

use node::{Reply, UnspentOutput};
use serving::Output;
use std::alloc::{AllocError, Global};

/// The text of a step's reply.
pub fn reply_text(alloc: Global, reply: Option<Reply>) -> Result<String, AllocError>
    ensures { IfOk result (λ text. string_bytes text ≡ text_of_answer reply) }
{
    match reply {
        Some(reply) => reply.to_string(alloc),
        None => String::from_str(alloc, "owed"),
    }
}

/// An output, as its object has it.
pub fn output_of(output: &UnspentOutput) -> Output<'_>
    ensures { output_members result ≡ unspent_members output.now }
{
    Output {
        value: output.value,
        script: output.script.as_slice(),
        height: output.height,
        coinbase: output.coinbase,
        confirmations: output.confirmations,
    }
}
