//! The scripts of before witnesses.

ghost use Rattle.std.specs.Prelude.{◌≡◌};
ghost use Rattle.interp.specs.Question.{question_of};
ghost use Rattle.interp.specs.Running.{base};
ghost use Rattle.interp.specs.inside.RunningContext.{running_of};

use crate::job::Job;
use crate::running::Running;

/// What an input's scripts run for, but for those of its witness.
pub fn base<'a>(job: &Job<'a>) -> Running<'a>
    ensures is { running_of result ≡ base (question_of job.now) }
    ensures tx { result.tx.now ≡ job.now.tx.now }
    ensures input { result.input ≡ job.now.input }
{
    Running {
        tx: job.tx,
        input: job.input,
        flags: job.flags,
        midstates: job.midstates,
        witness: None,
    }
}
