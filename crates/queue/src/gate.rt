//! What is called round each job that is run.

/// A worker calls `begin` before it runs a job and `end` after it, with the job's place in the list, from 0.
///
/// It is there for tests and for whoever wants to watch the workers; no answer depends on it.
pub trait Gate {
    fn begin(&self, job: usize);

    fn end(&self, job: usize);
}

/// A gate that is known by its trait alone.
impl<'g> Gate for &'g (dyn Gate + Sync) {
    fn begin(&self, job: usize) {
        let gate: &(dyn Gate + Sync) = *self;
        gate.begin(job);
    }

    fn end(&self, job: usize) {
        let gate: &(dyn Gate + Sync) = *self;
        gate.end(job);
    }
}

/// The gate that does nothing.
#[derive(Clone, Copy)]
pub struct Open;

impl Gate for Open {
    fn begin(&self, _job: usize) {}

    fn end(&self, _job: usize) {}
}
