//! Where the writer is between calls.

ghost use Rattle.std.specs.Prelude.{◌≡◌};

use std::mem::ManuallyDrop;
use view::{Naming, ViewWriter};

/// The writer. A drop of it would have to wait for readers, so where this is dropped what is published is kept.
pub(crate) struct WriterHome<J: Naming> {
    pub(crate) writer: ViewWriter<J>,
}

impl<J: Naming> Drop for WriterHome<J> {
    fn drop(self) {
        let Self { writer } = self;
        let _kept = unsafe { ManuallyDrop::new_unchecked(writer) };
    }
}

impl<J: Naming> WriterHome<J> {
    /// The writer, taken out.
    pub(crate) fn into_writer(self) -> ViewWriter<J>
        ensures { result ≡ self.writer }
    {
        let Self { writer } = self;
        writer
    }
}
