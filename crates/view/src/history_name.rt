//! Which history a view is of, as the types say it.

use std::marker::Brand;

/// Which history it is, and of which origin. It is the type parameter of readers, of the writer, and of all that is made
/// of them, so that only what is of one history fits together. No program implements it: `Brand` does for all.
pub trait Naming: Send + Sync {
    ghost use Rattle.view.specs.Origin.{Origin};

    ghost origin: { Origin };
}

impl Naming for Brand {
    ghost use Rattle.std.specs.Prelude.{None};
    ghost use Rattle.rules.specs.Params.{of_heights};

    ghost origin = { record {
      book = record { number = 0; log_name = 0; cells_name = 0 };
      params = of_heights 0 0 0 0;
      table = None;
      seats = 0;
    } };
}
