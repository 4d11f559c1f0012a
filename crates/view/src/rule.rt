//! The rule of what is published, and the step that keeps it.

use crate::history_name::Naming;
use crate::history_view::View;
use crossbeam_utils::rule::{Outcome, Protocol};
use std::marker::PhantomData;

/// The rule of what is published. No value of it is made.
pub struct ViewRule<J: Naming> {
    of: PhantomData<J>,
}

impl<J: Naming> Protocol<View, ()> for ViewRule<J> {
    ghost use Rattle.view.specs.Rule.{IsExactOf};

    ghost holds = { λ x all. IsExactOf J.origin x };

    ghost first = { tt };
}

/// What a step of a reader or of the writer leaves published. No value of it is made.
pub(crate) struct Turning<J: Naming> {
    of: PhantomData<J>,
}

impl<J: Naming> Outcome<View, ()> for Turning<J> {
    ghost use Rattle.view.specs.Rule.{IsExactOf};

    ghost then = { λ v before after w. IsExactOf J.origin after };
}
