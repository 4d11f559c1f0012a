//! Soft forks by name.

ghost use Rattle.rules.specs.Deployment.{deployment_named};
ghost use Rattle.ffi.specs.Answers.{IsHeightSet, params_of};

use crate::answers::{DONE, Heights, NONE};
use rules::Deployment;

/// Sets the height from which the soft fork of this name is in force.
#[unsafe(no_mangle)]
pub extern "C" fn ffi_set_height(heights: &mut Heights, name: &[u8], height: u32) -> u32
    ensures { IsHeightSet (deployment_named name.now) height (params_of heights.old)
        (params_of heights.new) result }
{
    // A name is ASCII.
    let Ok(name) = str::from_utf8(name) else {
        return NONE;
    };
    let Some(deployment) = Deployment::named(name) else {
        return NONE;
    };
    *heights = Heights::of(&heights.params().with(deployment, height));
    DONE
}
