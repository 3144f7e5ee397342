//! Values that are great, in memory of their own.
ghost use Rattle.std.specs.Prelude.{◌≡◌, IfErr, IfOk};

use crate::OpenFault;
use std::alloc::Global;

/// A copy of a value in memory of its own. The copies that are made on the way stand in the frame of this
/// call alone.
#[inline(never)]
pub(crate) fn boxed<T: Copy>(alloc: Global, value: &T) -> Result<Box<T>, OpenFault>
    ensures same { IfOk result (λ made. made.value ≡ value.now) }
    ensures refused { IfErr result (λ why. why ≡ OpenFault.NoMemory) }
{
    match Box::new(alloc, *value) {
        Ok(made) => Ok(made),
        Err(_) => Err(OpenFault::NoMemory),
    }
}
