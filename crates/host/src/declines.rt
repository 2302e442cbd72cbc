// How a host declines a call.
ghost use Rattle.std.specs.Prelude.{◌≡◌, true, Some};
ghost use Rattle.values.specs.Checks.{answer, bad};
ghost use Rattle.values.specs.declared.Layer.TheVariants.{Host};
ghost use Rattle.host.specs.Keys.{place_of};

use crate::keys::RowKey;
use values::{Cause, Fault, Layer};

/// The answer of a host that declines a call at a row.
pub fn declined(cause: Cause, row: RowKey) -> Result<(), Fault>
    ensures { result ≡ answer (bad true cause Host (place_of row)) tt }
{
    Err(Layer::Host.fault(cause, usize::from(row)))
}
