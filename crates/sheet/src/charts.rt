// The steps and arrows of a process.
ghost use Rattle.std.specs.Prelude.{◌≡◌};
ghost use Rattle.process.specs.Accepted.{tables_of};
ghost use Rattle.model.specs.Chart.{has_step, is_arrow, arrows_into};

use process::Process;
use process::parts::Arrow;

/// Whether there is such a step.
pub(crate) fn has_step(process: &Process, step: u16) -> bool
    ensures { result ≡ has_step (tables_of process.now) step }
{
    (1..=process.steps().len()).contains(&usize::from(step))
}

/// Whether an arrow leads from one step to another.
pub(crate) fn is_arrow(process: &Process, from: u16, to: u16) -> bool
    ensures { result ≡ is_arrow (tables_of process.now) from to }
{
    process.arrows().contains(&Arrow { from, to })
}

/// How many arrows lead into a step.
pub(crate) fn arrows_into(process: &Process, step: u16) -> usize
    ensures { result ≡ arrows_into (tables_of process.now) step }
{
    let arrows = process.arrows().iter();
    arrows.filter(|arrow| arrow.to == step).count()
}
