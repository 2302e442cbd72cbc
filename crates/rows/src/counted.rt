// A list whose items are numbered from 1.
ghost use Rattle.std.specs.Prelude.{◌≡◌};
ghost use Rattle.std.specs.Option.{option_copied};
ghost use Rattle.rows.specs.Columns.{numbered};

/// The item of that number.
pub(crate) fn numbered<T>(items: &[T], number: u16) -> Option<&T>
    ensures { option_copied result ≡ numbered items.now number }
{
    let place = number.checked_sub(1)?;
    items.get(place as usize)
}
