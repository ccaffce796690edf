// The end of a piece: it is held until it is complete.
ghost use Rattle.std.specs.Prelude.{◌≡◌, ◌<◌, ◌≤◌, IsSomeAnd, IfSome};
ghost use Rattle.nl_segments.specs.InsideLineSteps.{unless_complete};
ghost use Rattle.nl_segments.specs.Current.{less_line, less_lines};

use crate::current::Current;
use nl_lines::is_nothing;

/// Counts a line that is kept elsewhere.
pub(crate) fn count_line(current: &mut Option<Current>)
    requires { IsSomeAnd current.old (λ c. 0 < c.left) }
    ensures { IfSome current.old (λ c. current.new ≡ unless_complete (less_line c)) }
{
    let Some(held) = current else { unreachable!() };
    held.take_line();
    if is_nothing(held.awaited()) {
        *current = None;
    }
}

/// Counts so many lines that are kept elsewhere.
pub(crate) fn count_lines(current: &mut Option<Current>, count: u32)
    requires { IsSomeAnd current.old (λ c. count ≤ c.left) }
    ensures { IfSome current.old (λ c. current.new ≡ unless_complete (less_lines c count)) }
{
    let Some(held) = current else { unreachable!() };
    held.take_lines(count);
    if is_nothing(held.awaited()) {
        *current = None;
    }
}
