//! What an access may cost.

ghost use Rattle.std.specs.Prelude.{◌≤◌};
ghost use Rattle.vt_types.specs.Access.{access_value, access_cost, IsWithinLimits};
ghost use Rattle.vt_types.specs.Limits.{GREATEST_COST};

use vt_types::Access;

/// An access within limits costs at most what the accesses of an operation may, so one may be done where the machine was
/// reserved and nothing happened since. Does nothing.
pub fn cost_is_bounded(a: &Access<'_>)
    requires { IsWithinLimits (access_value a.now) }
    ensures { access_cost (access_value a.now) ≤ GREATEST_COST }
{
    if let Access::Zero { count, .. } = *a {
        let _at_most_65535 = count;
    }
}
