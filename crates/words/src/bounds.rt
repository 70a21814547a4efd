// Whether a limit of the run is reached.
ghost use Rattle.std.specs.Prelude.{◌≡◌, ◌&&◌, leb, ltb};
ghost use Rattle.words.specs.Words.{budget_of, stack_of, scope_of, pace_of};

use crate::limits::{budget, stack};
use crate::pace::{result, used};
use crate::scope::{calls, holds};
use crate::{LimitsNumber, PaceNumber, ScopeNumber};

// Whether the budget is used up, so that no step can begin.
pub fn spent(pace: PaceNumber, limits: LimitsNumber) -> bool
    ensures { result ≡ leb (budget_of limits) (pace_of pace).used }
{
    used(pace) >= budget(limits)
}

// Whether no hold can be opened: ten are.
pub fn no_hold(scope: ScopeNumber) -> bool
    ensures { result ≡ leb 10 (scope_of scope).holds }
{
    holds(scope) >= 10
}

// Whether the stack is full, so that a call fails.
pub fn no_call(scope: ScopeNumber, limits: LimitsNumber) -> bool
    ensures { result ≡ leb (stack_of limits) (scope_of scope).calls }
{
    calls(scope) >= stack(limits)
}

// Whether a while runs its body: after a true test, while something is left of the loop limit.
pub fn runs_body(pace: PaceNumber, left: usize) -> bool
    ensures { result ≡ ((pace_of pace).result && ltb 0 left) }
{
    result(pace) && left > 0
}
