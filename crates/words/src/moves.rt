// How scopes, paces and feeds change from one evaluation to the next. What a part has room for is asked of that part alone: not every number of
// a scope has it, so it is no fact of the type.
ghost use Rattle.std.specs.Prelude.{◌<◌, ◌≤◌};
ghost use Rattle.words.specs.Moves as to;
ghost use Rattle.words.specs.Words.{IsScope, IsPace, IsFeed, scope_of, pace_of, feed_of};

use crate::feed::{arguments, count, from, rest};
use crate::pace::{result, used, written};
use crate::scope::{Parts, parts_of};
use crate::{FeedNumber, PaceNumber, ScopeNumber};

// Under a condition.
pub fn tested(scope: ScopeNumber) -> ScopeNumber
    ensures { IsScope (to.tested (scope_of scope)) result }
{
    let now = parts_of(scope);
    crate::scope::scope(Parts {
        condition: true,
        ..now
    })
}

// With one hold more.
pub fn held(scope: ScopeNumber) -> ScopeNumber
    requires { (scope_of scope).holds < 10 }
    ensures { IsScope (to.held (scope_of scope)) result }
{
    let now = parts_of(scope);
    crate::scope::scope(Parts {
        holds: now.holds + 1,
        ..now
    })
}

// With variables of its own.
pub fn apart(scope: ScopeNumber) -> ScopeNumber
    requires { ((scope_of scope).holds < 10) × ((scope_of scope).level ≤ 10) }
    ensures { IsScope (to.apart (scope_of scope)) result }
{
    let now = parts_of(scope);
    crate::scope::scope(Parts {
        holds: now.holds + 1,
        level: now.level + 1, // a copy of the variables
        ..now
    })
}

// With a fresh stream to write.
pub fn caught(scope: ScopeNumber) -> ScopeNumber
    requires { ((scope_of scope).holds < 10) × ((scope_of scope).level ≤ 10) × ((scope_of scope).streams ≤ 11) }
    ensures { IsScope (to.caught (scope_of scope)) result }
{
    let now = parts_of(scope);
    crate::scope::scope(Parts {
        dropped: false,
        holds: now.holds + 1,
        level: now.level + 1, // the variables of what is caught
        stream: now.streams,
        streams: now.streams + 1,
        ..now
    })
}

// With that stream to read.
pub fn fed(scope: ScopeNumber) -> ScopeNumber
    requires { ((scope_of scope).holds < 10) × ((scope_of scope).level ≤ 10) × ((scope_of scope).streams ≤ 11) }
    ensures { IsScope (to.fed (scope_of scope)) result }
{
    let now = parts_of(scope);
    crate::scope::scope(Parts {
        piped: true,
        holds: now.holds + 1,
        level: now.level + 1, // the variables of the second side
        streams: now.streams + 1,
        ..now
    })
}

// With nothing kept of what is written.
pub fn silent(scope: ScopeNumber) -> ScopeNumber
    requires { (scope_of scope).holds < 10 }
    ensures { IsScope (to.silent (scope_of scope)) result }
{
    let now = parts_of(scope);
    crate::scope::scope(Parts {
        dropped: true,
        holds: now.holds + 1,
        ..now
    })
}

// In a call of f.
pub fn within(scope: ScopeNumber, f: usize) -> ScopeNumber
    requires { ((scope_of scope).holds < 10) × ((scope_of scope).calls < 16) × (f ≤ 32) }
    ensures { IsScope (to.within f (scope_of scope)) result }
{
    let now = parts_of(scope);
    crate::scope::scope(Parts {
        holds: now.holds + 1,
        calls: now.calls + 1,
        function: f, // its steps are charged to it
        ..now
    })
}

// With another result.
pub fn with_result(pace: PaceNumber, res: bool) -> PaceNumber
    ensures { IsPace (to.resulted res (pace_of pace)) result }
{
    crate::pace::pace(used(pace), res, written(pace))
}

// With so many bytes in the stream that is written.
pub fn with_length(pace: PaceNumber, length: usize) -> PaceNumber
    requires { length < 2048 }
    ensures { IsPace (to.lengthened length (pace_of pace)) result }
{
    crate::pace::pace(used(pace), result(pace), length)
}

// After what is caught: the result and the stream from before.
pub fn resumed(before: PaceNumber, after: PaceNumber) -> PaceNumber
    ensures { IsPace (to.resumed (pace_of before) (pace_of after)) result }
{
    crate::pace::pace(used(after), result(before), written(before))
}

// With other arguments.
pub fn with_arguments(feed: FeedNumber, place: usize, n: usize) -> FeedNumber
    requires { (place < 1048576) × (n < 32) }
    ensures { IsFeed (to.argued place n (feed_of feed)) result }
{
    crate::feed::feed(place, n, from(feed), rest(feed))
}

// After what has arguments of its own, or may shift them: the arguments from before.
pub fn kept_arguments(before: FeedNumber, after: FeedNumber) -> FeedNumber
    ensures { IsFeed (to.kept_arguments (feed_of before) (feed_of after)) result }
{
    crate::feed::feed(arguments(before), count(before), from(after), rest(after))
}

// With so much of the input left.
pub fn with_rest(feed: FeedNumber, n: usize) -> FeedNumber
    requires { n < 2048 }
    ensures { IsFeed (to.refed n (feed_of feed)) result }
{
    crate::feed::feed(arguments(feed), count(feed), from(feed), n)
}

// With the input read to its end.
pub fn emptied(feed: FeedNumber) -> FeedNumber
    ensures { IsFeed (to.drained (feed_of feed)) result }
{
    with_rest(feed, 0)
}

// Reading n bytes of work memory at a.
pub fn fed_by(feed: FeedNumber, a: usize, n: usize) -> FeedNumber
    requires { (a < 1048576) × (n < 2048) }
    ensures { IsFeed (to.supplied a n (feed_of feed)) result }
{
    crate::feed::feed(arguments(feed), count(feed), a, n)
}
