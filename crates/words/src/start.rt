// Where a run begins: main's scope, its pace and its feed.
ghost use Rattle.std.specs.Prelude.{true, false, ◌<◌};
ghost use Rattle.memory.specs.Abstract as start;
ghost use Rattle.memory.specs.Layout.{list_place};
ghost use Rattle.words.specs.Words.{Number, scope_of, pace_of, feed_of, pace_with, feed_with, scope_number, pace_number, feed_number};

use crate::feed::feed;
use crate::pace::pace;
use crate::scope::{Parts, scope};
use crate::{FeedNumber, PaceNumber, ScopeNumber};
use memory::Unit;

// The scope that main starts in.
pub fn start_scope() -> ScopeNumber
    ensures { Number scope_of start.start_scope (scope_number false false false 0 0 0 1 0 0) result }
{
    scope(Parts {
        condition: false,
        dropped: false,
        piped: false,
        holds: 0,
        level: 0,
        stream: 0,
        streams: 1,
        calls: 0,
        function: 0,
    })
}

// Its pace.
pub fn start_pace() -> PaceNumber
    ensures { Number pace_of (pace_with 0 true 0) (pace_number 0 true 0) result }
{
    pace(0, true, 0)
}

// Its feed, with so many arguments and bytes of standard input.
pub fn start_feed(u: Unit, n: usize, size: usize) -> FeedNumber
    requires { (n < 32) × (size < 2048) }
    ensures { Number feed_of (feed_with (list_place u.bytes 0) n 0 size) (feed_number (list_place u.bytes 0) n 0 size) result }
{
    let list = memory::list_place(u, 0);
    feed(list, n, 0, size)
}
