// What a course feeds on: where argument 1 stands and how many there are, where the rest of the input stands and how long it is.
#![tactic(auto, unfolding(crate::specs::Words::feed_of))]

ghost use Rattle.std.specs.Prelude.{◌≡◌, ◌<◌};
ghost use Rattle.words.specs.Words.{Number, feed_of, feed_with, feed_number};

use crate::FeedNumber;

// How many values a part has, and what one of it counts for: as much as all parts below it.
const COUNTS: usize = 32;

const PLACES: usize = 1048576;

const RESTS: usize = 2048;

const ARGUMENTS_UNIT: usize = COUNTS;

const REST_UNIT: usize = ARGUMENTS_UNIT * PLACES;

const FROM_UNIT: usize = REST_UNIT * RESTS;

pub fn count(feed: FeedNumber) -> usize
    ensures { (result ≡ (feed_of feed).count) × (result < 32) }
{
    feed.number % COUNTS
}

pub fn arguments(feed: FeedNumber) -> usize
    ensures { (result ≡ (feed_of feed).arguments) × (result < 1048576) }
{
    feed.number / ARGUMENTS_UNIT % PLACES
}

pub fn rest(feed: FeedNumber) -> usize
    ensures { (result ≡ (feed_of feed).rest) × (result < 2048) }
{
    feed.number / REST_UNIT % RESTS
}

pub fn from(feed: FeedNumber) -> usize
    ensures { (result ≡ (feed_of feed).from) × (result < 1048576) }
{
    feed.number / FROM_UNIT % PLACES
}

// The number of a feed with these parts.
pub fn feed(arguments: usize, count: usize, from: usize, rest: usize) -> FeedNumber
    requires { (arguments < 1048576) × (count < 32) × (from < 1048576) × (rest < 2048) }
    ensures { Number feed_of (feed_with arguments count from rest) (feed_number arguments count from rest) result }
{
    let number = count + ARGUMENTS_UNIT * arguments + REST_UNIT * rest + FROM_UNIT * from;
    FeedNumber { number }
}
