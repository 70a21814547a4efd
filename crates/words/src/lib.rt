// What evaluation hands on, as numbers, which pass in registers: the limits of a run, its scope, its course as a pace and a feed, the end of a
// string; how they change, whether a limit is reached, and where the areas of a scope stand.
#![tactic(auto)]

ghost use Rattle.std.specs.Prelude.{◌≡◌, true};
ghost use Rattle.words.specs.Proved.{Proved};

// The four numbers, each of its own type: what stands for a scope cannot be handed on as a pace. Their parts are digits and not fields: a number
// passes in a register, and as structs of their parts they went through memory at every call, most of the instructions of a step. The claims
// `OneNumber` and `PartsAdmitMany` (specs/Claims) are said of the numbers.
#[derive(Clone, Copy)]
pub struct LimitsNumber {
    pub number: usize,
}

#[derive(Clone, Copy)]
pub struct ScopeNumber {
    pub number: usize,
}

#[derive(Clone, Copy)]
pub struct PaceNumber {
    pub number: usize,
}

#[derive(Clone, Copy)]
pub struct FeedNumber {
    pub number: usize,
}

pub mod bounds;
pub mod end;
pub mod feed;
pub mod limits;
pub mod moves;
pub mod pace;
pub mod places;
pub mod scope;
pub mod start;

// What the specs claim is true: the contract asks for every proof, so none can be lost unnoticed.
fn claims_hold() -> bool
    ensures { (result ≡ true) × Proved }
{
    true
}
