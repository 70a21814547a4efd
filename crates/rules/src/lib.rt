// The answers that code and rules share, their numbers, and what is asked of a behaviour.
#![tactic(auto)]

ghost use Rattle.std.specs.Prelude.{◌≡◌, true};
ghost use Rattle.rules.specs.State.{number, behaviour_number};
ghost use Rattle.rules.specs.Flow as flow;
ghost use Rattle.rules.specs.Proved.{Proved};

pub mod limits;

// How an evaluation ends.
#[derive(Clone, Copy, Debug, PartialEq, Eq)]
pub enum Behaviour {
    Normal,
    Return,
    Exit,
    Failure,
}

// What a run can be refused for, in the order of the numbers 6 to 10.
#[derive(Clone, Copy, Debug, PartialEq, Eq)]
pub enum Refusal {
    BudgetUsedUp,
    LongString,
    LongList,
    LongStream,
    ManyHolds,
}

// A run refused midway: for what, and at which record.
#[derive(Clone, Copy, Debug, PartialEq, Eq)]
pub struct Halt {
    pub why: Refusal,
    pub place: usize,
}

impl Behaviour {
    pub fn is_normal(self) -> bool
        ensures { result ≡ flow.is_normal self }
    {
        matches!(self, Behaviour::Normal)
    }

    pub fn is_failure(self) -> bool
        ensures { result ≡ flow.is_failure self }
    {
        matches!(self, Behaviour::Failure)
    }

    // A call's Return becomes Normal.
    pub fn returned(self) -> Behaviour
        ensures { result ≡ flow.returned self }
    {
        match self {
            Behaviour::Return => Behaviour::Normal,
            other => other,
        }
    }
}

// The byte of a behaviour in a result sheet.
impl From<Behaviour> for u8 {
    ghost from_gives = { λ b byte. byte ≡ behaviour_number b };

    fn from(b: Behaviour) -> u8 {
        match b {
            Behaviour::Normal => 0,
            Behaviour::Return => 1,
            Behaviour::Exit => 2,
            Behaviour::Failure => 3,
        }
    }
}

// The number by which a run is refused.
impl From<Refusal> for u32 {
    ghost from_gives = { λ r n. n ≡ number r };

    fn from(r: Refusal) -> u32 {
        match r {
            Refusal::BudgetUsedUp => 6,
            Refusal::LongString => 7,
            Refusal::LongList => 8,
            Refusal::LongStream => 9,
            Refusal::ManyHolds => 10,
        }
    }
}

// What the specs claim is true: the contract asks for every proof, so none can be lost unnoticed.
fn claims_hold() -> bool
    ensures { (result ≡ true) × Proved }
{
    true
}
