// Where a run keeps what it knows: narrow operations on the lent work memory. Every place and size in it is a number; u, the unit, is the
// string limit and 1, so that one proof serves any limit up to 255. All memory is lent and there is no heap, so places are numbers.
#![tactic(auto)]

ghost use Rattle.std.specs.Prelude.{◌<◌, ◌≤◌};

pub mod counter;
pub mod list;
pub mod place;
pub mod stream;
pub mod stretch;
pub mod string;
pub mod text;
pub mod variable;

pub use counter::{add, begin_call, begin_edge, charge, end_call, end_edge, number, store};
pub use list::{add_text, field, split, test};
pub use place::{list_place, stream_place, string_place, variables_place};
pub use stream::{echo, env, stream_in, stream_within, value_length};
pub use stretch::{clear, copy_in};
pub use string::append_within;
pub use text::{size, text_in};
pub use variable::{assign, assign_text, lookup, mark, raise};

// What a string takes in work memory, its length and its bytes: at most 256 bytes.
#[derive(Clone, Copy)]
pub struct Unit {
    pub bytes: usize,
    ghost fits: { (0 < bytes) × (bytes ≤ 256) },
}

// What is read in place: so many bytes of the sheet from a place on, or the value of the variable at a slot of work memory.
#[derive(Clone, Copy)]
pub enum Source {
    Text { at: usize, size: usize },
    Variable { slot: usize },
}

// What a run is given and never changes: its limits, the unit, and how many variables the sheet names; all numbers, as the laws speak of them.
#[derive(Clone, Copy)]
pub struct Given {
    pub loops: usize,
    pub stack: usize,
    pub budget: usize,
    pub unit: usize,
    pub slots: usize,
}

// What a run comes to beside its bytes: steps used, the result, where argument 1 stands and how many there are, where the rest of the
// input stands and how long it is, how long the stream is that is written.
#[derive(Clone, Copy)]
pub struct Course {
    pub used: usize,
    pub result: bool,
    pub arguments: usize,
    pub count: usize,
    pub from: usize,
    pub rest: usize,
    pub length: usize,
}

// A call that has begun: whether it is an outermost one of those over its edge, and of those of its function.
#[derive(Clone, Copy)]
pub struct Opened {
    pub edge: bool,
    pub function: bool,
}
