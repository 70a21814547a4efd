// The table of kinds.
ghost use Rattle.std.specs.Prelude.{◌≡◌};
ghost use Rattle.sheet.specs.Format as format;
ghost use Rattle.sheet.specs.Codes as codes;

use rules::limits::STRING_BYTES;

// The kinds that are asked for by themselves. Kinds are the format's numbers: an enum would be made of one to be matched on at once.
pub const TEXT: usize = 1;

pub const CALL: usize = 25;

pub const FUNCTION: usize = 32;

pub const MAIN: usize = 33;

// What is wanted of a part of a payload.
#[derive(Clone, Copy, Debug, PartialEq, Eq)]
pub enum Want {
    Nothing,
    AnyNumber,
    Code,
    Name,
    Text,
    List,
    Instruction,
}

// The least and most length of a payload, and what is wanted of each of its parts.
#[derive(Clone, Copy, Debug, PartialEq, Eq)]
pub struct Layout {
    pub least: usize,
    pub most: usize,
    pub first: Want,
    pub second: Want,
    pub third: Want,
}

// A payload of one length.
fn exactly(size: usize, first: Want, second: Want, third: Want) -> Option<Layout>
    ensures { result ≡ codes.exactly size first second third }
{
    Some(Layout {
        least: size,
        most: size,
        first,
        second,
        third,
    })
}

// The table of kinds: for each its payload's length, and what its parts have to be; nothing for a number that is no kind.
// One match over the kinds, by ranges: asked for in this form (docs/DECISIONS.md, "Named forms").
#[tactic(auto, unfolding(crate::specs::Format::shape))]
pub fn shape(kind: usize) -> Option<Layout>
    ensures { result ≡ codes.layout (format.shape kind) }
{
    match kind {
        1 => Some(Layout {
            least: 0,
            most: STRING_BYTES,
            first: Want::Nothing,
            second: Want::Nothing,
            third: Want::Nothing,
        }),
        2 | 17 => exactly(2, Want::Name, Want::Nothing, Want::Nothing),
        3 | 30 => exactly(2, Want::AnyNumber, Want::Nothing, Want::Nothing),
        4 | 19..=20 | 22 | 33 => exactly(2, Want::Instruction, Want::Nothing, Want::Nothing),
        5 => exactly(4, Want::Text, Want::Text, Want::Nothing),
        6 => exactly(0, Want::Nothing, Want::Nothing, Want::Nothing),
        7..=8 => exactly(4, Want::Text, Want::List, Want::Nothing),
        16 => exactly(4, Want::Name, Want::Text, Want::Nothing),
        18 | 23 | 27 => exactly(4, Want::Instruction, Want::Instruction, Want::Nothing),
        21 => exactly(6, Want::Instruction, Want::Instruction, Want::Instruction),
        24..=25 => exactly(4, Want::Name, Want::List, Want::Nothing),
        26 => exactly(6, Want::Name, Want::List, Want::Instruction),
        28..=29 => exactly(2, Want::Code, Want::Nothing, Want::Nothing),
        32 => exactly(4, Want::Name, Want::Instruction, Want::Nothing),
        _ => None,
    }
}

// Whether a record of the kind names a variable.
#[tactic(auto, unfolding(crate::specs::Format::names_variable))]
pub fn names_variable(kind: usize) -> bool
    ensures { result ≡ format.names_variable kind }
{
    matches!(kind, 2 | 16..=17 | 26)
}
