// Where the parts of the table stand that a check leaves for evaluation: the names of the slots from 0 on, where each record begins, its mark,
// and of each function its body and its name, main's first. Records are numbers into it, since all memory is lent and there is no heap.
// The most records, for which the table has room.
pub const RECORDS: usize = 512;

pub const STARTS_AT: usize = 1024;

pub const MARKS_AT: usize = 2048;

pub const BODIES_AT: usize = 3072;

// The name that main has none of, and the functions behind main.
pub const MAIN_NAME_AT: usize = BODIES_AT + 2;

pub const FUNCTIONS_AT: usize = BODIES_AT + 4;

pub const FUNCTION_NAMES_AT: usize = BODIES_AT + 6;
