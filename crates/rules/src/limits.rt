// The limits that code compares with, each under one name.

// A string, a list and a stream.
pub const STRING_BYTES: usize = 63;

pub const LIST_FIELDS: usize = 16;

pub const STREAM_BYTES: usize = 1024;

// A name in memory: its length, then as many bytes as a string has at most.
pub const NAME_BYTES: usize = STRING_BYTES + 1;

// A sheet: its bytes, its variables and its functions beside main.
pub const SHEET_BYTES: usize = 8192;

pub const SHEET_VARIABLES: usize = 16;

pub const SHEET_FUNCTIONS: usize = 32;

// The texts of an argument sheet: argument 0 and a list.
pub const ARGUMENT_TEXTS: usize = LIST_FIELDS + 1;

// The memory that is lent: at least so many bytes for the result, exactly so many for the work, at least so many for a call graph file.
pub const RESULT_BYTES: usize = 4096;

pub const WORK_BYTES: usize = 65536;

pub const FILE_BYTES: usize = 65536;

// What a run is given, as wide as it comes.
#[derive(Clone, Copy, Debug, PartialEq, Eq)]
pub struct Limits {
    pub loops: u64,
    pub stack: u64,
    pub budget: u64,
}

// What a run may be given at most.
pub const MOST_LOOPS: u64 = 65535;

pub const MOST_STACK: u64 = 10;

pub const MOST_BUDGET: u64 = 1000000;
