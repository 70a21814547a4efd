// Judged runs, one to a line of standard input: sheet, arguments and input in hex (`-` for no bytes), loop limit, stack limit, budget. Writes
// each answer, `refused N P` or the whole result sheet in hex, and before it what is wrong with a memory, if anything is.
// The expected answers in `stdout` come from the judged runs and not from this program (data/make.py).
#![tactic(auto)]

ghost use Rattle.std.specs.Prelude.{◌≡◌};
ghost use Rattle.run_cases.specs.All.{all};

use rules::limits::Limits;
use runner::Refused;
use std::io;

// What the result memory holds at first, so that a byte written to it shows.
const NOISE: u8 = 165;

// Whether every byte of the memory is this one. A loop: it is most of what this program does, and by `all` takes nearly three times the instructions.
fn is_all(memory: &[u8], byte: u8) -> bool
    ensures { result ≡ all byte memory.now }
{
    for b in memory {
        if *b != byte {
            return false;
        }
    }
    true
}

// After a refusal the result memory is as it was.
fn say_refused(rt: &impl Print, why: Refused, res: &[u8]) -> io::Result<()> {
    if !is_all(res, NOISE) {
        print!(rt; "result memory is not as before: ")?;
    }
    println!(rt; "refused {} {}", why.number(), why.place())
}

fn say_hex(rt: &impl Print, bytes: &[u8]) -> io::Result<()> {
    let mut hex = [0u8; 8192];
    let size = hexlines::encode(bytes, &mut hex);
    rt.write_all(&hex[..size])?;
    println!(rt; "")
}

// After an end the result memory is as it was behind the result sheet.
fn say_ended(rt: &impl Print, size: usize, res: &[u8]) -> io::Result<()> {
    if size > res.len() {
        return println!(rt; "longer than the result memory");
    }
    let (sheet, behind) = res.split_at(size);
    if !is_all(behind, NOISE) {
        print!(rt; "result memory is not as before: ")?;
    }
    say_hex(rt, sheet)
}

// The work memory holds other noise at first and is all 0 afterwards: both sizes are right, so no run is refused for them.
fn run(
    rt: &impl Print,
    sheet: &[u8],
    arguments: &[u8],
    input: &[u8],
    limits: Limits,
) -> io::Result<()> {
    let mut result = [NOISE; 4096];
    let mut work = [90u8; 65536];
    let answer = runner::run(sheet, arguments, input, limits, &mut result, &mut work);
    if !is_all(&work, 0) {
        print!(rt; "work memory is not cleared: ")?;
    }
    match answer {
        Ok(size) => say_ended(rt, size, &result),
        Err(why) => say_refused(rt, why, &result),
    }
}

// Each array has room for more than a run takes, so what is cut off changes no answer.
fn run_line(rt: &impl Print, line: &[u8]) -> io::Result<()> {
    let mut sheet = [0u8; 8200];
    let mut arguments = [0u8; 1200];
    let mut input = [0u8; 1100];
    let s = hexlines::decode(hexlines::word(line, 0), &mut sheet);
    let a = hexlines::decode(hexlines::word(line, 1), &mut arguments);
    let i = hexlines::decode(hexlines::word(line, 2), &mut input);
    let limits = Limits {
        loops: hexlines::decimal(hexlines::word(line, 3)),
        stack: hexlines::decimal(hexlines::word(line, 4)),
        budget: hexlines::decimal(hexlines::word(line, 5)),
    };
    run(rt, &sheet[..s], &arguments[..a], &input[..i], limits)
}

// The lines of the text: the last may end without a line feed. (`sheet_cases` does the same to its lines: a shared function would take a closure.)
fn each(rt: &impl Print, text: &[u8]) -> io::Result<()> {
    for line in text.split_inclusive(|b| *b == b'\n') {
        run_line(rt, line.strip_suffix(b"\n").unwrap_or(line))?;
    }
    Ok(())
}

fn main(rt: HostRuntime) -> io::Result<()> {
    let mut text = [0u8; 300000];
    let n = reading::read_full(&mut rt.stdin(), &mut text)?;
    each(&rt, &text[..n])
}
