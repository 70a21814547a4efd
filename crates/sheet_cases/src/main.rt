// Checks the sheets and argument sheets of judged runs, one to a line of standard input (a name, the sheet, the argument sheet, in hex; `-` for no
// bytes), and writes each answer. The expected answers in `stdout` come from the judged runs and not from this program (data/make.py).
#![tactic(auto)]

use std::io;

// The arguments are looked at only if the sheet is good: a refused argument sheet has the number 5, and no place of its own.
fn judge(rt: &impl Print, sheet: &[u8], arguments: &[u8]) -> io::Result<()> {
    let mut table = [0u8; 4096];
    match sheet::check(sheet, &mut table) {
        Err(e) => {
            let number = u32::from(e.why);
            let place = e.place;
            println!(rt; " refused {number} at {place}")
        }
        Ok(_) => match sheet::check_arguments(arguments) {
            None => println!(rt; " refused 5 at 0"),
            Some(_) => println!(rt; " accepted"),
        },
    }
}

fn run(rt: &impl Print, line: &[u8]) -> io::Result<()> {
    let mut sheet = [0u8; 8200];
    let mut arguments = [0u8; 2000];
    let size = hexlines::decode(hexlines::word(line, 1), &mut sheet);
    let more = hexlines::decode(hexlines::word(line, 2), &mut arguments);
    rt.write_all(hexlines::word(line, 0))?;
    judge(rt, &sheet[..size], &arguments[..more])
}

fn each(rt: &impl Print, text: &[u8]) -> io::Result<()> {
    for line in text.split_inclusive(|byte| *byte == b'\n') {
        run(rt, line.strip_suffix(b"\n").unwrap_or(line))?;
    }
    Ok(())
}

fn main(rt: HostRuntime) -> io::Result<()> {
    let mut text = [0u8; 200000];
    let n = reading::read_full(&mut rt.stdin(), &mut text)?;
    each(&rt, &text[..n])
}
