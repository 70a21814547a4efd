// The operations on work memory, run on 65,536 bytes at string limit 63: each line printed is judged by hand in stdout.
#![tactic(auto)]

ghost use Rattle.std.specs.Prelude.{◌+◌, ◌<◌, ◌≤◌, length, IfSome};

use memory::{Source, Unit};
use std::io;

// What a string takes at limit 63.
const UNIT: Unit = Unit { bytes: 64 };

fn main(rt: HostRuntime) -> io::Result<()> {
    let mut work = [0u8; 65536];
    variables(&rt, &mut work)?;
    lists(&rt, &mut work)?;
    streams(&rt, &mut work)?;
    strings(&rt, &mut work)?;
    counters(&rt, &mut work)?;
    edges(&rt, &mut work)?;
    cleared(&rt, &mut work)
}

// PRINTING

fn say(rt: &impl Print, s: &[u8]) -> io::Result<()> {
    rt.write_all(s)
}

fn say_number(rt: &impl Print, n: usize) -> io::Result<()> {
    println!(rt; "{n}")
}

fn say_part(rt: &impl Print, work: &[u8], a: usize, n: usize) -> io::Result<()>
    requires { a + n ≤ length work.now }
{
    let e = a + n;
    say(rt, &work[a..e])
}

fn say_stream(rt: &impl Print, work: &[u8; 65536], k: usize, r: Option<usize>) -> io::Result<()>
    requires { k ≤ 10 }
{
    match r {
        Some(n) => {
            if n <= 1024 {
                say_part(rt, work, memory::stream_place(UNIT, k), n)?;
            }
            Ok(())
        }
        None => say(rt, STREAM_FULL),
    }
}

// a number, or what none means
fn say_count(rt: &impl Print, r: Option<usize>, none: &[u8]) -> io::Result<()> {
    match r {
        Some(n) => say_number(rt, n),
        None => say(rt, none),
    }
}

const STREAM_FULL: &[u8] = b"stream above 1024\n";

const LIST_FULL: &[u8] = b"list above 16\n";

// VARIABLES: set, marked, copied upward, read in place

// the string in work of hold level 0, if s is not too long for it
fn string(work: &mut [u8; 65536], s: &[u8]) -> Option<usize>
    ensures { IfSome result (λ n. n ≤ 63) }
{
    let n = s.len();
    if n > 63 {
        return None;
    }
    memory::copy_in(work, memory::string_place(UNIT, 0), s);
    Some(n)
}

fn set(work: &mut [u8; 65536], level: usize, x: usize, s: &[u8])
    requires { (level ≤ 10) × (x < 16) }
{
    if let Some(n) = string(work, s) {
        memory::assign(
            work,
            memory::variables_place(UNIT, level),
            x,
            memory::string_place(UNIT, 0),
            n,
            UNIT,
        );
    }
}

fn say_variable(rt: &impl Print, work: &[u8; 65536], level: usize, x: usize) -> io::Result<()>
    requires { (level ≤ 10) × (x < 16) }
{
    let slot = memory::variables_place(UNIT, level) + 66 * x;
    say(
        rt,
        memory::lookup(b"", work, Source::Variable { slot }, UNIT),
    )?;
    say(rt, b"\n")
}

fn say_env(rt: &impl Print, work: &mut [u8; 65536], level: usize) -> io::Result<()>
    requires { level ≤ 10 }
{
    let r = memory::env(
        work,
        memory::stream_place(UNIT, 0),
        0,
        memory::variables_place(UNIT, level),
        3,
        UNIT,
    );
    say_stream(rt, work, 0, r)
}

fn variables(rt: &impl Print, work: &mut [u8; 65536]) -> io::Result<()> {
    memory::text_in(work, 0, b"x");
    memory::text_in(work, 64, b"y");
    memory::text_in(work, 128, b"zed");
    memory::mark(work, memory::variables_place(UNIT, 0), 0, UNIT);
    set(work, 0, 0, b"hello");
    set(work, 0, 1, b"hidden");
    memory::mark(work, memory::variables_place(UNIT, 0), 2, UNIT);
    memory::raise(work, memory::variables_place(UNIT, 0), UNIT);
    set(work, 1, 0, b"world!");
    set(work, 1, 2, b"");
    say_variable(rt, work, 0, 0)?;
    say_variable(rt, work, 1, 0)?;
    say_variable(rt, work, 1, 1)?;
    say_env(rt, work, 0)?;
    say_env(rt, work, 1)
}

// LISTS: fields, stretches, echo, test

fn add(work: &mut [u8; 65536], m: usize, s: &[u8]) -> Option<usize>
    requires { m ≤ 16 }
{
    let n = string(work, s)?;
    memory::field(
        work,
        memory::list_place(UNIT, 1),
        m,
        memory::string_place(UNIT, 0),
        n,
        UNIT,
    )
}

fn add_split(work: &mut [u8; 65536], m: usize, s: &[u8]) -> Option<usize>
    requires { m ≤ 16 }
{
    let n = string(work, s)?;
    let a = memory::string_place(UNIT, 0);
    memory::split(work, memory::list_place(UNIT, 1), m, a, a + n, UNIT)
}

fn say_echo(rt: &impl Print, work: &mut [u8; 65536], k: usize, m: usize) -> io::Result<()>
    requires { (k ≤ 10) × (m ≤ 16) }
{
    let r = memory::echo(
        work,
        memory::stream_place(UNIT, k),
        0,
        memory::list_place(UNIT, 1),
        m,
        UNIT,
    );
    say_stream(rt, work, k, r)
}

fn say_test(rt: &impl Print, work: &[u8; 65536], m: usize) -> io::Result<()> {
    if memory::test(work, memory::list_place(UNIT, 1), m, UNIT) {
        say(rt, b"true\n")
    } else {
        say(rt, b"false\n")
    }
}

fn lists(rt: &impl Print, work: &mut [u8; 65536]) -> io::Result<()> {
    say_count(rt, add(work, 0, b"a b"), LIST_FULL)?;
    say_count(rt, add_split(work, 1, b" one  two\tthree\n"), LIST_FULL)?;
    say_echo(rt, work, 1, 4)?;
    say_echo(rt, work, 1, 0)?;
    say_count(rt, add(work, 15, b"the sixteenth"), LIST_FULL)?;
    say_count(rt, add(work, 16, b"the seventeenth"), LIST_FULL)?;
    say_count(rt, add_split(work, 14, b"a b"), LIST_FULL)?;
    say_count(rt, add_split(work, 14, b"a b c"), LIST_FULL)?;
    say_count(rt, add_split(work, 16, b" \t\n"), LIST_FULL)?;
    add(work, 0, b"-n");
    add(work, 1, b"");
    say_test(rt, work, 2)?;
    add(work, 1, b"=");
    say_test(rt, work, 2)?;
    add(work, 2, b"-n");
    say_test(rt, work, 3)
}

// STREAMS: 1,024 bytes pass, one more does not

// m bytes of the string in work behind n of stream 2
fn pass(work: &mut [u8; 65536], n: usize, m: usize) -> Option<usize>
    requires { (n ≤ 1024) × (m ≤ 64) }
{
    memory::stream_within(
        work,
        memory::stream_place(UNIT, 2),
        n,
        memory::string_place(UNIT, 0),
        m,
    )
}

// an input of 1,024 bytes from i on, behind n of stream 2
fn say_input(rt: &impl Print, work: &mut [u8; 65536], n: usize, i: usize) -> io::Result<()>
    requires { (n ≤ 1024) × (i ≤ 1024) }
{
    let input = [42u8; 1024];
    let r = memory::stream_in(work, memory::stream_place(UNIT, 2), n, &input[i..]);
    say_count(rt, r, STREAM_FULL)
}

fn streams(rt: &impl Print, work: &mut [u8; 65536]) -> io::Result<()> {
    let o = memory::stream_place(UNIT, 2);
    let r = memory::stream_in(work, o, 0, b"copied\n");
    say_stream(rt, work, 2, r)?;
    let r = memory::echo(work, o, 1024, memory::list_place(UNIT, 1), 0, UNIT);
    say_count(rt, r, STREAM_FULL)?;
    say_input(rt, work, 0, 0)?;
    say_input(rt, work, 1, 0)?;
    say_input(rt, work, 1, 1)?;
    say_count(rt, pass(work, 1000, 24), STREAM_FULL)?;
    say_count(rt, pass(work, 1000, 25), STREAM_FULL)
}

// STRINGS: 63 bytes pass, more show as 64

// m bytes of the string of hold level 0 behind n of that of hold level 3
fn join(work: &mut [u8; 65536], n: usize, m: usize) -> usize
    requires { (n ≤ 64) × (m ≤ 64) }
    ensures { result ≤ 64 }
{
    memory::append_within(
        work,
        memory::string_place(UNIT, 3),
        n,
        memory::string_place(UNIT, 0),
        m,
        64,
    )
}

fn strings(rt: &impl Print, work: &mut [u8; 65536]) -> io::Result<()> {
    let n = join(work, 0, 32);
    say_number(rt, n)?;
    say_number(rt, join(work, n, 31))?;
    say_number(rt, join(work, n, 32))?;
    say_number(rt, join(work, n, 50))
}

// COUNTERS: a call within a call of the same function

fn counters(rt: &impl Print, work: &mut [u8; 65536]) -> io::Result<()> {
    let outer = memory::begin_call(work, 1);
    memory::charge(work, 1);
    let inner = memory::begin_call(work, 1);
    memory::charge(work, 1);
    memory::charge(work, 1);
    memory::end_call(work, 1, inner, 2);
    memory::end_call(work, 1, outer, 3);
    say_number(rt, memory::number(work, 4112))?;
    say_number(rt, memory::number(work, 4116))?;
    say_number(rt, memory::number(work, 4120))?;
    memory::add(work, 4128, 4294967295);
    memory::add(work, 4128, 3);
    say_number(rt, memory::number(work, 4128))
}

// EDGES: a call over an edge within another one over the same, which alone counts; and the last pair there is

fn edges(rt: &impl Print, work: &mut [u8; 65536]) -> io::Result<()> {
    let outer = memory::begin_edge(work, 1, 1);
    let inner = memory::begin_edge(work, 1, 1);
    memory::end_edge(work, 1, 1, inner, 9);
    memory::end_edge(work, 1, 1, outer, 20);
    say_number(rt, memory::number(work, 5408))?;
    say_number(rt, memory::number(work, 5412))?;
    let last = memory::begin_edge(work, 32, 32);
    memory::end_edge(work, 32, 32, last, 7);
    say_number(rt, memory::number(work, 14615))?;
    say_number(rt, memory::number(work, 14619))
}

// CLEARED

fn cleared(rt: &impl Print, work: &mut [u8; 65536]) -> io::Result<()> {
    memory::clear(work);
    let zero = [0u8; 65536];
    if *work == zero {
        say(rt, b"cleared\n")
    } else {
        say(rt, b"not cleared\n")
    }
}
