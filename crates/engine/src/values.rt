// Texts, variables and arguments, added to the string in work where they stand.
ghost use Rattle.std.specs.Prelude.{◌≡◌, ◌+◌, ◌<◌, ◌≤◌, length, get_or};
ghost use Rattle.rules.specs.Words.{bytes_of};
ghost use Rattle.memory.specs.Layout.{part, value_at};
ghost use Rattle.engine.specs.Meaning.{argument_zero};
ghost use Rattle.engine.specs.Post.{Appends, Zero};
ghost use Rattle.engine.specs.Lending.{Ready, OfKind, StrRuled};

use crate::Lent;
use crate::ends::value;
use memory::place::{ARGUMENT_ZERO_BYTES, ARGUMENT_ZERO_PLACE};
use memory::{Source, Unit};
use sheet::reads::{mark, name_of, part, start};
use words::feed::{arguments, count, rest};
use words::places::{string_place, variables_place};
use words::scope::function;
use words::{FeedNumber, PaceNumber, ScopeNumber};

// Byte i of the m bytes of the sheet from `at` on, read in place.
fn text_byte<'a>(sheet: &'a [u8], work: &'a [u8], at: usize, m: usize, u: Unit, i: usize) -> u8
    requires { (at + m ≤ length sheet.now) × (i < m) }
    ensures { result ≡ get_or (part sheet.now at m) i 0 }
{
    let text = memory::lookup(sheet, work, Source::Text { at, size: m }, u);
    text[i]
}

// How long the value of the variable at slot is.
fn variable_size<'a>(sheet: &'a [u8], work: &'a [u8], slot: usize, u: Unit) -> usize
    requires { slot + 2 + u.bytes ≤ length work.now }
    ensures { (result ≡ length (bytes_of (value_at u.bytes work.now slot))) × (result < u.bytes) }
{
    let value = memory::lookup(sheet, work, Source::Variable { slot }, u);
    value.len()
}

// Adds the m bytes of the sheet from `at` on behind the first n of the string in work at a, as far as u bytes. They are added one by one: what
// `lookup` returns may be a part of work memory as well, so nothing is written while it is lent.
fn append_text(sheet: &[u8], work: &mut [u8], at: usize, m: usize, u: Unit, a: usize, n: usize)
    requires { (at + m ≤ length sheet.now) × (n ≤ u.bytes) × (2 ≤ a) × (a + u.bytes ≤ length work.old) }
    ensures { Appends u.bytes a n (part sheet.now at m) work.old work.new m }
{
    let end = m.min(u.bytes - n);
    for i in 0..end {
        let b = text_byte(sheet, work, at, m, u, i);
        work[a + n + i] = b;
    }
}

// A text keeps the flag.
pub fn text(
    lent: &Lent,
    work: &mut [u8],
    r: usize,
    scope: ScopeNumber,
    pace: PaceNumber,
    feed: FeedNumber,
    flag: bool,
    n: usize,
) -> usize
    requires ready { Ready lent.now work.old scope pace feed }
    requires of_kind { (OfKind lent.now work.old r 1) × (n ≤ lent.now.unit.bytes) }
    ensures { StrRuled lent.now work.old scope pace feed r flag n work.new result }
{
    let m = part(lent.sheet, work, r, 0);
    let at = start(work, r) + 4;
    let a = string_place(lent.unit, scope);
    append_text(lent.sheet, work, at, m, lent.unit, a, n);
    value(m, flag, pace, rest(feed))
}

// A variable: unset is empty.
pub fn variable(
    lent: &Lent,
    work: &mut [u8],
    r: usize,
    scope: ScopeNumber,
    pace: PaceNumber,
    feed: FeedNumber,
    flag: bool,
    n: usize,
) -> usize
    requires ready { Ready lent.now work.old scope pace feed }
    requires of_kind { (OfKind lent.now work.old r 2) × (n ≤ lent.now.unit.bytes) }
    ensures { StrRuled lent.now work.old scope pace feed r flag n work.new result }
{
    let x = mark(work, r);
    let u = lent.unit;
    let slot = variables_place(u, scope) + (u.bytes + 2) * x;
    let a = string_place(u, scope);
    let size = variable_size(lent.sheet, work, slot, u);
    memory::append_within(work, a, n, slot + 3, size, u.bytes);
    value(size, flag, pace, rest(feed))
}

// Argument 0: main's stands in work memory, a function's is its name.
fn argument_zero(lent: &Lent, work: &mut [u8], f: usize, a: usize, n: usize) -> usize
    requires { Zero lent.now.sheet.now work.old lent.now.unit.bytes f a n }
    ensures { Appends lent.now.unit.bytes a n (argument_zero lent.now.sheet.now work.old lent.now.unit.bytes f) work.old work.new result }
{
    if f == 0 {
        let m = memory::size(work, ARGUMENT_ZERO_PLACE, lent.unit.bytes);
        memory::append_within(work, a, n, ARGUMENT_ZERO_BYTES, m, lent.unit.bytes);
        return m;
    }
    let t = name_of(work, f);
    let m = part(lent.sheet, work, t, 0);
    let at = start(work, t) + 4;
    append_text(lent.sheet, work, at, m, lent.unit, a, n);
    m
}

// An argument, or nothing where there are fewer.
pub fn argument(
    lent: &Lent,
    work: &mut [u8],
    r: usize,
    scope: ScopeNumber,
    pace: PaceNumber,
    feed: FeedNumber,
    flag: bool,
    n: usize,
) -> usize
    requires ready { Ready lent.now work.old scope pace feed }
    requires of_kind { (OfKind lent.now work.old r 3) × (n ≤ lent.now.unit.bytes) }
    ensures { StrRuled lent.now work.old scope pace feed r flag n work.new result }
{
    let k = part(lent.sheet, work, r, 4);
    let u = lent.unit.bytes;
    let a = string_place(lent.unit, scope);
    if k == 0 {
        let size = argument_zero(lent, work, function(scope), a, n);
        return value(size, flag, pace, rest(feed));
    }
    if k > count(feed) {
        return value(0, flag, pace, rest(feed));
    }
    let from = arguments(feed) + u * (k - 1);
    let m = memory::size(work, from, u);
    memory::append_within(work, a, n, from + 1, m, u);
    value(m, flag, pace, rest(feed))
}
