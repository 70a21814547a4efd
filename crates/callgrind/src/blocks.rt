// The blocks of main and the functions, from the figures in the work memory.
ghost use Rattle.std.specs.Prelude.{suc, ◌+◌, ◌*◌, ◌<◌, ◌≤◌, length};
ghost use Rattle.rules.specs.Graph.{edge_if, edges_from, blocks_from};
ghost use Rattle.memory.specs.Layout.{counters_end};
ghost use Rattle.text.specs.Put.{Fitted};
ghost use Rattle.callgrind.specs.File.{edges_lines, block_lines, blocks_lines, ended};
ghost use Rattle.callgrind.specs.Ended.{figures_in, block_in};

use memory::number;
use memory::place::{CALLEES, COUNTER_BYTES, COUNTERS_PLACE, EDGE_BYTES, EDGES_PLACE};
use text::page::Page;

// A work memory with the counters and edges of main and so many functions.
#[derive(Clone, Copy)]
pub struct Counted<'a> {
    pub work: &'a [u8],
    pub functions: usize,
    pub ghost room: { (counters_end ≤ length work.now) × (functions ≤ 32) },
}

impl<'a> Counted<'a> {
    // The edge from a to b, if it was met.
    fn edge(&self, page: &mut Page, a: usize, b: usize)
        requires { (page.old.at + 49 ≤ length page.old.bytes.now) × (a ≤ 32) × (0 < b) × (b ≤ 32) }
        ensures { Fitted 49 (ended (edges_lines (edge_if (figures_in self.now.work.now) a b))) page.old page.new }
    {
        let place = EDGES_PLACE + EDGE_BYTES * (CALLEES * a + b - 1);
        let calls = number(self.work, place);
        if calls == 0 {
            return;
        }
        page.between(b"cfn=(", b + 1, b")\n");
        page.between(b"calls=", calls, b" 0\n");
        page.between(b"0 ", number(self.work, place + 4), b"\n");
    }

    // The edges from a, in the order of the callees.
    fn edges(&self, page: &mut Page, a: usize)
        requires { (page.old.at + 1568 ≤ length page.old.bytes.now) × (a ≤ 32) }
        ensures { Fitted 1568 (ended (edges_lines (edges_from (figures_in self.now.work.now) a 1 self.now.functions))) page.old page.new }
    {
        for b in 0..self.functions {
            self.edge(page, a, b + 1);
        }
    }

    // The block of function f.
    fn block(&self, page: &mut Page, f: usize)
        requires { (page.old.at + 1598 ≤ length page.old.bytes.now) × (f ≤ self.now.functions) }
        ensures { Fitted 1598 (ended (block_lines (f + 1) (block_in self.now.work.now self.now.functions f))) page.old page.new }
    {
        page.between(b"\nfn=(", f + 1, b")\n");
        let own = number(self.work, COUNTERS_PLACE + COUNTER_BYTES * f + 4);
        page.between(b"0 ", own, b"\n");
        self.edges(page, f);
    }

    // The blocks of main and all functions.
    pub fn blocks(&self, page: &mut Page)
        requires { page.old.at + 52734 ≤ length page.old.bytes.now }
        ensures { Fitted 52734 (ended (blocks_lines 1 (blocks_from (figures_in self.now.work.now) self.now.functions 0 (suc self.now.functions)))) page.old page.new }
    {
        for f in 0..self.functions + 1 {
            self.block(page, f);
        }
    }
}
