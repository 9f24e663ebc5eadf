// Choosing and masking words, and chains of gates.
ghost use Rattle.std.specs.Prelude.{◌≡◌, ◌+◌, ◌<◌};
ghost use Rattle.gate_words.specs.Limits.{writer_limit};
ghost use Rattle.gate_words.specs.Writing.{Wrote};
ghost use Rattle.gate_words.specs.Choice.{choose, masked, chain_of};
ghost use Rattle.gate_words.specs.Choice.{chain_end, any_of, all_of, parity};
ghost use Rattle.gate_words.specs.inner.Ready.{WordReady, WordsReady, WiresReady, ChainReady};

use crate::writer::Writer;
use gates::kind;

// The last wire of a chain of `count` gates from wire n on; if there is no gate, it is s.
pub fn chain_end(n: u32, s: u32, count: u32) -> u32
    requires { n + count < writer_limit }
    ensures { result ≡ chain_end n s count }
{
    if count == 0 { s } else { n + count - 1 }
}

impl Writer {
    // The word at x if wire f is 1, else the word at y.
    pub fn choose(self, table: &mut [u32], f: u32, x: u32, y: u32, digits: u32) -> Writer
        requires { WordsReady self digits x y digits }
        ensures { Wrote self table.old (choose f x y digits) table.new result }
    {
        let mut w = self;
        for i in 0..digits {
            w = w.emit(table, kind::CHOICE, f, x + i, y + i);
        }
        w
    }

    // The word at x if wire f is 1, else 0.
    pub fn masked(self, table: &mut [u32], f: u32, x: u32, digits: u32) -> Writer
        requires { WordReady self digits x digits }
        ensures { Wrote self table.old (masked f x digits) table.new result }
    {
        let mut w = self;
        for i in 0..digits {
            w = w.emit(table, kind::AND, f, x + i, 0);
        }
        w
    }

    // A chain of gates whose kind has two operands: joins wire s and `count` wires from `first` on, a stride apart.
    fn chain(
        self,
        table: &mut [u32],
        kind: u32,
        s: u32,
        first: u32,
        stride: u32,
        count: u32,
    ) -> Writer
        requires { ChainReady self kind first stride count }
        ensures { Wrote self table.old (chain_of kind self.wire s first stride count) table.new result }
    {
        let mut w = self;
        let mut last = s;
        let mut at = first;
        for _ in 0..count {
            let n = w.wire;
            w = w.emit(table, kind, last, at, 0);
            last = n;
            at += stride;
        }
        w
    }

    // Whether wire s or one of `count` wires from `first` on, a stride apart, is 1.
    pub fn any_of(self, table: &mut [u32], s: u32, first: u32, stride: u32, count: u32) -> Writer
        requires { WiresReady self count first stride count }
        ensures { Wrote self table.old (any_of self.wire s first stride count) table.new result }
    {
        self.chain(table, kind::OR, s, first, stride, count)
    }

    // Whether wire s and all of `count` wires from `first` on, a stride apart, are 1.
    pub fn all_of(self, table: &mut [u32], s: u32, first: u32, stride: u32, count: u32) -> Writer
        requires { WiresReady self count first stride count }
        ensures { Wrote self table.old (all_of self.wire s first stride count) table.new result }
    {
        self.chain(table, kind::AND, s, first, stride, count)
    }

    // The sum modulo 2 of wire s and `count` wires from `first` on, a stride apart.
    pub fn parity(self, table: &mut [u32], s: u32, first: u32, stride: u32, count: u32) -> Writer
        requires { WiresReady self count first stride count }
        ensures { Wrote self table.old (parity self.wire s first stride count) table.new result }
    {
        self.chain(table, kind::XOR, s, first, stride, count)
    }
}
