// Comparing words, from the lowest digit up.
ghost use Rattle.std.specs.Prelude.{length};
ghost use Rattle.gate_words.specs.Writing.{Room, Wrote};
ghost use Rattle.gate_words.specs.Comparison.{first_digit, compare_words, differences, above};
ghost use Rattle.gate_words.specs.inner.Ready.{WordsReady};

use crate::writer::Writer;
use gates::kind;

impl Writer {
    // Compares two digits both ways, with one conditional gate.
    pub fn first_digit(self, table: &mut [u32], x: u32, y: u32) -> Writer
        requires { Room self 3 }
        ensures { Wrote self table.old (first_digit self.wire x y) table.new result }
    {
        let n = self.wire;
        let first = self.emit(table, kind::XOR, x, y, 0);
        let second = first.emit(table, kind::AND, x, n, 0);
        second.emit(table, kind::XOR, n, n + 1, 0)
    }

    // Compares one more digit both ways. The wires up and down have the results for the lower digits.
    fn compare_next(self, table: &mut [u32], x: u32, y: u32, up: u32, down: u32) -> Writer
        requires { Room self 3 }
        ensures { Wrote self table.old (compare_words self.wire x y up down 1) table.new result }
    {
        let n = self.wire;
        let first = self.emit(table, kind::XOR, x, y, 0);
        let second = first.emit(table, kind::CHOICE, n, x, up);
        second.emit(table, kind::CHOICE, n, y, down)
    }

    // Compares two words both ways. The wires up and down have the results for lower digits: whether x is above y,
    // and whether it is below.
    pub fn compare_words(
        self,
        table: &mut [u32],
        x: u32,
        y: u32,
        up: u32,
        down: u32,
        digits: u32,
    ) -> Writer
        requires { WordsReady self (length (compare_words self.wire x y up down digits)) x y digits }
        ensures { Wrote self table.old (compare_words self.wire x y up down digits) table.new result }
    {
        let mut w = self;
        let mut above = up;
        let mut below = down;
        for i in 0..digits {
            let n = w.wire;
            w = w.compare_next(table, x + i, y + i, above, below);
            above = n + 1;
            below = n + 2;
        }
        w
    }

    // In which digits the words at x and y differ.
    pub fn differences(self, table: &mut [u32], x: u32, y: u32, digits: u32) -> Writer
        requires { WordsReady self digits x y digits }
        ensures { Wrote self table.old (differences x y digits) table.new result }
    {
        self.rows(table, kind::XOR, x, 1, y, 1, digits)
    }

    // Whether the word at x is above another. The wires from `differ` on say in which digits the two differ, and
    // wire s has the result for lower digits.
    pub fn above(self, table: &mut [u32], differ: u32, x: u32, s: u32, digits: u32) -> Writer
        requires { WordsReady self digits differ x digits }
        ensures { Wrote self table.old (above self.wire differ x s digits) table.new result }
    {
        let mut w = self;
        let mut last = s;
        for i in 0..digits {
            let n = w.wire;
            w = w.emit(table, kind::CHOICE, differ + i, x + i, last);
            last = n;
        }
        w
    }
}
