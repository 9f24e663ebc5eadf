// Rows of gates side by side, and rows of bits added modulo 2, without carries.
ghost use Rattle.gate_words.specs.Writing.{Wrote};
ghost use Rattle.gate_words.specs.Rows.{rows_of, xor_rows};
ghost use Rattle.gate_words.specs.inner.Ready.{KindReady, RowsReady};

use crate::writer::Writer;
use gates::kind;

impl Writer {
    // Gates whose kind has two operands, side by side: each joins a wire of one row to the wire at the same place of
    // another. The `count` wires of one row are dx apart, those of the other dy.
    pub(crate) fn rows(
        self,
        table: &mut [u32],
        kind: u32,
        x: u32,
        dx: u32,
        y: u32,
        dy: u32,
        count: u32,
    ) -> Writer
        requires { KindReady self kind x dx y dy count }
        ensures { Wrote self table.old (rows_of kind x dx y dy count) table.new result }
    {
        let mut w = self;
        let mut first = x;
        let mut second = y;
        for _ in 0..count {
            w = w.emit(table, kind, first, second, 0);
            first += dx;
            second += dy;
        }
        w
    }

    // The sums modulo 2 of two rows of `count` wires. The wires of one row are dx apart, those of the other dy.
    pub fn xor_rows(self, table: &mut [u32], x: u32, dx: u32, y: u32, dy: u32, count: u32) -> Writer
        requires { RowsReady self x dx y dy count }
        ensures { Wrote self table.old (xor_rows x dx y dy count) table.new result }
    {
        self.rows(table, kind::XOR, x, dx, y, dy, count)
    }
}
