// The list writer [forms]: a value that says where the next gate goes. Each writing step takes one and returns the
// next. It does not hold the table, which each step is lent: then a step's clause is about plain values, and a writer
// is copied to remember a place.
ghost use Rattle.std.specs.Prelude.{◌≡◌, cond, ltb, ◌+◌, ◌*◌, ◌<◌, length, ◌∷◌, []};
ghost use Rattle.std.proofs.lemmas.List.Edits.{sets};
ghost use Rattle.gate_words.specs.Limits.{writer_limit};
ghost use Rattle.gate_words.specs.Writing.{Room, Wrote};
ghost use Rattle.gate_words.specs.Emitted.{emitted};

use gates::kind;

// The number of gates written so far, the wire of the next gate, and how many of the written gates are conditional.
#[derive(Clone, Copy)]
pub struct Writer {
    pub gate: usize,
    pub wire: u32,
    pub conditional: usize,
}

// Operand i of a gate that uses `count` operands: the wire, or 0 if it is not used.
fn operand(i: u32, count: u32, wire: u32) -> u32
    ensures { result ≡ cond (ltb i count) wire 0 }
{
    if i < count { wire } else { 0 }
}

// Stores the four numbers of a gate if the table has room for them. One by one: `copy_from_slice` from an array was
// measured to make each gate nearly twice as slow to write.
fn store(table: &mut [u32], at: usize, kind: u32, a: u32, b: u32, c: u32)
    requires { at < 4 * writer_limit }
    ensures { table.new
        ≡ cond (ltb (at + 3) (length table.old)) (sets table.old at (kind ∷ a ∷ b ∷ c ∷ []))
        table.old }
{
    if at + 3 < table.len() {
        table[at] = kind;
        table[at + 1] = a;
        table[at + 2] = b;
        table[at + 3] = c;
    }
}

impl Writer {
    // Before the first gate of a list with `inputs` inputs.
    pub fn new(inputs: u32) -> Writer
        ensures { result ≡ record { gate = 0; wire = inputs; conditional = 0 } }
    {
        Writer {
            gate: 0,
            wire: inputs,
            conditional: 0,
        }
    }

    // Writes one gate if the table has room for it. Counts it even if not, so that writing into an empty table
    // measures a list. Operands that the kind does not use are written as 0.
    pub fn emit(self, table: &mut [u32], kind: u32, a: u32, b: u32, c: u32) -> Writer
        requires { Room self 1 }
        ensures { Wrote self table.old (emitted kind a b c ∷ []) table.new result }
    {
        let counts = kind::OPERANDS;
        let marks = kind::CONDITIONAL;
        let count = kind::operands(&counts, kind);
        store(
            table,
            4 * self.gate,
            kind,
            operand(0, count, a),
            operand(1, count, b),
            operand(2, count, c),
        );
        Writer {
            gate: self.gate + 1,
            wire: self.wire + 1,
            conditional: self.conditional + kind::mark(&marks, kind),
        }
    }
}
