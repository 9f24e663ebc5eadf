// The eight kinds of gates and their table. Operand counts and conditional marks are read from here and nowhere else.
ghost use Rattle.std.specs.Prelude.{◌≡◌, cond};
ghost use Rattle.gates.specs.Kind.{operand_counts, operands_of, conditional_marks, conditional_of, value_of, applied};

pub const ZERO: u32 = 0;

pub const ONE: u32 = 1;

pub const COPY: u32 = 2;

pub const NOT: u32 = 3;

pub const AND: u32 = 4;

pub const OR: u32 = 5;

pub const XOR: u32 = 6;

pub const CHOICE: u32 = 7;

// How many kinds there are: 0 to 7. They are numbers and no enum, because a lent table may hold any number, which the
// test of a list then refuses.
pub const KINDS: u32 = 8;

// A column of the table of kinds: operand counts.
pub type OperandCounts = [u32; KINDS as usize];

// A column of the table of kinds: conditional marks.
pub type ConditionalMarks = [bool; KINDS as usize];

// The number of operands of each kind.
pub const OPERANDS: OperandCounts = [0, 0, 1, 1, 2, 2, 2, 3];

// The conditional mark of each kind.
pub const CONDITIONAL: ConditionalMarks = [false, false, false, false, true, true, false, true];

// The number of operands that a kind uses. The caller lends `OPERANDS`, so that a loop builds this array only once.
pub fn operands(counts: &OperandCounts, kind: u32) -> u32
    requires { counts.now ≡ operand_counts }
    ensures { result ≡ operands_of kind }
{
    counts.get(kind as usize).copied().unwrap_or(0)
}

// Whether a kind is conditional: its gate then shows wire a under a mask.
pub fn conditional(marks: &ConditionalMarks, kind: u32) -> bool
    requires { marks.now ≡ conditional_marks }
    ensures { result ≡ conditional_of kind }
{
    marks.get(kind as usize).copied().unwrap_or(false)
}

// What a gate of a kind adds to C: 1 if the kind is conditional, else 0.
pub fn mark(marks: &ConditionalMarks, kind: u32) -> usize
    requires { marks.now ≡ conditional_marks }
    ensures { result ≡ cond (conditional_of kind) 1 0 }
{
    usize::from(conditional(marks, kind))
}

// The value of a gate from the values of its operands, `None` for a kind above 7. The only match on a kind in this
// crate.
pub fn apply(kind: u32, a: u8, b: u8, c: u8) -> Option<u8>
    ensures { result ≡ applied kind a b c }
{
    match kind {
        0 => Some(0),
        1 => Some(1),
        2 => Some(a),
        3 => Some(u8::from(a == 0)),
        4 => Some(a.min(b)),
        5 => Some(a.max(b)),
        6 => Some(u8::from(a != b)),
        7 => Some(if a == 0 { c } else { b }),
        8..=4294967295 => None,
    }
}

// The value of a gate, 0 if its kind is unknown.
pub(crate) fn value(kind: u32, a: u8, b: u8, c: u8) -> u8
    ensures { result ≡ value_of kind a b c }
{
    apply(kind, a, b, c).unwrap_or(0)
}
