// Decimal numbers, read from a text or put into one.
ghost use Rattle.std.specs.Prelude.{◌≡◌, ◌+◌, ◌≤◌, ◌<◌, length, drop};
ghost use Rattle.text_lines.specs.Decimal.{decimal, digits_in, number_in};
ghost use Rattle.text_lines.specs.inner.Found.{NumberRead};
ghost use Rattle.text_lines.specs.inner.Stored.{Stored};

const ZERO: u8 = 48;

// The largest number that a gate can hold.
const LARGEST: u64 = 4294967295;

// A number and the place after it.
#[derive(Clone, Copy)]
pub(crate) struct Found {
    pub value: u32,
    pub next: usize,
}

// Reads digits from place `at` on; `first` is the value of the digits before. It stops at the first value above the
// largest number, so nothing wraps, and the casts back need no `try_from`, which would have nothing to refuse.
fn digits(text: &[u8], at: usize, first: u32) -> Option<Found>
    requires { at ≤ length text.now }
    ensures { NumberRead text.now (digits_in first (drop at text.now)) result }
{
    let mut value = u64::from(first);
    for i in at..text.len() {
        let c = text[i];
        if !c.is_ascii_digit() {
            return Some(Found {
                value: value as u32,
                next: i,
            });
        }
        value = 10 * value + u64::from(c - ZERO);
        if LARGEST < value {
            return None;
        }
    }
    Some(Found {
        value: value as u32,
        next: text.len(),
    })
}

// The number that begins at a place of a text.
pub(crate) fn number(text: &[u8], at: usize) -> Option<Found>
    requires { at ≤ length text.now }
    ensures { NumberRead text.now (number_in (drop at text.now)) result }
{
    if text.len() <= at {
        return None;
    }
    let c = text[at];
    if !c.is_ascii_digit() {
        return None;
    }
    // No longer number begins with 0.
    let alone = c == ZERO;
    if alone {
        return Some(Found {
            value: 0,
            next: at + 1,
        });
    }
    digits(text, at + 1, u32::from(c - ZERO))
}

// How many digits a number has.
pub(crate) fn count(n: u32) -> usize
    ensures { result ≡ length (decimal n) }
{
    let number = u64::from(n);
    let mut more: usize = 0;
    let mut bound: u64 = 10;
    // A `while`: it goes from a power of ten to the next, up to the number.
    while bound <= number {
        bound *= 10;
        more += 1;
    }
    more + 1
}

// The character of a digit. The cast needs no `try_from`: the digit is below 10.
fn digit(d: u32) -> u8
    requires { d < 10 }
    ensures { result ≡ 48 + d }
{
    ZERO + d as u8
}

// Puts a number into a text, from its last digit to its first, and answers the place after it.
pub(crate) fn put(n: u32, at: usize, output: &mut [u8]) -> usize
    requires { at + length (decimal n) ≤ length output.old }
    ensures { Stored output.old at (decimal n) output.new result }
{
    let end = at + count(n);
    let mut rest = n;
    let mut i = end - 1;
    // A `while`: the digits come from divisions, the last digit first.
    while 10 <= rest {
        output[i] = digit(rest % 10);
        rest /= 10;
        i -= 1;
    }
    output[i] = digit(rest);
    end
}
