// The functions with which the two programs read and print.
#![tactic(auto)]

ghost use Rattle.std.specs.Prelude.{◌≤◌, length, IfOk};

use std::io;
use std::io::Read;

// Reads until the buffer is full or the input ends, and returns how many bytes it put at the start of the buffer.
pub fn read_full<R: Read>(reader: &mut R, buffer: &mut [u8]) -> io::Result<usize>
    ensures { IfOk result (λ n. n ≤ length buffer.new) }
{
    let mut done = 0;
    // A `while`: each read fills as much as it can, not one byte.
    while done < buffer.len() {
        let got = reader.read(&mut buffer[done..])?;
        if got == 0 {
            break;
        }
        done += got;
    }
    Ok(done)
}

pub fn print_text(rt: &impl Print, text: &[u8]) -> io::Result<()> {
    rt.write_all(text)
}

// Prints a space and a number.
pub fn print_number(rt: &impl Print, n: usize) -> io::Result<()> {
    print!(rt; " {n}")
}

// Prints the line of a refusal: the number and the place.
pub fn print_refused(rt: &impl Print, number: usize, place: usize) -> io::Result<()> {
    print_text(rt, b"refused")?;
    print_number(rt, number)?;
    print_number(rt, place)?;
    print_text(rt, b"\n")
}

// Prints a line: the text, the bytes as numbers, each with a space before it, and a line feed.
pub fn print_bytes(rt: &impl Print, text: &[u8], bytes: &[u8]) -> io::Result<()> {
    print_text(rt, text)?;
    for byte in bytes {
        print_number(rt, usize::from(*byte))?;
    }
    print_text(rt, b"\n")
}
