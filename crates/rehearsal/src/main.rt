// Rehearses one jury: reads its shape and its ballots from standard input and prints who wins.
#![tactic(auto)]

mod rehearse;

ghost use Rattle.rehearsal.specs.inner.Buffers.{Zeros, ZeroTape};

use jury::reason::Numbered;
use jury::shape::Shape;
use std::io;

fn print_jury(rt: &impl Print, shape: Shape) -> io::Result<()> {
    printing::print_text(rt, b"jury")?;
    printing::print_number(rt, shape.candidates)?;
    printing::print_number(rt, shape.grades)?;
    printing::print_number(rt, shape.ballots)?;
    printing::print_text(rt, b"\n")
}

fn table() -> [u32; 16000]
    ensures { Zeros 16000 result }
{
    [0u32; 16000]
}

// One tape byte for each gate: the table holds 4,000, and each may be conditional.
fn tape() -> [u8; 4000]
    ensures { ZeroTape 4000 result }
{
    [0u8; 4000]
}

// 4,000 gates, and the 16,320 ballot bytes of eight ranked candidates and 255 ballots.
fn wires() -> [u8; 20320]
    ensures { Zeros 20320 result }
{
    [0u8; 20320]
}

fn board() -> [u8; 4008]
    ensures { Zeros 4008 result }
{
    [0u8; 4008]
}

fn main(rt: HostRuntime) -> io::Result<()> {
    let mut input = [0u8; 16384];
    let mut table = table();
    let tape = tape();
    let mut wires = wires();
    let mut board = board();
    let got = printing::read_full(&mut rt.stdin(), &mut input)?;
    match rehearse::rehearse(&input[..got], &mut table, &tape, &mut wires, &mut board) {
        Ok(winners) => {
            print_jury(&rt, winners.shape)?;
            let end = winners.first + winners.shape.candidates;
            printing::print_bytes(&rt, b"winners", &board[winners.first..end])
        }
        Err(reason) => printing::print_refused(&rt, reason.number(), reason.place()),
    }
}
