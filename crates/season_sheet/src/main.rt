// Prints the season sheet of the runs on standard input.
#![tactic(auto)]

use jury::reason::Numbered;
use season::sheet::Totals;
use std::io;

fn print_line(rt: &impl Print, word: &[u8], number: usize) -> io::Result<()> {
    printing::print_text(rt, word)?;
    printing::print_number(rt, number)?;
    printing::print_text(rt, b"\n")
}

fn print_totals(rt: &impl Print, totals: Totals) -> io::Result<()> {
    print_line(rt, b"runs", totals.runs)?;
    print_line(rt, b"gates", totals.gates)?;
    print_line(rt, b"conditional", totals.conditional)?;
    print_line(rt, b"ballots", totals.ballots)?;
    print_line(rt, b"shared", totals.shared)
}

// Keeps one byte more than a sheet may have, so that a longer input is refused and not cut.
fn main(rt: HostRuntime) -> io::Result<()> {
    let mut input = [0u8; 49153];
    let got = printing::read_full(&mut rt.stdin(), &mut input)?;
    match season::sheet::sheet(&input[..got]) {
        Ok(totals) => print_totals(&rt, totals),
        Err(reason) => printing::print_refused(&rt, reason.number(), reason.place()),
    }
}
