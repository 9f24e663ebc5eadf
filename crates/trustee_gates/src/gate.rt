// One gate: what all trustees publish for it, and their parts of its wire.
ghost use Rattle.std.specs.Prelude.{◌≡◌, ◌∷◌, []};
ghost use Rattle.trustee_shares.specs.Shares.{second_factor, masked_first, masked_second, product_part, part_of_kind, part};
ghost use Rattle.trustee_shares.specs.Views.{piece};
ghost use Rattle.trustee_gates.specs.inner.Tables.{each_puts};
ghost use Rattle.trustee_gates.specs.inner.Gate.{InWires, InTriples, PublishReady, ProductReady, FreeReady, GateReady};
ghost use Rattle.trustee_gates.specs.inner.Gate.{FactorReady, Published, GateRan};
ghost use Rattle.gates.specs.inner.Marked.{Marked};

use crate::{bits, table};
use gates::gate::Gate;
use gates::kind;
use gates::kind::ConditionalMarks;

// How many entries of each table belong to one trustee.
#[derive(Clone, Copy)]
pub struct Pieces {
    pub wires: usize,
    pub triples: usize,
    pub published: usize,
}

// The opened sums of both masked factors.
#[derive(Clone, Copy)]
pub struct Opened {
    pub first: u8,
    pub second: u8,
}

// Trustee p's bit of the second factor.
fn second_factor(size: usize, gate: Gate, p: usize, wires: &[u8]) -> u8
    requires { InWires size gate p wires.now }
    ensures { result ≡ second_factor (piece size wires.now p) gate }
{
    let b = table::entry(wires, size, p, gate.b as usize);
    if gate.kind == kind::CHOICE {
        return bits::plus(b, table::entry(wires, size, p, gate.c as usize));
    }
    b
}

// Trustee p's bit of the first factor, masked.
pub fn masked_first(
    pieces: Pieces,
    gate: Gate,
    i: usize,
    p: usize,
    triples: &[u8],
    wires: &[u8],
) -> u8
    requires { FactorReady pieces gate i p triples.now wires.now }
    ensures { result ≡ masked_first (piece pieces.wires wires.now p)
        (piece pieces.triples triples.now p) i gate }
{
    let a = table::entry(wires, pieces.wires, p, gate.a as usize);
    bits::plus(a, table::entry(triples, pieces.triples, p, 3 * i))
}

// Trustee p's bit of the second factor, masked.
pub fn masked_second(
    pieces: Pieces,
    gate: Gate,
    i: usize,
    p: usize,
    triples: &[u8],
    wires: &[u8],
) -> u8
    requires { FactorReady pieces gate i p triples.now wires.now }
    ensures { result ≡ masked_second (piece pieces.wires wires.now p)
        (piece pieces.triples triples.now p) i gate }
{
    let factor = second_factor(pieces.wires, gate, p, wires);
    bits::plus(factor, table::entry(triples, pieces.triples, p, 3 * i + 1))
}

// Each trustee publishes its masked bits of both factors. Their sums are the answer.
fn publish(
    t: usize,
    pieces: Pieces,
    gate: Gate,
    i: usize,
    triples: &[u8],
    wires: &[u8],
    published: &mut [u8],
) -> Opened
    requires { PublishReady t pieces gate i triples.now wires.now published.old }
    ensures { Published t pieces gate i triples.now wires.now published.old result
        published.new }
{
    let size = pieces.published;
    let mut first = 0;
    let mut second = 0;
    for p in 0..t {
        let x = masked_first(pieces, gate, i, p, triples, wires);
        let y = masked_second(pieces, gate, i, p, triples, wires);
        let at = p * size + 2 * i;
        published[at] = x;
        published[at + 1] = y;
        first = bits::plus(first, x);
        second = bits::plus(second, y);
    }
    Opened { first, second }
}

// Trustee p's bit of the product of both factors.
fn product_part(size: usize, i: usize, p: usize, opened: Opened, triples: &[u8]) -> u8
    requires { InTriples size i p triples.now }
    ensures { result ≡ product_part p (piece size triples.now p) i opened.first opened.second }
{
    let u = table::entry(triples, size, p, 3 * i);
    let v = table::entry(triples, size, p, 3 * i + 1);
    let product = table::entry(triples, size, p, 3 * i + 2);
    bits::product_bit(p, u, v, product, opened.first, opened.second)
}

// Trustee p's part of a gate's wire, from its bit z of the product.
fn new_part(size: usize, gate: Gate, p: usize, z: u8, wires: &[u8]) -> u8
    requires { InWires size gate p wires.now }
    ensures { result ≡ part_of_kind p gate.kind (part (piece size wires.now p) gate.a)
        (part (piece size wires.now p) gate.b) (part (piece size wires.now p) gate.c) z }
{
    let a = table::entry(wires, size, p, gate.a as usize);
    let b = table::entry(wires, size, p, gate.b as usize);
    let c = table::entry(wires, size, p, gate.c as usize);
    bits::part_of_kind(p, gate.kind, a, b, c, z)
}

// Stores each trustee's part of a conditional gate's wire.
fn enter_products(
    t: usize,
    pieces: Pieces,
    gate: Gate,
    own: usize,
    i: usize,
    opened: Opened,
    triples: &[u8],
    wires: &mut [u8],
)
    requires { ProductReady t pieces gate own i triples.now wires.old }
    ensures { wires.new ≡ each_puts t pieces.wires own
        (λ p. part_of_kind p gate.kind (part (piece pieces.wires wires.old p) gate.a)
        (part (piece pieces.wires wires.old p) gate.b)
        (part (piece pieces.wires wires.old p) gate.c)
        (product_part p (piece pieces.triples triples.now p) i opened.first opened.second)
        ∷ []) wires.old }
{
    let size = pieces.wires;
    for p in 0..t {
        let z = product_part(pieces.triples, i, p, opened, triples);
        wires[p * size + own] = new_part(size, gate, p, z, wires);
    }
}

// Stores each trustee's part of a free gate's wire, which needs no product.
fn enter_free(t: usize, size: usize, gate: Gate, own: usize, wires: &mut [u8])
    requires { FreeReady t size gate own wires.old }
    ensures { wires.new ≡ each_puts t size own (λ p. part_of_kind p gate.kind
        (part (piece size wires.old p) gate.a) (part (piece size wires.old p) gate.b)
        (part (piece size wires.old p) gate.c) 0 ∷ []) wires.old }
{
    for p in 0..t {
        wires[p * size + own] = new_part(size, gate, p, 0, wires);
    }
}

// Runs one gate, before which i conditional gates were run. Answers how many were run after it.
pub(crate) fn run_gate(
    marks: &ConditionalMarks,
    t: usize,
    pieces: Pieces,
    gate: Gate,
    own: usize,
    i: usize,
    triples: &[u8],
    wires: &mut [u8],
    published: &mut [u8],
) -> usize
    requires { Marked marks.now (GateReady t pieces gate own i triples.now wires.old published.old) }
    ensures { GateRan t pieces gate own i triples.now wires.old published.old result
        wires.new published.new }
{
    if kind::conditional(marks, gate.kind) {
        let opened = publish(t, pieces, gate, i, triples, wires, published);
        enter_products(t, pieces, gate, own, i, opened, triples, wires);
        return i + 1;
    }
    enter_free(t, pieces.wires, gate, own, wires);
    i
}
