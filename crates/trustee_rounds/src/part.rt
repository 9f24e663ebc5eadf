// A trustee's part of one gate's wire, and what it publishes for one gate.
ghost use Rattle.std.specs.Prelude.{◌≡◌, cond, ◌&&◌, ◌∷◌, [], ◌+◌, ◌*◌, ◌<◌, eqb, length, set};
ghost use Rattle.std.proofs.lemmas.List.Edits.{sets};
ghost use Rattle.gates.specs.Kind.{conditional_of};
ghost use Rattle.trustee_shares.specs.Shares.{part, masked_first, masked_second, product_part, part_of_kind};
ghost use Rattle.trustee_rounds.specs.inner.Passes.{GateIn, PartReady, EnterReady, PublishReady};
ghost use Rattle.gates.specs.inner.Marked.{Marked};

use gates::gate::Gate;
use gates::kind;
use gates::kind::ConditionalMarks;
use trustee_gates::gate::Pieces;
use trustee_gates::{bits, gate};

// The part of a gate's wire, from the trustee's parts of the operands and its bit z of the product.
fn own_part(p: usize, gate: Gate, z: u8, wires: &[u8]) -> u8
    requires { GateIn gate wires.now }
    ensures { result ≡ part_of_kind p gate.kind (part wires.now gate.a) (part wires.now gate.b)
        (part wires.now gate.c) z }
{
    let a = wires[gate.a as usize];
    let b = wires[gate.b as usize];
    let c = wires[gate.c as usize];
    bits::part_of_kind(p, gate.kind, a, b, c, z)
}

// The trustee's bit of the i-th product, from its triple and the two sums that were heard.
fn product(p: usize, i: usize, triples: &[u8], heard: &[u8]) -> u8
    requires { (3 * i + 2 < length triples.now) × (2 * i + 1 < length heard.now) }
    ensures { result ≡ product_part p triples.now i (part heard.now (2 * i))
        (part heard.now (2 * i + 1)) }
{
    bits::product_bit(
        p,
        triples[3 * i],
        triples[3 * i + 1],
        triples[3 * i + 2],
        heard[2 * i],
        heard[2 * i + 1],
    )
}

// The part of a gate's wire, conditional or free; i conditional gates come before it. A free gate needs no product.
fn gate_part(
    marks: &ConditionalMarks,
    p: usize,
    gate: Gate,
    i: usize,
    triples: &[u8],
    heard: &[u8],
    wires: &[u8],
) -> u8
    requires { Marked marks.now (PartReady gate i triples.now heard.now wires.now) }
    ensures { result ≡ part_of_kind p gate.kind (part wires.now gate.a) (part wires.now gate.b)
        (part wires.now gate.c)
        (product_part p triples.now i (part heard.now (2 * i))
        (part heard.now (2 * i + 1))) }
{
    if kind::conditional(marks, gate.kind) {
        let z = product(p, i, triples, heard);
        return own_part(p, gate, z, wires);
    }
    own_part(p, gate, 0, wires)
}

// Enters the part of a gate's wire if this round is the gate's level.
pub(crate) fn enter_gate(
    marks: &ConditionalMarks,
    p: usize,
    round: usize,
    level: usize,
    gate: Gate,
    own: usize,
    i: usize,
    triples: &[u8],
    heard: &[u8],
    wires: &mut [u8],
)
    requires { Marked marks.now (EnterReady gate own i triples.now heard.now wires.old) }
    ensures { wires.new
        ≡ cond (eqb level round)
        (set wires.old own
        (part_of_kind p gate.kind (part wires.old gate.a) (part wires.old gate.b)
        (part wires.old gate.c)
        (product_part p triples.now i (part heard.now (2 * i))
        (part heard.now (2 * i + 1))))) wires.old }
{
    if level != round {
        return;
    }
    wires[own] = gate_part(marks, p, gate, i, triples, heard, wires);
}

// Publishes both masked factors if the gate is conditional and its level is the next one.
pub(crate) fn publish_gate(
    marks: &ConditionalMarks,
    next: usize,
    level: usize,
    numbers: Gate,
    i: usize,
    triples: &[u8],
    wires: &[u8],
    published: &mut [u8],
)
    requires { Marked marks.now (PublishReady numbers i triples.now wires.now published.old) }
    ensures { published.new
        ≡ cond (conditional_of numbers.kind
        && eqb level next)
        (sets published.old (2 * i)
        (masked_first wires.now triples.now i numbers
        ∷ masked_second wires.now triples.now i numbers ∷ []))
        published.old }
{
    if !kind::conditional(marks, numbers.kind) {
        return;
    }
    if level != next {
        return;
    }
    let pieces = Pieces {
        wires: wires.len(),
        triples: triples.len(),
        published: 0,
    };
    let at = 2 * i;
    let first = gate::masked_first(pieces, numbers, i, 0, triples, wires);
    let second = gate::masked_second(pieces, numbers, i, 0, triples, wires);
    published[at] = first;
    published[at + 1] = second;
}
