// The reasons for which a call is refused [order].
ghost use Rattle.std.specs.Prelude.{◌≡◌};
ghost use Rattle.jury.specs.Reason.{Reason, reason_of, refusal_of};

use gates::list::ListFault;

// First the reasons of a run, in the order of its tests; then those of the urn (13 to 15), of the trustees (16 to
// 18) and of the dispatcher (19, 20). If a case holds a number, that is the place.
#[derive(Clone, Copy)]
pub enum Refusal {
    Shape,
    Table,
    Gate(usize),
    BallotsLength,
    BallotByte(usize),
    BallotRow(usize),
    NotAsymmetric(usize),
    NotWeakOrder(usize),
    TapeLength,
    TapeByte(usize),
    WiresLength,
    BoardLength,
    Urn,
    Juror,
    FullUrn,
    Trustees,
    PartTables,
    Dealing,
    Juries,
    GatesPerRound,
}

impl From<ListFault> for Refusal {
    ghost from_gives = { λ fault refusal. refusal ≡ refusal_of fault };

    #[tactic(auto, unfolding(crate::specs::Reason::refusal_of))]
    fn from(fault: ListFault) -> Refusal {
        match fault {
            ListFault::PartOfAGate | ListFault::TooFewGates | ListFault::TooManyGates =>
                Refusal::Table,
            ListFault::BadGate(g) => Refusal::Gate(g),
        }
    }
}

// A refusal, of this crate or of one above it, has a number, and a place that is 0 if there is none.
pub trait Numbered: Copy {
    // What is told of a refusal.
    ghost told: { Self → Reason };

    // The number of the reason.
    fn number(self) -> usize
        ensures { result ≡ (told self).number };

    // The place of the reason, 0 if it has none.
    fn place(self) -> usize
        ensures { result ≡ (told self).place };
}

impl Numbered for Refusal {
    ghost told = { reason_of };

    #[tactic(auto, unfolding(crate::specs::Reason::reason_of, crate::specs::Reason::reason_at))]
    fn number(self) -> usize {
        match self {
            Refusal::Shape => 1,
            Refusal::Table => 2,
            Refusal::Gate(_) => 3,
            Refusal::BallotsLength => 4,
            Refusal::BallotByte(_) => 5,
            Refusal::BallotRow(_) => 6,
            Refusal::NotAsymmetric(_) => 11,
            Refusal::NotWeakOrder(_) => 12,
            Refusal::TapeLength => 7,
            Refusal::TapeByte(_) => 8,
            Refusal::WiresLength => 9,
            Refusal::BoardLength => 10,
            Refusal::Urn => 13,
            Refusal::Juror => 14,
            Refusal::FullUrn => 15,
            Refusal::Trustees => 16,
            Refusal::PartTables => 17,
            Refusal::Dealing => 18,
            Refusal::Juries => 19,
            Refusal::GatesPerRound => 20,
        }
    }

    #[tactic(auto, unfolding(crate::specs::Reason::reason_of, crate::specs::Reason::reason_at))]
    fn place(self) -> usize {
        match self {
            Refusal::Gate(place)
            | Refusal::BallotByte(place)
            | Refusal::BallotRow(place)
            | Refusal::NotAsymmetric(place)
            | Refusal::NotWeakOrder(place)
            | Refusal::TapeByte(place) => place,
            _ => 0,
        }
    }
}
