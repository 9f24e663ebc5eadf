// What the calls that use levels answer: `write` here, and the calls of a trustee on its own machine.
ghost use Rattle.std.specs.Prelude.{◌≡◌};
ghost use Rattle.levels.specs.Answer.{level_reason_of};
ghost use Rattle.levels.specs.declared.answer.LevelRefusal.TheVariants.{OfCore};

use jury::reason::{Numbered, Refusal};

// Why such a call is refused. The numbers 200 to 202 are our own; those of the requests end at 24.
#[derive(Clone, Copy)]
pub enum LevelRefusal {
    OfCore(Refusal),
    Levels,
    Round,
    Heard,
}

// G, C and R of the list.
#[derive(Clone, Copy)]
pub struct Depths {
    pub gates: usize,
    pub conditional: usize,
    pub rounds: usize,
}

// The list's numbers, or the first reason that applies.
pub type Answer = Result<Depths, LevelRefusal>;

impl From<Refusal> for LevelRefusal {
    ghost from_gives = { λ reason refusal. refusal ≡ OfCore reason };

    fn from(reason: Refusal) -> LevelRefusal {
        LevelRefusal::OfCore(reason)
    }
}

impl Numbered for LevelRefusal {
    ghost told = { level_reason_of };

    #[tactic(auto, unfolding(crate::specs::Answer::level_reason_of, jury::specs::Reason::reason_at))]
    fn number(self) -> usize {
        match self {
            LevelRefusal::OfCore(reason) => reason.number(),
            LevelRefusal::Levels => 200,
            LevelRefusal::Round => 201,
            LevelRefusal::Heard => 202,
        }
    }

    #[tactic(auto, unfolding(crate::specs::Answer::level_reason_of, jury::specs::Reason::reason_at))]
    fn place(self) -> usize {
        match self {
            LevelRefusal::OfCore(reason) => reason.place(),
            _ => 0,
        }
    }
}
