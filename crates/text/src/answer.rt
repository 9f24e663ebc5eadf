// What writing and reading a text answer.
ghost use Rattle.std.specs.Prelude.{◌≡◌};
ghost use Rattle.text.specs.declared.answer.TextRefusal.TheVariants.{OfList};
ghost use Rattle.text.specs.Answer.{text_reason_of};

use jury::reason::{Numbered, Refusal};

// Why a text, or a list to be written as text, is refused. The number in `Line` is the line, counted from 0.
#[derive(Clone, Copy)]
pub enum TextRefusal {
    OfList(Refusal),
    Line(usize),
    Output,
}

// How many characters or numbers were written, or the first reason that applies.
pub type Answer = Result<usize, TextRefusal>;

impl From<Refusal> for TextRefusal {
    ghost from_gives = { λ reason refusal. refusal ≡ OfList reason };

    fn from(reason: Refusal) -> TextRefusal {
        TextRefusal::OfList(reason)
    }
}

impl Numbered for TextRefusal {
    ghost told = { text_reason_of };

    #[tactic(auto, unfolding(crate::specs::Answer::text_reason_of, jury::specs::Reason::reason_at))]
    fn number(self) -> usize {
        match self {
            TextRefusal::OfList(reason) => reason.number(),
            TextRefusal::Line(_) => 23,
            TextRefusal::Output => 24,
        }
    }

    #[tactic(auto, unfolding(crate::specs::Answer::text_reason_of, jury::specs::Reason::reason_at))]
    fn place(self) -> usize {
        match self {
            TextRefusal::OfList(reason) => reason.place(),
            TextRefusal::Line(i) => i,
            TextRefusal::Output => 0,
        }
    }
}
