// Why a call of the dispatcher is refused.
ghost use Rattle.dispatch.specs.Reasons.{jury_reason_of};

use jury::reason::{Numbered, Refusal};

// The first reason of the first bad jury. For a reason that concerns no jury, `jury` is 0.
#[derive(Clone, Copy)]
pub struct JuryRefusal {
    pub reason: Refusal,
    pub jury: usize,
}

impl Numbered for JuryRefusal {
    ghost told = { jury_reason_of };

    #[tactic(auto, unfolding(crate::specs::Reasons::jury_reason_of, jury::specs::Reason::reason_at))]
    fn number(self) -> usize {
        self.reason.number()
    }

    #[tactic(auto, unfolding(crate::specs::Reasons::jury_reason_of, jury::specs::Reason::reason_at))]
    fn place(self) -> usize {
        self.jury
    }
}
