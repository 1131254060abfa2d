//! The rule of a link's queue, and what each call learns by it.
use crate::known::Known;
use crossbeam_queue::protocol::{Join, Lesson, Outcome, Protocol, Split};
use crossbeam_queue::{Pass, RuledArrayQueue};
use frame_codec::Packet;

/// The queue of a link.
pub type Queue = RuledArrayQueue<Packet, Known, InOrder>;

/// The right of an end to use the queue, with what the end knows. It has no bytes.
pub type End = Pass<Packet, Known>;

/// What was pushed is what was taken and then what the queue holds.
pub struct InOrder;

impl Protocol<Packet, Known> for InOrder {
    ghost use Rattle.std.specs.Prelude.{[]};
    ghost use Rattle.link_queue.specs.Knowing.{IsInOrder, both_ends};

    ghost holds = { IsInOrder };

    ghost first = { both_ends [] [] };
}

/// One end may push and the other may take. Together they may do both.
pub struct Roles;

impl Split<Known> for Roles {
    ghost use Rattle.link_queue.specs.Knowing.{sending_end, taking_end};

    ghost left = { λ v. sending_end v.pushed };

    ghost right = { λ v. taking_end v.taken };
}

impl Join<Known> for Roles {
    ghost use Rattle.link_queue.specs.Knowing.{both_ends, spent_end};

    ghost both = { λ v w. both_ends v.pushed w.taken };

    ghost spent = { spent_end };
}

/// A packet was pushed. Or the queue was full, and what it held was the last of what was pushed.
pub struct Sends;

impl Outcome<Packet, Known> for Sends {
    ghost use Rattle.std.specs.Prelude.{◌≡◌, [], ◌∷◌, ◌++◌};
    ghost use Rattle.link_queue.specs.Knowing.{sending_end};

    ghost then = { λ v packet w. w ≡ sending_end (v.pushed ++ packet ∷ []) };
}

impl Lesson<Packet, Known> for Sends {
    ghost use Rattle.link_queue.specs.Links.{IsBack};

    ghost fact = { λ v items. IsBack items v.pushed };
}

/// A packet was taken. Or the queue was empty, of which the end that takes learns nothing.
pub struct Takes;

impl Outcome<Packet, Known> for Takes {
    ghost use Rattle.std.specs.Prelude.{◌≡◌, [], ◌∷◌, ◌++◌};
    ghost use Rattle.link_queue.specs.Knowing.{taking_end};

    ghost then = { λ v packet w. w ≡ taking_end (v.taken ++ packet ∷ []) };
}

impl Lesson<Packet, Known> for Takes {
    ghost use Rattle.std.specs.Prelude.{⊤};

    ghost fact = { λ v items. ⊤ };
}

/// Whoever has both ends knows what the queue holds.
pub struct Total;

impl Lesson<Packet, Known> for Total {
    ghost use Rattle.std.specs.Prelude.{◌≡◌, ◌++◌};

    ghost fact = { λ v items. v.pushed ≡ v.taken ++ items };
}
