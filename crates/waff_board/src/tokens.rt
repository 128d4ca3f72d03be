//! The tokens of a board, each of which one call takes and gives the next.

ghost use Rattle.std.specs.Prelude.{◌^◌, ◌<◌, ◌≡◌, [], length, map};
ghost use Rattle.waff_core.specs.Job.{IsIn, owners_of};
ghost use Rattle.waff_core.specs.declared.actors.Phase.TheVariants.{Free, Drawn, Running, Ended};
ghost use Rattle.waff_board.specs.Tokens.{HoldsBefore, HoldsAfter, SeesNeeds};

use crate::hand::Hand;
use std::marker::Model;
use waff_core::Job;

/// A seat that may draw.
#[derive(Drop)]
pub struct Seat {
    pub(crate) hand: Hand,
    ghost free: { hand.chair.me.0.phase ≡ Free },
    ghost empty: { hand.chair.me.1 ≡ [] },
}

impl Model for Seat {
    ghost use Rattle.waff_board.specs.Hands.{idle_token};
    ghost use Rattle.waff_board.specs.Tokens.{Token};

    ghost Value = { Token };

    ghost view = { λ a. idle_token a.hand 0 };
}

/// A seat that has drawn a message.
#[derive(Drop)]
pub struct Drawn {
    pub(crate) hand: Hand,
    pub(crate) message: u32,
    ghost within: { IsIn hand.chair.me.0.job message },
    ghost drawn: { hand.chair.me.0.phase ≡ Drawn message },
    ghost empty: { hand.chair.me.1 ≡ [] },
}

impl Model for Drawn {
    ghost use Rattle.waff_board.specs.Hands.{idle_token};
    ghost use Rattle.waff_board.specs.Tokens.{Token};

    ghost Value = { Token };

    ghost view = { λ a. idle_token a.hand a.message };
}

/// A seat that has drawn a message and has seen all its needs done.
#[derive(Drop)]
pub struct Cleared {
    pub(crate) drawn: Drawn,
    ghost clear: { SeesNeeds drawn },
}

impl Model for Cleared {
    ghost use Rattle.waff_board.specs.Tokens.{Token};

    ghost Value = { Token };

    ghost view = { λ a. a.drawn };
}

/// A seat that has begun a message, with the parcels of its footprint's owners.
#[derive(Drop)]
pub struct Running<'a> {
    pub(crate) hand: Hand,
    pub(crate) message: u32,
    pub(crate) job: &'a Job,
    ghost within: { IsIn job.now message },
    ghost of: { job.now ≡ hand.chair.me.0.job },
    ghost running: { hand.chair.me.0.phase ≡ Running message },
    ghost taken: { map (λ slot. slot.0) hand.chair.me.1 ≡ owners_of job.now.owners message },
}

impl<'a> Model for Running<'a> {
    ghost use Rattle.waff_board.specs.Hands.{running_token};
    ghost use Rattle.waff_board.specs.Tokens.{Token};

    ghost Value = { Token };

    ghost view = { λ a. running_token a.hand a.message };
}

/// A seat that runs a message, with the parcels as the messages before it left them.
#[derive(Drop)]
pub struct Grant<'a> {
    pub(crate) running: Running<'a>,
    ghost before: { HoldsBefore running },
}

impl<'a> Model for Grant<'a> {
    ghost use Rattle.waff_board.specs.Tokens.{Token};

    ghost Value = { Token };

    ghost view = { λ a. a.running };
}

/// A seat that has run a message, with the parcels as the message left them.
#[derive(Drop)]
pub struct Finished<'a> {
    pub(crate) running: Running<'a>,
    ghost after: { HoldsAfter running },
}

impl<'a> Model for Finished<'a> {
    ghost use Rattle.waff_board.specs.Tokens.{Token};

    ghost Value = { Token };

    ghost view = { λ a. a.running };
}

/// A seat that has drawn past the end of the order.
#[derive(Drop)]
pub struct EndSeat {
    pub(crate) hand: Hand,
    ghost ended: { hand.chair.me.0.phase ≡ Ended },
    ghost empty: { hand.chair.me.1 ≡ [] },
    ghost short: { length hand.chair.me.0.job.ops < 2 ^ 32 },
}

impl Model for EndSeat {
    ghost use Rattle.waff_board.specs.Hands.{idle_token};
    ghost use Rattle.waff_board.specs.Tokens.{Token};

    ghost Value = { Token };

    ghost view = { λ a. idle_token a.hand 0 };
}
