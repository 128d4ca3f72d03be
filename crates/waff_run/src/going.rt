//! The line of a run, as its threads share it.
//!
//! Who takes a lock knows of what is behind it what its type says, and no more. So the type of the line names the
//! course of the run, by a parameter that each call of `run` picks and that is nothing when the program runs. What
//! comes out of the lock at the end is then a line of that course, to whose state events led, whoever has changed it.
//!
//! A message passes from its beginning to its end as a token. The line gives `Taken` where a message begins; to
//! perform it makes `Performed` of that, or `Failed`; and the line ends a message only for `Performed`. Nobody else
//! makes a token, none is copied, and none is let go. So nobody ends a message that was not performed.
//!
//! The store is asked by hands, of which each message has one. Until it begins the line keeps it; its tokens carry it;
//! and when it ends the line has it back, by which then just that was asked which the message asks for. There are no other
//! hands, so nothing else is asked.

ghost use Rattle.std.specs.Prelude.{◌≡◌, ◌-◌, true, IfOk, MatchOption, MatchResult, IsSome, None, OnOk, Some, length};
ghost use Rattle.std.specs.Prelude.{map, option_map, slice_index_or, slice_set};
ghost use Rattle.waff_model.specs.Numbers.{IsAmongFirst};
ghost use Rattle.waff_line.specs.Lined.{course_in};
ghost use Rattle.waff_line.specs.Laws.{AreAllEnded};
ghost use Rattle.waff_line.specs.Machine.{Course, IsRunning, NobodyMayBegin, Steps, opening};
ghost use Rattle.waff_line.specs.Noted.{shown};
ghost use Rattle.waff_line.specs.Turns.{AreReached, no_course};
ghost use Rattle.waff_line.specs.declared.event.Event.TheVariants.{Begin, End};
ghost use Rattle.waff_run.specs.Asked.{GoesOn};
ghost use Rattle.waff_run.specs.Hands.{AreAsked, AreFresh, Asking as Wanted, AsksNumber, asking_of, no_asking};

use crate::fault::Stopped;
use crate::perform::{Room, perform};
use crate::places::Places;
use crate::store::Store;
use crate::syncing::Syncs;
use std::alloc::AllocError;
use std::marker::{Brand, Model, PhantomData};
use waff_line::{Ended, Line, Over, Turn};
use waff_model::Trace;

/// What a run is of.
pub trait RunOf {
    /// Its course.
    ghost course: { Course };

    /// What it asks for.
    ghost asking: { Wanted };
}

impl RunOf for Brand {
    ghost course = { no_course };

    ghost asking = { no_asking };
}

/// What the run of the course that C names asks for: its messages, where cells lie, and which files are synced at the end of
/// each message.
#[derive(Drop)]
pub struct Asking<'r, C: RunOf> {
    places: &'r Places,
    trace: &'r Trace,
    syncs: &'r [Syncs],
    of: PhantomData<C>,
}

impl<'r, C: RunOf> Model for Asking<'r, C> {
    ghost use Rattle.std.specs.Prelude.{◌≡◌};
    ghost use Rattle.waff_run.specs.Hands.{Asking as Wanted, asking_of};

    ghost Value = { Wanted };

    ghost view = { λ a. asking_of a.places.now a.trace.now.messages a.syncs.now };

    ghost invariant = { λ a. asking_of a.places.now a.trace.now.messages a.syncs.now ≡ C.asking };
}

impl<'r, C: RunOf> Asking<'r, C> {
    pub fn of(places: &'r Places, trace: &'r Trace, syncs: &'r [Syncs]) -> Self
        requires { asking_of places.now trace.now.messages syncs.now ≡ C.asking }
    {
        Asking {
            places,
            trace,
            syncs,
            of: PhantomData,
        }
    }

    /// It is what the run asks for.
    fn is_of_run(&self)
        ensures { self.now ≡ C.asking }
    {
        let _places = &self.places;
    }
}

/// A message of the run of the course that C names, which has begun on a worker and was not performed. Contracts see which
/// message it is.
pub struct Taken<C: RunOf, S: Store> {
    message: u32,
    hand: S::Hand,
    of: PhantomData<C>,
}

impl<C: RunOf, S: Store> Model for Taken<C, S> {
    ghost use Rattle.std.specs.Prelude.{◌≡◌, ℕ, [], IfSome};

    ghost Value = { ℕ };

    ghost view = { λ taken. taken.message };

    ghost invariant = { λ taken. IfSome (S.log taken.hand) (λ asked. asked ≡ []) };
}

/// A message that was performed. Contracts see which message it is.
pub struct Performed<C: RunOf, S: Store> {
    message: u32,
    hand: S::Hand,
    of: PhantomData<C>,
}

impl<C: RunOf, S: Store> Model for Performed<C, S> {
    ghost use Rattle.std.specs.Prelude.{ℕ, IfSome, length};
    ghost use Rattle.waff_model.specs.Numbers.{IsAmongFirst};
    ghost use Rattle.waff_run.specs.Hands.{AsksNumber};

    ghost Value = { ℕ };

    ghost view = { λ performed. performed.message };

    ghost invariant = { λ performed. IsAmongFirst (length C.asking.messages) performed.message
        × IfSome (S.log performed.hand) (AsksNumber C.asking performed.message) };
}

/// A message that could not be performed, and why. The run has to stop.
pub struct Failed<C: RunOf> {
    why: Stopped,
    of: PhantomData<C>,
}

impl<C: RunOf, S: Store> Taken<C, S> {
    /// Does the operations of the message, and then its syncs.
    pub fn perform(
        self,
        store: &S,
        asking: &Asking<'_, C>,
        room: &mut Room,
    ) -> Result<Performed<C, S>, Failed<C>>
        ensures { IfOk result (λ performed. performed ≡ self) }
    {
        let Taken { message, hand, of } = self;
        let mut hand = hand;
        asking.is_of_run();
        match perform_message(store, &mut hand, asking, message, room) {
            Ok(()) => Ok(Performed { message, hand, of }),
            Err(why) => Err(Failed { why, of }),
        }
    }
}

impl<C: RunOf, S: Store> Performed<C, S> {
    /// Which message it is.
    pub fn message(&self) -> u32
        ensures { result ≡ self.now }
    {
        self.message
    }
}

impl<C: RunOf> Failed<C> {
    /// Why the run has to stop.
    pub fn why(self) -> Stopped {
        let Failed { why, of: _of } = self;
        why
    }
}

/// The line of the run of the course that C names, and the hands of its messages. Its methods are those of the line, with tokens
/// for the messages that begin and end. Contracts see the line, to whose state events of the machine led.
#[derive(Drop)]
pub struct Going<'a, C: RunOf, S: Store> {
    line: Line<'a>,
    hands: Vec<Option<S::Hand>>,
    of: PhantomData<C>,
}

impl<'a, C: RunOf, S: Store> Model for Going<'a, C, S> {
    ghost use Rattle.std.specs.Prelude.{◌≡◌, map, option_map};
    ghost use Rattle.waff_line.specs.Lined.{LineValue, course_in};
    ghost use Rattle.waff_line.specs.Machine.{Reaches};
    ghost use Rattle.waff_run.specs.Hands.{AreHands};

    ghost Value = { LineValue };

    ghost view = { λ g. g.line };

    ghost invariant = { λ g. (course_in g.line ≡ C.course) × Reaches C.course g.line.state
        × AreHands C.course C.asking g.line.state (map (option_map S.log) g.hands.items) };
}

impl<'a, C: RunOf, S: Store> Going<'a, C, S> {
    pub fn of(line: Line<'a>, hands: Vec<Option<S::Hand>>) -> Self
        requires same { course_in line ≡ C.course }
        requires opening { line.state ≡ opening (course_in line) }
        requires count { C.course.work.count ≡ length C.asking.messages }
        requires fresh { AreFresh (length C.asking.messages) (map (option_map S.log) hands.items) }
    {
        Going {
            line,
            hands,
            of: PhantomData,
        }
    }

    pub fn tell(&mut self, now: u64) {
        self.line.tell(now);
    }

    pub fn waiting(&self) -> u32 {
        self.line.waiting()
    }

    pub fn ended(&self) -> u32 {
        self.line.ended()
    }

    pub fn is_ready(&self) -> bool {
        self.line.is_ready()
    }

    pub fn next(&self) -> u64 {
        self.line.next()
    }

    /// The first message that is ready begins on this worker, where it is free. None does where no message may.
    pub fn begin(&mut self, worker: u32) -> Result<Option<Taken<C, S>>, Over>
        ensures { MatchResult result
            (λ begun. MatchOption begun ((self.new ≡ self.old)
            × NobodyMayBegin (course_in self.old) self.old.state worker)
            (λ taken. Steps (course_in self.old) self.old.state (Begin worker taken) self.new.state))
            (λ _. (self.new.state ≡ self.old.state) × (self.new.over ≡ true)) }
    {
        match self.line.begin(worker) {
            Ok(Some(message)) => match take_hand(&mut self.hands, message) {
                Some(hand) => Ok(Some(Taken {
                    message,
                    hand,
                    of: PhantomData,
                })),
                None => unreachable!(),
            },
            Ok(None) => Ok(None),
            Err(over) => Err(over),
        }
    }

    pub fn end(&mut self, performed: Performed<C, S>, now: u64) -> Result<Ended, AllocError>
        ensures { IsRunning self.old.state performed
            → Steps (course_in self.old) self.old.state (End performed now) self.new.state }
    {
        let Performed {
            message,
            hand,
            of: _of,
        } = performed;
        put_hand(&mut self.hands, message, hand);
        self.line.end(message, now)
    }

    pub fn turns(&self) -> &[Turn]
        ensures reached { AreReached C.course result.now }
        ensures shown { map shown result.now ≡ self.now.state.turns }
        ensures many { length self.now.state.turns ≡ C.course.work.count }
    {
        self.line.turns()
    }

    /// The hands. Where all messages have ended, they are back.
    pub fn into_hands(self) -> Vec<Option<S::Hand>>
        ensures { AreAllEnded C.course self.entry.state
            → AreAsked C.asking (map (option_map S.log) result.items) }
    {
        let Going {
            line,
            hands,
            of: _of,
        } = self;
        drop(line);
        hands
    }
}

/// Takes the hand of a message out, where it is there.
fn take_hand<H>(hands: &mut Vec<Option<H>>, message: u32) -> Option<H>
    ensures taken { result ≡ slice_index_or hands.old.items (message - 1) None }
    ensures out { hands.new.items ≡ slice_set hands.old.items (message - 1) None }
{
    match hands.get_mut((message as usize).saturating_sub(1)) {
        Some(hand) => hand.take(),
        None => None,
    }
}

/// Puts the hand of a message back, where it is out.
fn put_hand<H: Drop>(hands: &mut Vec<Option<H>>, message: u32, hand: H)
    ensures back { slice_index_or hands.old.items (message - 1) None ≡ None
        → hands.new.items ≡ slice_set hands.old.items (message - 1) (Some hand) }
    ensures there { IsSome (slice_index_or hands.old.items (message - 1) None) → hands.new.items ≡ hands.old.items }
{
    if let Some(place) = hands.get_mut((message as usize).saturating_sub(1)) {
        if place.is_none() {
            *place = Some(hand);
        }
    }
}

/// Does the operations of a message, and then its syncs.
fn perform_message<C: RunOf, S: Store>(
    store: &S,
    hand: &mut S::Hand,
    asking: &Asking<'_, C>,
    m: u32,
    room: &mut Room,
) -> Result<(), Stopped>
    ensures number { OnOk result (IsAmongFirst (length asking.now.messages) m) }
    ensures asked { OnOk result
        (GoesOn (S.log hand.old) (S.log hand.new) (AsksNumber asking.now m)) }
{
    if m == 0 || m > asking.trace.len() {
        return Err(Stopped::Line);
    }
    let syncs = match asking.syncs.get(m as usize - 1) {
        Some(syncs) => *syncs,
        None => Syncs::None,
    };
    perform(
        store,
        hand,
        asking.places,
        &asking.trace.message(m).ops,
        syncs,
        room,
    )
}
