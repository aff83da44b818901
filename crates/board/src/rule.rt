//! The rule of a board's table, and the view of a seat after each kind of step.
ghost use Rattle.frames.specs.declared.board_rule.BoardView.TheVariants.{Keeper as IsKeeper, Ended as HasEnded};
ghost use Rattle.frames.specs.declared.board_rule.EntryState.TheVariants.{Zombie, Vacant};
ghost use Rattle.frames.specs.BoardViews.{keeper_view};
ghost use Rattle.frames.specs.BoardRule.{code};
ghost use Rattle.std.specs.Prelude.{[]};
ghost use Rattle.board.specs.Boards.{IsBoard, left_of, right_of, both_of};
ghost use Rattle.board.specs.Plays.{Asked, Enters, Reads, Stores, GoesRound, Installs, Invalidates, CountsUp, CountsDown, Looks, Weighs, GoesOn};

use atomic_table::{Join, Play, Split, TableRule};
use frames::board_rule::BoardView;
use std::marker::{Brand, PhantomData};

/// The rule of a board. Its key is the number of slots and the number of places.
pub struct BoardRule;

impl TableRule<(), BoardView, (usize, usize)> for BoardRule {
    ghost holds = { IsBoard };

    ghost first = { λ n. IsKeeper (keeper_view n.0 0) [] 0 };
}

/// Splits a thread's seat off the keeper's.
pub struct SplitOff;

impl Split<BoardView> for SplitOff {
    ghost left = { left_of };

    ghost right = { right_of };
}

/// Gives a thread's seat back: the keeper's view takes over what the seat's view knew.
pub struct GivenBack;

impl Join<BoardView> for GivenBack {
    ghost both = { both_of };

    ghost spent = { HasEnded };
}

/// What a step is about: board, code and place. Each call picks it, and it leaves nothing in the compiled code.
pub trait About {
    ghost asked: { Asked };
}

impl About for Brand {
    ghost asked = { record { board = record { table = record { words = 0; slots = 0; views_name = 0; atom = 0; block = 0; offset = 0; slot_names = [] }; slots = 0; places = 0 }; code = code 0 0; place = 0 } };
}

pub struct Enter<A> {
    about: PhantomData<A>,
}

impl<A: About> Play<(), BoardView> for Enter<A> {
    ghost then = { Enters A.asked };
}

pub struct Read<A> {
    about: PhantomData<A>,
}

impl<A: About> Play<(), BoardView> for Read<A> {
    ghost then = { Reads A.asked };
}

pub struct Store<A> {
    about: PhantomData<A>,
}

impl<A: About> Play<(), BoardView> for Store<A> {
    ghost then = { Stores A.asked };
}

pub struct CountUp<A> {
    about: PhantomData<A>,
}

impl<A: About> Play<(), BoardView> for CountUp<A> {
    ghost then = { CountsUp A.asked };
}

pub struct CountDown<A> {
    about: PhantomData<A>,
}

impl<A: About> Play<(), BoardView> for CountDown<A> {
    ghost then = { CountsDown A.asked };
}

pub struct GoRound<A> {
    about: PhantomData<A>,
}

impl<A: About> Play<(), BoardView> for GoRound<A> {
    ghost then = { GoesRound A.asked };
}

pub struct Install<A> {
    about: PhantomData<A>,
}

impl<A: About> Play<(), BoardView> for Install<A> {
    ghost then = { Installs A.asked };
}

pub struct Invalidate<A> {
    about: PhantomData<A>,
}

impl<A: About> Play<(), BoardView> for Invalidate<A> {
    ghost then = { Invalidates A.asked };
}

pub struct Look<A> {
    about: PhantomData<A>,
}

impl<A: About> Play<(), BoardView> for Look<A> {
    ghost then = { Looks A.asked };
}

pub struct Weigh<A> {
    about: PhantomData<A>,
}

impl<A: About> Play<(), BoardView> for Weigh<A> {
    ghost then = { Weighs A.asked };
}

pub struct Retire<A> {
    about: PhantomData<A>,
}

impl<A: About> Play<(), BoardView> for Retire<A> {
    ghost then = { GoesOn Zombie A.asked };
}

pub struct Free<A> {
    about: PhantomData<A>,
}

impl<A: About> Play<(), BoardView> for Free<A> {
    ghost then = { GoesOn Vacant A.asked };
}
