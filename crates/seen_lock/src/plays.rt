//! What each kind of step tells. No value of these types is made.
ghost use Rattle.std.specs.Prelude.{List, []};
ghost use Rattle.seen_lock.specs.Steps.{Drew, Looked, Added, Passed, with_one_more, newborn, gathered, spent};

use crate::journaled::Journaled;
use crate::known::Known;
use atomic_table::{Join, Play, Split};
use std::marker::{Brand, PhantomData};

/// Which states are the lock's, and where its history began. Each call of a look picks it.
pub trait Home<S> {
    ghost use Rattle.std.specs.Prelude.{ℕ};

    ghost fits: { S → Type 0 };

    ghost from: { ℕ };
}

impl<S> Home<S> for Brand {
    ghost fits = { λ _. Unit {0} };

    ghost from = { 0 };
}

/// Which entries a step adds. Each call of an add picks them.
pub trait Entries<E> {
    ghost new: { List E };
}

impl<E> Entries<E> for Brand {
    ghost new = { [] };
}

/// Draws the next ticket.
pub(crate) struct Draw;

impl<S, E> Play<Option<S>, Known<E>> for Draw {
    ghost then = { λ _. Drew };
}

/// Looks at the turn, and takes the slot where it is the seat's own.
pub(crate) struct Look<B> {
    home: PhantomData<B>,
}

impl<S: Journaled, B: Home<S>> Play<Option<S>, Known<S::Entry>> for Look<B> {
    ghost then = { λ _. Looked S.entries S.maker B.fits B.from };
}

/// Adds to the history.
pub(crate) struct Add<B> {
    entries: PhantomData<B>,
}

impl<S, E, B: Entries<E>> Play<Option<S>, Known<E>> for Add<B> {
    ghost then = { λ _. Added B.new };
}

/// Passes the turn on, and gives the slot back.
pub(crate) struct Pass;

impl<S, E> Play<Option<S>, Known<E>> for Pass {
    ghost then = { λ _. Passed };
}

/// The first seat makes another.
pub(crate) struct Make;

impl<E> Split<Known<E>> for Make {
    ghost left = { with_one_more };

    ghost right = { newborn };
}

/// The first seat takes in another.
pub(crate) struct Gather;

impl<E> Join<Known<E>> for Gather {
    ghost both = { gathered };

    ghost spent = { spent };
}
