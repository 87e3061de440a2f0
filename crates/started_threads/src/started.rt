//! A value that a thread is started to make.

use std::marker::Model;
use std::thread::{Promise, PromisedHandle, Threads};

/// The thread that makes a value; or, if no thread could be started, the value, which the calling
/// thread made.
#[derive(Drop)]
pub enum Making<T: Drop, P: Promise<T>> {
    Pending(PromisedHandle<T, P>),
    Ready(T),
}

/// A value that a thread was started to make, and what is promised of it. If it is dropped, its
/// thread runs on.
#[derive(Drop)]
pub struct Started<T: Drop, P: Promise<T> + Drop> {
    pub promise: P,
    pub making: Making<T, P>,
}

impl<T: Drop, P: Promise<T> + Drop> Model for Started<T, P> {
    ghost use Rattle.started_threads.specs.Started.{IsMakingOf};

    ghost Value = { P };

    ghost view = { λ s. s.promise };

    ghost invariant = { λ s. IsMakingOf P.Promise s.promise s.making };
}

impl<T: Drop, P: Promise<T> + Drop> Started<T, P> {
    /// Waits for the thread, if there is one, and returns the value, which keeps the promise.
    pub fn join<R: Threads>(self, rt: &R) -> T
        ensures { P.kept_by self result }
    {
        let Started { promise: _, making } = self;
        match making {
            Making::Pending(handle) => handle.join(rt),
            Making::Ready(value) => value,
        }
    }
}
