//! How far a call is with its statement.
use crate::{Entry, Stack};
use asking_core::{Action, Noted};

/// How a call goes on once its puts are made.
#[derive(Drop)]
pub(crate) enum Onward<C> {
    On,
    Enter(C),
    Leave,
    Finish,
}

/// What is left of a statement once its point was told: a call is counted, values are put, the last of the list first, and
/// then the call goes on.
#[derive(Drop)]
pub(crate) struct Pending<C, K, V> {
    pub(crate) counts: bool,
    pub(crate) puts: Vec<Noted<K, V>>,
    pub(crate) onward: Onward<C>,
}

/// A call at its entry: all keys that it asks there, the answers so far, and whether it waits for the next one.
#[derive(Drop)]
pub(crate) struct Entrance<C, K, V> {
    pub(crate) call: C,
    pub(crate) keys: Vec<K>,
    pub(crate) answers: Vec<Noted<K, V>>,
    pub(crate) waits: bool,
}

/// How far a call is with its statement. Points that wait for a frame are boxed: phases are moved at each action, and few
/// statements want a frame.
#[derive(Drop)]
pub(crate) enum Phase<T, C, K, V, I> {
    Ready,
    Placed,
    Decides(Vec<Noted<K, V>>),
    Waits(Vec<Noted<K, V>>, K),
    Tells(Box<I>, Pending<C, K, V>),
    Does(Pending<C, K, V>),
    Tried(Box<I>, Box<I>, Entry<T, C, K, V>),
    Inside,
}

/// Where a call is: at its entry, where it has no list and knows nothing yet, or within.
#[derive(Drop)]
pub(crate) enum Progress<T, N, C, K, V, I> {
    Entering(Entrance<C, K, V>),
    Within(Stack<T, N>, Phase<T, C, K, V, I>),
}

/// A call under way.
#[derive(Drop)]
pub struct Local<T, N, C, K, V, I> {
    pub(crate) progress: Progress<T, N, C, K, V, I>,
}

/// The same, with how many actions the call may still take before its next unit of fuel.
#[derive(Drop)]
pub struct Watched<T, N, C, K, V, I> {
    pub(crate) local: Local<T, N, C, K, V, I>,
    pub(crate) left: u32,
}

/// What is done next, and how far the call is then.
#[derive(Drop)]
pub(crate) struct Taken<T, C, K, V, I> {
    pub(crate) action: Action<K, V, C, I>,
    pub(crate) phase: Phase<T, C, K, V, I>,
}

/// What a call at its entry does next: it asks a key, or it begins with its first statement.
#[derive(Drop)]
pub(crate) enum Opened<T, N, C, K, V, I> {
    Asks(K),
    Begins(Stack<T, N>, Taken<T, C, K, V, I>),
}
