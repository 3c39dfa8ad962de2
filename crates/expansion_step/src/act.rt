//! What a statement does.
use asking_core::Noted;

/// What a statement enters, if there is room for one more frame: nothing after all, a call, which counts and puts values
/// before it runs, or a copied list.
#[derive(Drop)]
pub enum Entry<T, C, K, V> {
    Nowhere,
    Calling(C, Vec<Noted<K, V>>),
    Copying(T),
}

/// What a statement does. It goes on with the next one, after this change of what is known, and puts so much; it goes on so at
/// the statement of a number of its list, counted from 0, passing over those between; it branches to a label, with such a
/// change, or none is left to it; it wants room for one more frame, for want of which only so much is said; it ends its call;
/// or it ends all.
#[derive(Drop)]
pub enum Act<T, B, D, S, C, K, V> {
    Continues(D, Vec<Noted<K, V>>),
    Skips(u32, D, Vec<Noted<K, V>>),
    Branches(B, Option<D>),
    Enters(S, Entry<T, C, K, V>),
    Returns,
    Finishes,
}

/// How far the answers lead: there is no statement; the first key that has no answer; or what is said, and what is done.
#[derive(Drop)]
pub enum Performed<T, B, D, S, C, K, V> {
    Nothing,
    Wants(K),
    Does(S, Act<T, B, D, S, C, K, V>),
}

/// What went wrong where a statement was to go on.
#[derive(Clone, Copy, Debug, PartialEq, Eq)]
pub enum Fault {
    NoFault,
    NoLabel,
    NoBranchLeft,
    NoRoom,
}
