//! Where a call is.
ghost use Rattle.std.specs.Prelude.{◌≡◌, ◌+◌, ℕ, IfOk, OnOk, OnErr};

use hl_base::OutOfMemory;

/// A list of statements, and the place in it, counted from 0.
#[derive(Drop)]
pub struct Level<T> {
    pub listing: T,
    pub position: u32,
}

/// Where a call is: what it knows, the innermost list that it processes, and the lists that copied it, outermost first.
#[derive(Drop)]
pub struct Stack<T, N> {
    pub is_open_code: bool,
    pub known: N,
    pub here: Level<T>,
    pub below: Vec<Level<T>>,
}
