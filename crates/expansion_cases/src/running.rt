//! A call is run by carrying out each action of a machine, and nothing else.
use crate::reading::Limits;
use asking_core::{Action, AskMachine, Given, World};
use hl_base::{Ledger, OutOfMemory, Steps};
use std::alloc::Global;

/// How deep frames and calls may stand in one another.
const DEEPEST: u32 = 128;

/// How many actions are carried out before a call is given up.
const MOST_ACTIONS: u32 = 1_000_000;

/// How a call ended: it left, it ended all, or fuel was wanting.
#[derive(Clone, Copy)]
pub enum Ended {
    Left,
    All,
    Starved,
}

/// What came of a call.
#[derive(Drop)]
pub struct Ran<I, F> {
    pub items: Vec<I>,
    pub unpaid: Vec<F>,
    pub ended: Ended,
    pub cost: u32,
    pub nested: u32,
}

/// A call under way, with its depth and how many frames stand open in it.
#[derive(Drop)]
struct Open<T> {
    local: T,
    depth: u32,
    frames: u32,
}

impl<T> Open<T> {
    /// How deep one more frame would stand, if there is room for it.
    fn next_depth(&self) -> Option<u32> {
        let depth = self.depth.saturating_add(self.frames);
        if depth < DEEPEST {
            return Some(depth.saturating_add(1));
        }
        None
    }
}

/// A call with its callers, the first of which stands first.
#[derive(Drop)]
struct UnderWay<T, I, F> {
    open: Open<T>,
    callers: Vec<Open<T>>,
    limits: Limits,
    ran: Ran<I, F>,
}

/// What a call is told next, or how it ended.
#[derive(Drop)]
enum Next<V> {
    Goes(Given<V>),
    Over(Ended),
}

impl<T: Drop, I: Drop, F: Drop> UnderWay<T, I, F> {
    fn new(alloc: Global, local: T, limits: Limits) -> UnderWay<T, I, F> {
        UnderWay {
            open: Open {
                local,
                depth: limits.depth,
                frames: 0,
            },
            callers: Vec::new(alloc),
            limits,
            ran: Ran {
                items: Vec::new(alloc),
                unpaid: Vec::new(alloc),
                ended: Ended::Left,
                cost: 0,
                nested: 0,
            },
        }
    }

    /// Notes that a frame stood so deep.
    fn note_depth(&mut self, depth: u32) {
        let nested = depth.saturating_sub(self.limits.depth);
        if self.ran.nested < nested {
            self.ran.nested = nested;
        }
    }

    /// Takes a unit of fuel, if there is one.
    fn count<V>(&mut self) -> Next<V> {
        if self.ran.cost >= self.limits.fuel {
            return Next::Over(Ended::Starved);
        }
        self.ran.cost = self.ran.cost.saturating_add(1);
        Next::Goes(Given::Nothing)
    }

    /// Begins a frame, if there is room.
    fn deepen<V>(&mut self) -> Next<V> {
        match self.open.next_depth() {
            Some(depth) => {
                self.note_depth(depth);
                self.open.frames = self.open.frames.saturating_add(1);
                Next::Goes(Given::Nothing)
            }
            None => Next::Goes(Given::TooDeep),
        }
    }

    /// Ends a frame.
    fn rise<V>(&mut self) -> Next<V> {
        self.open.frames = self.open.frames.saturating_sub(1);
        Next::Goes(Given::Nothing)
    }

    /// Goes into a call, whose frames stand so deep.
    fn enter(&mut self, local: T, depth: u32) -> Result<(), OutOfMemory> {
        self.note_depth(depth);
        let child = Open {
            local,
            depth,
            frames: 0,
        };
        let caller = std::mem::replace(&mut self.open, child);
        self.callers.push(caller)?;
        Ok(())
    }

    /// Goes back to the caller, if there is one.
    fn leave<V, W: World>(&mut self, world: &mut W) -> Next<V> {
        match self.callers.pop() {
            Some(caller) => {
                world.leave();
                self.open = caller;
                Next::Goes(Given::Returned)
            }
            None => Next::Over(Ended::Left),
        }
    }
}

/// Enters a call, if there is room.
fn enter<M: AskMachine, W: World>(
    machine: &M,
    alloc: Global,
    world: &mut W,
    under_way: &mut UnderWay<M::Local, M::Item, M::Frames>,
    call: &M::Call,
) -> Result<Next<M::Value>, OutOfMemory> {
    let Some(depth) = under_way.open.next_depth() else {
        return Ok(Next::Goes(Given::TooDeep));
    };
    world.enter();
    under_way.enter(machine.begin(alloc, call)?, depth)?;
    Ok(Next::Goes(Given::Nothing))
}

/// Carries out one action.
fn carry_out<M: AskMachine, W: World<Key = M::Key, Value = M::Value>>(
    machine: &M,
    alloc: Global,
    world: &mut W,
    under_way: &mut UnderWay<M::Local, M::Item, M::Frames>,
    action: Action<M::Key, M::Value, M::Call, M::Item>,
) -> Result<Next<M::Value>, OutOfMemory> {
    match action {
        Action::Ask(key) => Ok(Next::Goes(Given::Answer(world.ask(alloc, &key)?))),
        Action::Put(key, value) => {
            world.put(alloc, key, value)?;
            Ok(Next::Goes(Given::Nothing))
        }
        Action::Count => Ok(under_way.count()),
        Action::Bump => {
            world.bump(1);
            Ok(Next::Goes(Given::Nothing))
        }
        Action::Emit(item) => {
            under_way.ran.items.push(Box::into_inner(item))?;
            Ok(Next::Goes(Given::Nothing))
        }
        Action::Deepen => Ok(under_way.deepen()),
        Action::Rise => Ok(under_way.rise()),
        Action::Enter(call) => enter(machine, alloc, world, under_way, &call),
        Action::At(statement) => {
            world.at(statement);
            Ok(Next::Goes(Given::Nothing))
        }
        Action::Leave => Ok(under_way.leave(world)),
        Action::End => Ok(Next::Over(Ended::All)),
    }
}

/// Ends the calls that are under way: the frames of each are told where fuel was wanting, and each nested one is left.
fn end<M: AskMachine, W: World>(
    machine: &M,
    alloc: Global,
    world: &mut W,
    under_way: UnderWay<M::Local, M::Item, M::Frames>,
    ended: Ended,
) -> Result<Ran<M::Item, M::Frames>, OutOfMemory> {
    let mut ran = under_way.ran;
    ran.ended = ended;
    if let Ended::Starved = ended {
        ran.unpaid
            .push(machine.frames(alloc, &under_way.open.local)?)?;
        for caller in under_way.callers.as_slice().iter().rev() {
            ran.unpaid.push(machine.frames(alloc, &caller.local)?)?;
        }
    }
    for _ in under_way.callers.as_slice() {
        world.leave();
    }
    Ok(ran)
}

/// Runs a call.
pub fn run<M: AskMachine, W: World<Key = M::Key, Value = M::Value>, L: Ledger>(
    machine: &M,
    alloc: Global,
    world: &mut W,
    call: &M::Call,
    limits: Limits,
    steps: &mut Steps<L>,
) -> Result<Ran<M::Item, M::Frames>, OutOfMemory> {
    let mut under_way = UnderWay::new(alloc, machine.begin(alloc, call)?, limits);
    let mut given = Given::Nothing;
    for _ in 0..MOST_ACTIONS {
        let action = machine.step(alloc, &mut under_way.open.local, given, steps)?;
        match carry_out(machine, alloc, world, &mut under_way, action)? {
            Next::Goes(told) => given = told,
            Next::Over(ended) => return end(machine, alloc, world, under_way, ended),
        }
    }
    Err(OutOfMemory)
}
