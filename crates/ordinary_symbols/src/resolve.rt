//! Deferred EQUs (SC26-4940, "EQU instruction").
//!
//! The definition tries all symbols in rounds. To go through all of them once for each EQU of a long chain would take too
//! long, so each deferred EQU first waits for one of its symbols that has no value, and is tried again once that has one.
//! In which order EQUs are tried changes nothing in the end (`proofs/Paths`), so rounds after that, of which the first finds
//! nothing left to settle, make it what the definition says, whatever was tried before.
ghost use Rattle.std.specs.Prelude.{◌≡◌, ◌<◌, true, false, length, IfSome, MatchOption, OnOk, OnErr, slice_get, slice_set};
ghost use Rattle.ordinary_symbols.specs.Rounds.{is_ready, tried, round, resolved, settled, settled_by, with_value};
ghost use Rattle.ordinary_symbols.specs.Shown.{table_of};
ghost use Rattle.ordinary_symbols.specs.Table.{known};
ghost use Rattle.ordinary_symbols.specs.Views.{entry_of, standing_of};

use crate::held::{Held, Standing};
use crate::{EvalFault, Symbols};
use expression_grammar::Expr;
use hl_base::OutOfMemory;
use std::alloc::Global;
use trace_values::{Reloc, SymbolRow};

/// What a deferred EQU comes to: its value, if it has one, and the length that its expression gives, unless it is sized.
#[derive(Drop)]
pub(crate) struct Outcome {
    sized: bool,
    length: u32,
    value: Result<Reloc, EvalFault>,
}

/// The EQUs that are to be tried next, and those that wait for a symbol, by its place.
#[derive(Drop)]
struct Queue {
    next: Vec<usize>,
    waiting: Vec<Vec<usize>>,
}

impl Queue {
    /// An EQU waits for the symbol at a place.
    fn wait(&mut self, at: usize, awaited: usize) -> Result<(), OutOfMemory> {
        if awaited < self.waiting.len() {
            self.waiting[awaited].push(at)?;
        }
        Ok(())
    }

    /// Those that wait for the symbol at a place are tried next.
    fn release(&mut self, at: usize) -> Result<(), OutOfMemory> {
        if at < self.waiting.len() {
            self.next.append(&mut self.waiting[at])?;
        }
        Ok(())
    }
}

/// How many symbols an expression has.
fn symbols_in(e: &Expr) -> usize {
    match e {
        Expr::Symbol(_, _) => 1,
        Expr::Signed(_, operand) => symbols_in(operand),
        Expr::Pair(_, left, right) => symbols_in(left).saturating_add(symbols_in(right)),
        Expr::Paren(inner) => symbols_in(inner),
        _ => 0,
    }
}

/// The row of a symbol that gets a value, and with it a length, unless that is given.
fn give(row: &mut SymbolRow, sized: bool, length: u32, value: Reloc)
    ensures { row.new ≡ with_value row.old sized length value }
{
    row.value = Some(value);
    if !sized {
        row.attr.length = length;
    }
}

/// A symbol whose EQU is settled.
fn settle(held: &mut Held, outcome: Outcome)
    ensures { entry_of held.new ≡ settled held.old.row outcome.sized outcome.length outcome.value }
{
    let Outcome {
        sized,
        length,
        value,
    } = outcome;
    match value {
        Ok(value) => {
            give(&mut held.row, sized, length, value);
            held.standing = Standing::Settled;
        }
        Err(_) => {
            held.standing = Standing::Faulty;
        }
    }
}

/// How often an EQU is tried at most: once for each of its symbols, and once more.
fn most_tries(held: &Held) -> usize {
    match &held.standing {
        Standing::Deferred(deferred) => symbols_in(&deferred.expression).saturating_add(1),
        Standing::Settled | Standing::Faulty => 0,
    }
}

impl Symbols {
    /// What an EQU comes to, if it is ready.
    fn outcome(&self, held: &Held) -> Option<Outcome>
        ensures { MatchOption result (is_ready (known (table_of self.now)) (standing_of held.now.standing) ≡ false)
            (λ o. (is_ready (known (table_of self.now)) (standing_of held.now.standing) ≡ true)
            × (settled held.now.row o.sized o.length o.value ≡ settled_by (known (table_of self.now)) (standing_of held.now.standing) held.now.row)) }
    {
        let Standing::Deferred(deferred) = &held.standing else {
            return None;
        };
        if self.first_unknown(&deferred.expression).is_some() {
            return None;
        }
        Some(Outcome {
            sized: deferred.sized,
            length: self.equated_length(&deferred.expression),
            value: self.eval(&deferred.expression, deferred.here),
        })
    }

    /// Tries the symbol at a place, and says whether its EQU was settled.
    fn try_at(&mut self, at: usize) -> bool
        requires { at < length (table_of self.old) }
        ensures table { IfSome (slice_get (table_of self.old) at) (λ e. table_of self.new ≡ slice_set (table_of self.old) at (tried (known (table_of self.old)) e)) }
        ensures same { result ≡ false → table_of self.new ≡ table_of self.old }
        ensures resolved { resolved (table_of self.new) ≡ resolved (table_of self.old) }
    {
        match self.outcome(&self.rows[at]) {
            Some(outcome) => {
                settle(&mut self.rows[at], outcome);
                true
            }
            None => false,
        }
    }

    /// The place of the symbol for which an EQU waits, if it is defined.
    fn awaited(&self, at: usize) -> Option<usize> {
        let held = self.rows.get(at)?;
        let Standing::Deferred(deferred) = &held.standing else {
            return None;
        };
        let name = self.first_unknown(&deferred.expression)?;
        self.place(name)
    }

    /// All deferred EQUs are to be tried, and none waits.
    fn queue(&self, alloc: Global) -> Result<Queue, OutOfMemory> {
        let mut next = Vec::new(alloc);
        let mut waiting = Vec::new(alloc);
        for (at, held) in self.rows.iter().enumerate() {
            waiting.push(Vec::new(alloc))?;
            if let Standing::Deferred(_) = &held.standing {
                next.push(at)?;
            }
        }
        Ok(Queue { next, waiting })
    }

    /// How many EQUs are tried at most before the rounds.
    fn most_tries(&self) -> usize {
        let mut tries: usize = 0;
        for held in &self.rows {
            tries = tries.saturating_add(most_tries(held));
        }
        tries
    }

    /// Tries an EQU: those that wait for it are tried next, or it waits itself.
    fn advance(&mut self, at: usize, queue: &mut Queue) -> Result<(), OutOfMemory>
        ensures { resolved (table_of self.new) ≡ resolved (table_of self.old) }
    {
        if let Some(awaited) = self.awaited(at) {
            return queue.wait(at, awaited);
        }
        if at < self.rows.len() && self.try_at(at) {
            return queue.release(at);
        }
        Ok(())
    }

    /// Tries the deferred EQUs, each as often as it may have become ready.
    fn follow(&mut self, alloc: Global) -> Result<(), OutOfMemory>
        ensures { resolved (table_of self.new) ≡ resolved (table_of self.old) }
    {
        let mut queue = self.queue(alloc)?;
        let mut tries = self.most_tries();
        while tries > 0 {
            let Some(at) = queue.next.pop() else {
                return Ok(());
            };
            self.advance(at, &mut queue)?;
            tries -= 1;
        }
        Ok(())
    }

    /// Tries all symbols in order, and says whether an EQU was settled.
    #[tactic(auto, using(crate::proofs::Settling::turn_all))]
    fn round(&mut self) -> bool
        ensures table { table_of self.new ≡ round (table_of self.old) }
        ensures same { result ≡ false → table_of self.new ≡ table_of self.old }
    {
        let mut settled = false;
        for at in 0..self.rows.len() {
            if self.try_at(at) {
                settled = true;
            }
        }
        settled
    }

    /// Tries all symbols in rounds, until a round settles none.
    #[tactic(auto, using(crate::proofs::Settling::rounds_step, crate::proofs::Settling::rounds_last, crate::proofs::Settling::rounds_done, crate::proofs::Settling::rounds_all))]
    fn finish(&mut self)
        ensures { table_of self.new ≡ resolved (table_of self.old) }
    {
        let mut left = self.rows.len();
        while left > 0 {
            if !self.round() {
                return;
            }
            left -= 1;
        }
    }

    /// Tries the deferred EQUs in rounds, until a round settles none. After an `Err` some may be settled, and the call may
    /// be made again.
    pub fn resolve_deferred(&mut self, alloc: Global) -> Result<(), OutOfMemory>
        ensures ok { OnOk result (table_of self.new ≡ resolved (table_of self.old)) }
        ensures err { OnErr result (resolved (table_of self.new) ≡ resolved (table_of self.old)) }
    {
        self.follow(alloc)?;
        self.finish();
        Ok(())
    }
}
