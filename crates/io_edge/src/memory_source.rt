//! A source that holds its bytes.
ghost use Rattle.std.specs.Prelude.{◌≡◌, ℕ, ◌+◌, ◌-◌, ◌<◌, ◌≤◌, ◌↔◌, ◌++◌, Ok, length, take, drop, min, IfOk, IfSome, IsErr, All};
ghost use Rattle.std.specs.Option.{option_map};
ghost use Rattle.io_edge.specs.MemorySource.{piece_limit, turned};
ghost use Rattle.io_edge.specs.Told.{Gives, counted, overwritten, IsAtEnd, HasCause, first_wait};

use crate::number::is_listed;
use crate::piece::give;
use crate::{Failed, Source};
use std::marker::Model;

/// A source that holds its bytes and gives them in pieces of set sizes. Contracts see what it holds.
#[derive(Drop)]
pub struct MemorySource {
    bytes: Vec<u8>,
    taken: usize,
    sizes: Vec<usize>,
    turn: usize,
    answers: Vec<bool>,
    asked: usize,
    failing: Vec<u64>,
    takes: u64,
    refusals: u64,
}

impl Model for MemorySource {
    ghost use Rattle.std.specs.Prelude.{ℕ, ◌-◌, ◌<◌, ◌≤◌, ◌++◌, drop, take, vec_len, All};
    ghost use Rattle.io_edge.specs.MemorySource.{Supply};

    ghost Value = { Supply };

    ghost view = { λ s. record {
      bytes = drop s.taken s.bytes.items;
      sizes = drop s.turn s.sizes.items ++ take s.turn s.sizes.items;
      answers = drop s.asked s.answers.items;
      failing = s.failing.items;
      takes = s.takes;
      refusals = s.refusals;
    } };

    ghost invariant = { λ s. record {
      taken_within : s.taken ≤ vec_len s.bytes;
      turn_within : s.turn ≤ vec_len s.sizes - 1;
      asked_within : s.asked ≤ vec_len s.answers;
      sizes_positive : All (λ size. 0 < size) s.sizes.items;
    } };
}

/// How many bytes the size whose turn it is allows where there is room for so many.
fn allowed(sizes: &[usize], turn: usize, room: usize) -> usize
    requires { turn ≤ length sizes.now - 1 }
    ensures { result ≡ piece_limit (drop turn sizes.now ++ take turn sizes.now) room }
{
    match sizes.get(turn) {
        Some(size) => room.min(*size),
        None => room,
    }
}

/// The place of the next size, from the first again behind the last.
fn next_turn(sizes: &[usize], turn: usize) -> usize
    requires { turn ≤ length sizes.now - 1 }
    ensures turned { drop result sizes.now ++ take result sizes.now
        ≡ turned (drop turn sizes.now ++ take turn sizes.now) }
    ensures within { result ≤ length sizes.now - 1 }
{
    if turn + 1 < sizes.len() { turn + 1 } else { 0 }
}

impl MemorySource {
    ghost use Rattle.io_edge.specs.MemorySource.{Supply};

    /// A source of these bytes. A take gives at most the next of the sizes, from the first again when they are used
    /// up; no size sets no limit. `waiting` answers what is listed and then `false`. The takes of the numbers that
    /// are listed last fail; every take counts, from 1.
    pub fn new(
        bytes: Vec<u8>,
        sizes: Vec<usize>,
        waiting: Vec<bool>,
        failing: Vec<u64>,
    ) -> MemorySource
        requires { All (λ size. 0 < size) sizes.items }
        ensures { result ≡ record {
          bytes = bytes.items;
          sizes = sizes.items;
          answers = waiting.items;
          failing = failing.items;
          takes = 0;
          refusals = 0;
        } }
    {
        MemorySource {
            bytes,
            taken: 0,
            sizes,
            turn: 0,
            answers: waiting,
            asked: 0,
            failing,
            takes: 0,
            refusals: 0,
        }
    }

    /// The bytes not yet taken.
    pub fn rest(&self) -> &[u8]
        ensures { result.now ≡ self.now.bytes }
    {
        let (_, rest) = self.bytes.split_at(self.taken);
        rest
    }

    /// How many takes failed, or the greatest u64.
    pub fn refusals(&self) -> u64
        ensures { result ≡ self.now.refusals }
    {
        self.refusals
    }
}

impl Source for MemorySource {
    ghost use Rattle.std.specs.Prelude.{Some};
    ghost use Rattle.io_edge.specs.Counts.{IsToFail};
    ghost use Rattle.io_edge.specs.MemorySource.{Supply, given_len, after_take};

    ghost left = { λ s. Some s.bytes };

    ghost waits = { λ s. Some s.answers };

    ghost faults = { λ s. s.refusals };

    fn take(&mut self, buf: &mut [u8]) -> Result<usize, Failed>
        ensures bound { IfOk result (λ n. n ≤ length buf.old) }
        ensures given { Gives (Some self.old.bytes) (counted result buf.new) (Some self.new.bytes) }
        ensures end { result ≡ Ok 0 → 0 < length buf.old → IsAtEnd (Some self.old.bytes) }
        ensures waits { Some self.new.answers ≡ Some self.old.answers }
        ensures cause { HasCause self.old.refusals self.new.refusals result }

        ensures refused { IsErr result ↔ IsToFail self.old.failing self.old.takes }
        ensures count { IfOk result (λ n. n ≡ given_len self.old (length buf.old)) }
        ensures buffer { buf.new ≡ overwritten (counted result self.old.bytes) buf.old }
        ensures after { self.new ≡ after_take self.old result }
    {
        self.takes = self.takes.saturating_add(1);
        if is_listed(&self.failing, self.takes) {
            self.refusals = self.refusals.saturating_add(1);
            return Err(Failed);
        }
        let most = allowed(&self.sizes, self.turn, buf.len());
        let (_, rest) = self.bytes.split_at(self.taken);
        let count = give(rest, most, buf);
        self.taken += count;
        self.turn = next_turn(&self.sizes, self.turn);
        Ok(count)
    }

    fn waiting(&mut self) -> bool
        ensures answer { IfSome (Some self.old.answers) (λ answers. result ≡ first_wait answers) }
        ensures rest { Some self.new.answers ≡ option_map (drop 1) (Some self.old.answers) }
        ensures left { Some self.new.bytes ≡ Some self.old.bytes }
        ensures faults { self.new.refusals ≡ self.old.refusals }

        ensures after { self.new ≡ record self.old { answers = drop 1 self.old.answers } }
    {
        match self.answers.get(self.asked) {
            Some(answer) => {
                let answer = *answer;
                self.asked += 1;
                answer
            }
            None => false,
        }
    }
}
