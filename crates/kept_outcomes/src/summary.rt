//! What a run leaves beside its points.
ghost use Rattle.std.specs.Prelude.{◌≡◌, ◌+◌, ◌<◌, ◌^◌, false, OnOk, OnErr};
ghost use Rattle.asking_core.specs.Worlds.{moved};
ghost use Rattle.kept_values.specs.Trees.{Pair};
ghost use Rattle.asking_core.specs.Places.{pairs_of};
ghost use Rattle.kept_outcomes.specs.Outcomes.{blank_summary};
ghost use Rattle.kept_outcomes.specs.Moments.{reading, putting, counting_call, taking_unit, deepening, finding_no_room, telling_at, reading_child, putting_child, joining_kept, joined};

use asking_core::{AskMachine, Footprint, Noted, World, carry};
use hl_base::OutOfMemory;
use kept_values::Kept;
use std::alloc::Global;
use std::marker::Model;

/// What a run read of its world, what it put, in order, and how many calls it counted; the units of fuel that it took;
/// how many levels deeper than its call it came; whether a frame or a call found no room; and whether the world was told
/// of an outermost statement. From that on it keeps no longer what is read, put and counted.
#[derive(Drop)]
pub struct CallSummary<K: Kept, V: Kept> {
    read: Footprint<K, V>,
    puts: Vec<Noted<K, V>>,
    // The keys that were put, to be found.
    written: Footprint<K, V>,
    calls: u32,
    units: u32,
    levels: u32,
    no_room: bool,
    at_told: bool,
}

impl<K: Kept, V: Kept> Model for CallSummary<K, V> {
    ghost use Rattle.asking_core.specs.Places.{pairs_of};
    ghost use Rattle.kept_outcomes.specs.Outcomes.{CallSummary};
    ghost use Rattle.kept_outcomes.specs.Codes.{summary_code};

    ghost Value = { CallSummary };

    ghost coded = { summary_code };

    ghost use Rattle.kept_outcomes.specs.Pairs.{newest_first, HaveOneKeys};

    ghost view = { λ s. record {
      read = pairs_of K.code V.code s.read;
      puts = newest_first (pairs_of K.code V.code s.puts.items);
      calls = s.calls;
      units = s.units;
      levels = s.levels;
      no_room = s.no_room;
      at_told = s.at_told;
    } };

    ghost invariant = { λ s. HaveOneKeys (pairs_of K.code V.code s.written) (newest_first (pairs_of K.code V.code s.puts.items)) };
}

impl<K: Kept, V: Kept> CallSummary<K, V> {
    /// Nothing happened yet.
    pub fn new(alloc: Global) -> CallSummary<K, V>
        ensures { result ≡ blank_summary }
    {
        CallSummary {
            read: Footprint::new(alloc),
            puts: Vec::new(alloc),
            written: Footprint::new(alloc),
            calls: 0,
            units: 0,
            levels: 0,
            no_room: false,
            at_told: false,
        }
    }

    /// The units of fuel that were taken.
    pub fn units(&self) -> u32
        ensures { result ≡ self.now.units }
    {
        self.units
    }

    /// How many levels deeper than its call the run came.
    pub fn levels(&self) -> u32
        ensures { result ≡ self.now.levels }
    {
        self.levels
    }

    /// Whether a frame or a call found no room.
    pub fn found_no_room(&self) -> bool
        ensures { result ≡ self.now.no_room }
    {
        self.no_room
    }

    /// Whether the world was told of an outermost statement.
    pub fn was_told_at(&self) -> bool
        ensures { result ≡ self.now.at_told }
    {
        self.at_told
    }

    /// What was read of the world.
    pub fn read(&self) -> &Footprint<K, V>
        ensures { pairs_of K.code V.code result.now ≡ self.now.read }
    {
        &self.read
    }

    /// An answer was read.
    pub fn note_read(&mut self, alloc: Global, key: &K, value: &V) -> Result<(), OutOfMemory>
        ensures { OnOk result (self.new ≡ reading self.old (K.code key.now) (V.code value.now)) }
    {
        if self.at_told || self.written.is_noted(key) {
            return Ok(());
        }
        self.read.note_answer(key.copy(alloc)?, value.copy(alloc)?)
    }

    /// A key was given a value.
    pub fn note_put(&mut self, alloc: Global, key: &K, value: &V) -> Result<(), OutOfMemory>
        ensures { OnOk result (self.new ≡ putting self.old (K.code key.now) (V.code value.now)) }
    {
        if self.at_told {
            return Ok(());
        }
        let put = Noted {
            key: key.copy(alloc)?,
            value: value.copy(alloc)?,
        };
        self.push_put(alloc, put)
    }

    /// One put more.
    fn push_put(&mut self, alloc: Global, put: Noted<K, V>) -> Result<(), OutOfMemory>
        requires kept { self.old.at_told ≡ false }
        ensures { OnOk result (self.new ≡ putting self.old (K.code put.key) (V.code put.value)) }
    {
        let key = put.key.copy(alloc)?;
        let value = put.value.copy(alloc)?;
        self.puts.reserve(1)?;
        self.written.note_answer(key, value)?;
        self.puts.push_reserved(put);
        Ok(())
    }

    /// A call was counted.
    pub fn count_call(&mut self) -> Result<(), OutOfMemory>
        ensures ok { OnOk result (self.new ≡ counting_call self.old) }
        ensures err { OnErr result (self.new ≡ self.old) }
    {
        if self.at_told {
            return Ok(());
        }
        let Some(calls) = self.calls.checked_add(1) else {
            return Err(OutOfMemory);
        };
        self.calls = calls;
        Ok(())
    }

    /// A unit of fuel was taken.
    pub fn take_unit(&mut self)
        requires fits { self.old.units + 1 < 2 ^ 32 }
        ensures { self.new ≡ taking_unit self.old }
    {
        self.units += 1;
    }

    /// A frame more stands open, or a call is entered, where so many frames stand open.
    pub fn deepen(&mut self, frames: u32)
        requires fits { frames + 1 < 2 ^ 32 }
        ensures { self.new ≡ deepening self.old frames }
    {
        self.levels = self.levels.max(frames + 1);
    }

    /// A frame or a call found no room.
    pub fn find_no_room(&mut self)
        ensures { self.new ≡ finding_no_room self.old }
    {
        self.no_room = true;
    }

    /// The world was told of an outermost statement.
    pub fn tell_at(&mut self)
        ensures { self.new ≡ telling_at self.old }
    {
        self.at_told = true;
    }

    /// What a nested call left is joined, where so many frames stand open in its caller.
    pub fn join<M: AskMachine<Key = K, Value = V>>(
        &mut self,
        machine: &M,
        alloc: Global,
        child: &CallSummary<K, V>,
        frames: u32,
    ) -> Result<(), OutOfMemory>
        requires units { self.old.units + child.now.units < 2 ^ 32 }
        requires levels { frames + 1 + child.now.levels < 2 ^ 32 }
        ensures { OnOk result (self.new ≡ joined M.rebased frames self.old child.now) }
    {
        self.join_kept(machine, alloc, child)?;
        self.units += child.units;
        self.levels = self.levels.max(frames + 1 + child.levels);
        self.no_room = self.no_room || child.no_room;
        self.at_told = self.at_told || child.at_told;
        Ok(())
    }

    /// What a nested call has to do with the world is joined, unless an outermost statement came.
    fn join_kept<M: AskMachine<Key = K, Value = V>>(
        &mut self,
        machine: &M,
        alloc: Global,
        child: &CallSummary<K, V>,
    ) -> Result<(), OutOfMemory>
        ensures { OnOk result (self.new ≡ joining_kept M.rebased self.old child.now) }
    {
        if self.at_told || child.at_told {
            return Ok(());
        }
        self.join_read(machine, alloc, child)?;
        self.join_puts(alloc, child)?;
        let Some(calls) = self.calls.checked_add(child.calls) else {
            return Err(OutOfMemory);
        };
        self.calls = calls;
        Ok(())
    }

    /// What a nested call read is read by its caller too, unless the caller had put it.
    fn join_read<M: AskMachine<Key = K, Value = V>>(
        &mut self,
        machine: &M,
        alloc: Global,
        child: &CallSummary<K, V>,
    ) -> Result<(), OutOfMemory>
        ensures { OnOk result (self.new ≡ reading_child M.rebased self.old child.now) }
    {
        let carried = carry(machine, alloc, &child.read, &self.written, self.calls)?;
        self.read.merge_child(alloc, &carried)?;
        Ok(())
    }

    /// What a nested call put is put by its caller too.
    fn join_puts(&mut self, alloc: Global, child: &CallSummary<K, V>) -> Result<(), OutOfMemory>
        requires kept { self.old.at_told ≡ false }
        ensures { OnOk result (self.new ≡ putting_child self.old child.now) }
    {
        let puts = child.puts.as_slice();
        for put in puts {
            let put = Noted {
                key: put.key.copy(alloc)?,
                value: put.value.copy(alloc)?,
            };
            self.push_put(alloc, put)?;
        }
        Ok(())
    }

    /// Puts and counts in a world what was put and counted. Where there is no memory, the first of the puts are made.
    pub fn replay<W: World<Key = K, Value = V>>(
        &self,
        alloc: Global,
        world: &mut W,
    ) -> Result<(), OutOfMemory>
        ensures { OnOk result (W.state world.new ≡ moved W.model (W.state world.old) self.now.puts self.now.calls) }
    {
        let puts = self.puts.as_slice();
        for put in puts {
            world.put(alloc, put.key.copy(alloc)?, put.value.copy(alloc)?)?;
        }
        world.bump(self.calls);
        Ok(())
    }
}
