//! A rank that goes through phases.
ghost use Rattle.std.specs.Prelude.{◌≡◌, suc, ◌≤◌, ◌<◌, ◌+◌, ◌-◌, ◌^◌, ◌∷◌, ◌++◌, [], ℕ, true, false, not, map, IfOk, IsOk, IsTrue, OnErr, OnOk, IsSome, List, Some, None, ◌↔◌, length, slice_get};
ghost use Rattle.std.specs.Option.{option_map};
ghost use Rattle.peers.specs.Peers.{IsLetterTo, was_given};
ghost use Rattle.peers.specs.Protocols.{stands_in};
ghost use Rattle.rank_phases.specs.Phases.{IsPhased};
ghost use Rattle.rank_phases.specs.Stages.{Stage, CanAbsorbAll, CanSendAll, absorbing};
ghost use Rattle.rank_phases.specs.Queues.{letters_of};

use crate::letter::{has, has_letter, take_out, take_out_all};
use crate::outbox::Outbox;
use crate::{Early, Letter, Worker};
use outside::Name;
use std::alloc::{AllocError, Global};

/// A rank that goes through phases, counted from 0. Its worker does what is to be done in each.
#[derive(Drop)]
pub struct Phased<W> {
    alloc: Global,
    worker: W,
    phases: u32,
    // how many phases were entered, the end counting as one
    entered: u32,
    // the letters of the phase entered last that were not given
    awaited: Vec<Name>,
    // the letters of later phases that were given
    early: Early,
    // the letters that are to be sent, in order
    queue: Outbox,
    failed: bool,
}

impl<W: Worker + Drop> Phased<W> {
    ghost use Rattle.rank_phases.specs.Ranks.{Course, HasWorked, Holds, IsPhaseOf, giving, has_failed, is_past, phases_entered, queued, sending, stage_of};
    ghost use Rattle.peers.specs.Peers.{PeerState};
    ghost use Rattle.rank_phases.specs.PhasedPeers.{IsPeer, IsResult};
    ghost use Rattle.outside.specs.declared.name.Name.{Name};

    /// A rank that has entered no phase.
    pub(crate) fn start(alloc: Global, worker: W) -> Phased<W>
        ensures entered { result.entered ≡ 0 }
        ensures queue { result.queue ≡ [] }
        ensures holds { (c : Course) → c.given ≡ [] → c.sent ≡ [] → IsPhased c.protocol c.phases → W.stands worker (stage_of c 0) → Holds W.stands result c }
    {
        Phased {
            alloc,
            phases: worker.phases(),
            worker,
            entered: 0,
            awaited: Vec::new(alloc),
            early: Early::new(alloc),
            queue: Outbox::new(alloc),
            failed: false,
        }
    }

    /// Whether the letter was given before.
    fn is_repeat(&self, name: Name) -> bool
        ensures { (c : Course) → Holds W.stands self.now c → stands_in c.protocol.names name ≡ true → name.to ≡ c.rank → result ≡ was_given c.given name }
    {
        if name.phase >= self.entered {
            return has_letter(self.early.letters(name.phase), name);
        }
        name.phase + 1 < self.entered || !has(&self.awaited, name)
    }

    /// Absorbs a letter of the phase that was entered last.
    fn absorb(&mut self, name: Name, bytes: &[u8]) -> Result<(), AllocError>
        requires here { name.phase < self.old.entered }
        requires first { (c : Course) × (Holds W.stands self.old c × (IsLetterTo c.protocol c.rank name bytes.now × (was_given c.given name ≡ false))) }
        ensures stays { OnOk result ((phases_entered self.new ≡ phases_entered self.old) × (queued self.new ≡ queued self.old)) }
        ensures gives { OnOk result ((c : Course) → Holds W.stands self.old c → IsLetterTo c.protocol c.rank name bytes.now → was_given c.given name ≡ false → Holds W.stands self.new (giving c name bytes.now)) }
    {
        self.worker.absorb(name, bytes)?;
        take_out(&mut self.awaited, name);
        Ok(())
    }

    /// Keeps a letter of a later phase.
    fn keep(&mut self, name: Name, bytes: &[u8]) -> Result<(), AllocError>
        requires { self.old.entered ≤ name.phase }
        ensures stays { OnOk result ((phases_entered self.new ≡ phases_entered self.old) × (queued self.new ≡ queued self.old)) }
        ensures gives { OnOk result ((c : Course) → Holds W.stands self.old c → IsLetterTo c.protocol c.rank name bytes.now → was_given c.given name ≡ false → Holds W.stands self.new (giving c name bytes.now)) }
    {
        self.early.keep(name, bytes)
    }

    /// Takes a letter that was not given before.
    fn take(&mut self, name: Name, bytes: &[u8]) -> Result<(), AllocError>
        requires { (c : Course) × (Holds W.stands self.old c × (IsLetterTo c.protocol c.rank name bytes.now × (was_given c.given name ≡ false))) }
        ensures stays { OnOk result ((phases_entered self.new ≡ phases_entered self.old) × (queued self.new ≡ queued self.old)) }
        ensures gives { OnOk result ((c : Course) → Holds W.stands self.old c → IsLetterTo c.protocol c.rank name bytes.now → was_given c.given name ≡ false → Holds W.stands self.new (giving c name bytes.now)) }
    {
        if name.phase < self.entered {
            self.absorb(name, bytes)
        } else {
            self.keep(name, bytes)
        }
    }

    /// Gives the rank a letter to it. `false` exactly where this letter was given before: then nothing changes, and no
    /// memory is taken. One of the phase that the rank is in is absorbed at once. One of a later phase waits as a copy of
    /// its bytes until its phase is entered.
    pub fn on_letter(&mut self, name: Name, bytes: &[u8]) -> Result<bool, AllocError>
        requires { (c : Course) × (Holds W.stands self.old c × IsLetterTo c.protocol c.rank name bytes.now) }
        ensures first { IfOk result (λ first. (c : Course) → Holds W.stands self.old c → IsLetterTo c.protocol c.rank name bytes.now → first ≡ not (was_given c.given name)) }
        ensures repeat { IfOk result (λ first. first ≡ false → self.new ≡ self.old) }
        ensures gives { IfOk result (λ first. first ≡ true → (c : Course) → Holds W.stands self.old c → IsLetterTo c.protocol c.rank name bytes.now → Holds W.stands self.new (giving c name bytes.now)) }
        ensures no_memory { (c : Course) → Holds W.stands self.old c → IsLetterTo c.protocol c.rank name bytes.now → was_given c.given name ≡ true → IsOk result }
        ensures stays { OnOk result ((phases_entered self.new ≡ phases_entered self.old) × (queued self.new ≡ queued self.old)) }
        ensures fails { OnErr result (has_failed self.new ≡ true) }
    {
        if self.is_repeat(name) {
            return Ok(false);
        }
        match self.take(name, bytes) {
            Ok(()) => Ok(true),
            Err(error) => {
                self.failed = true;
                Err(error)
            }
        }
    }

    /// Enters the next phase: the worker does what it has to, its letters are queued, and it absorbs those that came
    /// early.
    fn enter_next(&mut self) -> Result<(), AllocError>
        requires none_awaited { self.old.awaited.items ≡ [] }
        requires left { self.old.entered ≤ self.old.phases }
        requires holds { (c : Course) × Holds W.stands self.old c }
        ensures one_more { OnOk result (self.new.entered ≡ self.old.entered + 1) }
        ensures same_phases { OnOk result (self.new.phases ≡ self.old.phases) }
        ensures holds { OnOk result ((c : Course) → Holds W.stands self.old c → Holds W.stands self.new c) }
    {
        let phase = self.entered;
        let entered = self.queue.enter(&mut self.worker, phase)?;
        post_all(&self.worker, &entered.posts, &mut self.queue)?;
        let early = self.early.take(phase);
        absorb_all(&mut self.worker, &early)?;
        self.awaited = entered.awaits;
        take_out_all(&mut self.awaited, &early);
        self.entered = phase + 1;
        Ok(())
    }

    /// Enters phases until a letter is awaited or the end is reached.
    fn work_off(&mut self) -> Result<(), AllocError>
        requires { (c : Course) × Holds W.stands self.old c }
        ensures holds { OnOk result ((c : Course) → Holds W.stands self.old c → Holds W.stands self.new c) }
        ensures worked { OnOk result (self.new.awaited.items ≡ [] → self.new.phases < self.new.entered) }
    {
        while self.awaited.is_empty() && self.entered <= self.phases {
            self.enter_next()?;
        }
        Ok(())
    }

    /// Works until a letter is awaited or the end is reached: enters phases, queues their letters, and absorbs those of
    /// them that came early.
    pub fn work(&mut self) -> Result<(), AllocError>
        requires { (c : Course) × Holds W.stands self.old c }
        ensures works { OnOk result ((c : Course) → Holds W.stands self.old c → HasWorked W.stands self.new c) }
        ensures fails { OnErr result (has_failed self.new ≡ true) }
    {
        match self.work_off() {
            Ok(()) => Ok(()),
            Err(error) => {
                self.failed = true;
                Err(error)
            }
        }
    }

    /// The phase that a rank which has worked is in: the first of which it awaits a letter. At the end it is the number
    /// of phases.
    pub fn phase(&self) -> u32
        ensures { (c : Course) → HasWorked W.stands self.now c → IsPhaseOf c result (is_past self.now) }
    {
        self.entered.saturating_sub(1)
    }

    /// Whether the end was reached.
    pub fn is_done(&self) -> bool
        ensures { result ≡ is_past self.now }
    {
        self.entered > self.phases
    }

    /// Whether `work` or `on_letter` ran out of memory. Nothing else is said of such a rank.
    pub fn is_failed(&self) -> bool
        ensures { result ≡ has_failed self.now }
    {
        self.failed
    }

    /// The name of the letter that was queued first. None exactly where none is queued.
    pub fn first_post(&self) -> Option<Name>
        ensures { result ≡ option_map (λ l. l.0) (slice_get (queued self.now) 0) }
    {
        self.queue.first()
    }

    /// The bytes of the letter that was queued first.
    pub fn post_bytes(&self) -> &[u8]
        requires { 0 < length (queued self.now) }
        ensures { option_map (λ l. l.1) (slice_get (queued self.now) 0) ≡ Some result.now }
    {
        self.queue.first_bytes()
    }

    /// Takes the letter that was queued first out of the queue, and gives its block back. Takes no memory.
    pub fn sent(&mut self)
        requires { 0 < length (queued self.old) }
        ensures stays { phases_entered self.new ≡ phases_entered self.old }
        ensures same_failed { has_failed self.new ≡ has_failed self.old }
        ensures rest { (l : Name × List ℕ) → slice_get (queued self.old) 0 ≡ Some l → queued self.old ≡ l ∷ queued self.new }
        ensures holds { (c : Course) (l : Name × List ℕ) → slice_get (queued self.old) 0 ≡ Some l → Holds W.stands self.old c → Holds W.stands self.new (sending c l) }
        ensures worked { (c : Course) (l : Name × List ℕ) → slice_get (queued self.old) 0 ≡ Some l → HasWorked W.stands self.old c → HasWorked W.stands self.new (sending c l) }
    {
        self.queue.take_out();
    }

    /// The worker, which tells what it made. At the end it has absorbed all letters.
    pub fn worker(&self) -> &W
        ensures worker { (c : Course) → Holds W.stands self.now c → W.stands result.now (stage_of c (phases_entered self.now)) }
        ensures at_end { (c : Course) → Holds W.stands self.now c → is_past self.now ≡ true → phases_entered self.now ≡ suc c.phases }
        ensures peer { (s : PeerState) → IsPeer W.stands self.now s → s.has_worked ≡ true → IsResult W.stands result.now s }
    {
        &self.worker
    }

    /// The number of blocks of the rank's pool that are lent: one for each letter that is queued, and no other. Takes no
    /// memory.
    pub fn live_blocks(&self) -> u64
        ensures { result ≡ length (queued self.now) }
    {
        self.queue.live_blocks()
    }
}

/// Puts the letters with these names behind the queue.
fn post_all<W: Worker>(worker: &W, names: &[Name], queue: &mut Outbox) -> Result<(), AllocError>
    requires { (s : Stage) × (W.stands worker.now s × CanSendAll s names.now) }
    ensures { OnOk result ((s : Stage) → W.stands worker.now s → CanSendAll s names.now
        → queue.new ≡ queue.old ++ map (λ n. (n, s.protocol.content n s.absorbed)) names.now) }
{
    for name in names {
        queue.post(worker, *name)?;
    }
    Ok(())
}

/// Absorbs letters, in order.
fn absorb_all<W: Worker>(worker: &mut W, letters: &[Letter]) -> Result<(), AllocError>
    requires { (s : Stage) × (W.stands worker.old s × CanAbsorbAll s (letters_of letters.now)) }
    ensures { OnOk result ((s : Stage) → W.stands worker.old s → CanAbsorbAll s (letters_of letters.now) → W.stands worker.new (absorbing s (letters_of letters.now))) }
{
    for letter in letters {
        worker.absorb(letter.name, &letter.bytes)?;
    }
    Ok(())
}
