//! What a rank of a job does in its phases.
ghost use Rattle.std.specs.Prelude.{◌≡◌, ◌<◌, ℕ, List, Option, None, Some, ◌∷◌, [], true, false, is_some, IfOk, OnOk, OnErr, length, slice_get, suc};
ghost use Rattle.byte_pool.specs.Leases.{leases, with_lease};
ghost use Rattle.mm_text.specs.Reading.{File};
ghost use Rattle.model_defs.specs.Machine.{job_protocol};
ghost use Rattle.model_defs.specs.declared.phase.About.TheVariants.{SendNumbers};
ghost use Rattle.model_defs.specs.declared.phase.Phase.{Phase};
ghost use Rattle.model_defs.specs.Makers.{value_count};
ghost use Rattle.model_defs.specs.Phases.{phases};
ghost use Rattle.rank_phases.specs.Phases.{names_from, names_to};
ghost use Rattle.rank_phases.specs.Stages.{Stage, CanAbsorb, CanEnter, CanSend, absorbing, beginning, entering};
ghost use Rattle.rank_stages.specs.JobStages.{about_at};
ghost use Rattle.rank_stages.specs.LetterLaws.{sends_numbers};
ghost use Rattle.rank_pieces.specs.Inputs.{IsRankInput};
ghost use Rattle.rank_pieces.specs.Pieces.{AreOwnPieces};
ghost use Rattle.rank_core.specs.Leaving.{IsLeft};
ghost use Rattle.rank_core.specs.Makings.{IsSending};
ghost use Rattle.rank_core.specs.declared.makings.Making.TheVariants.{Arriving};

use crate::counts::EntryCounts;
use crate::lists::plan_list;
use crate::makings::Making;
use crate::names::row_letters;
use crate::next::{arrived_of, finished_value, next_making, put_piece};
use byte_pool::{Lease, Pool};
use model_defs::{About, Job, Phase, Shape, shapes};
use multivector::MultiVector;
use outside::Name;
use phase_list::phases;
use plan_phases::{absorb_words, enter_phase, finish_phase, phase_words};
use rank_makings::{Coming, begin_coming};
use rank_phases::{Entered, Worker, names_from_others, names_to_others};
use rank_pieces::{Piece, add_pieces};
use rank_plans::PlanBook;
use rank_share::Share;
use scalar_laws::Scalar;
use std::alloc::{AllocError, Global};
use std::rc::Rc;
use word_letters::{entries_of_letter, lease_words, words_of_letter};

/// The worker of a rank of a job: the job, the rank's share of the files, its pieces of the values that were made, its maps and
/// plans, and what it has of the value for which its phase is.
#[derive(Drop)]
pub struct JobWorker<S> {
    alloc: Global,
    me: u32,
    job: Rc<Job>,
    share: Share,
    shapes: Vec<Shape>,
    phases: Vec<Phase>,
    phase_count: u32,
    values: Vec<Piece<S>>,
    book: PlanBook,
    making: Option<Making<S>>,
    counts: EntryCounts,
}

/// Whether numbers come.
fn is_arriving<S: Scalar>(making: &Option<Making<S>>) -> bool
    ensures yes { result ≡ true → (c : Coming S) × (making.now ≡ Some (Arriving c)) }
    ensures no { result ≡ false → (c : Coming S) → making.now ≡ Some (Arriving c) → ⊥ }
{
    matches!(making, Some(Making::Arriving(_)))
}

impl<S: Scalar> JobWorker<S> {
    ghost use Rattle.rank_core.specs.Counts.{count_of};
    ghost use Rattle.rank_core.specs.Pieces.{count_before};
    ghost use Rattle.rank_core.specs.Workers.{IsJobWorker, IsLeaving, IsReady};

    /// A worker that entered no phase. `Err` means that memory ran out.
    pub(crate) fn new(
        alloc: Global,
        me: u32,
        job: Rc<Job>,
        share: Share,
    ) -> Result<JobWorker<S>, AllocError>
        requires input { (files : List File) × IsRankInput S.conversions job.value files me share }
        ensures stands { IfOk result (λ worker. (files : List File) → IsRankInput S.conversions job.value files me share
            → IsJobWorker S.semiring S.conversions worker (beginning (job_protocol S.semiring S.conversions job.value files) (length (phases job.value)) me)) }
    {
        let shapes = shapes(alloc, &job)?;
        let phases = phases(alloc, &job)?;
        let book = PlanBook::new(alloc, me, job.ranks);
        Ok(JobWorker {
            alloc,
            me,
            job,
            share,
            shapes,
            phase_count: phases.len() as u32,
            phases,
            values: Vec::new(alloc),
            book,
            making: None,
            counts: EntryCounts::new(alloc),
        })
    }

    /// The pieces of the values that were made, by the number of the value.
    pub(crate) fn values(&self) -> &[Piece<S>]
        ensures values { result.now ≡ self.now.values.items }
    {
        &self.values
    }

    /// How many entries the letter has that another rank sent in a phase, if it came. It takes no memory.
    pub(crate) fn entries_from(&self, phase: u32, from: u32) -> Option<u64>
        ensures count { result ≡ count_of self.now.counts (record { phase = phase; from = from; to = self.now.me }) }
    {
        self.counts.get(Name {
            phase,
            from,
            to: self.me,
        })
    }

    /// Finishes the phase before this one, if there is one.
    fn finish_last(&mut self, phase: u32) -> Result<(), AllocError>
        requires { (s : Stage) × (IsJobWorker S.semiring S.conversions self.old s × CanEnter s phase) }
        ensures { OnOk result ((s : Stage) → IsJobWorker S.semiring S.conversions self.old s → CanEnter s phase → IsLeaving S.semiring S.conversions self.new s) }
    {
        if phase == 0 {
            return Ok(());
        }
        let about = self.phases[phase as usize - 1].about;
        finish_phase::<S>(self.alloc, &mut self.book, &self.job, about)
    }

    /// The phase of this number; at the end none.
    fn next_phase(&self, phase: u32) -> Option<Phase>
        ensures { result ≡ slice_get self.now.phases.items phase }
    {
        self.phases.get(phase as usize).copied()
    }

    /// How many values come before that of this phase; at the end all.
    fn count_before(&self, phase: u32) -> usize
        requires { length self.now.shapes.items ≡ value_count self.now.job.value }
        ensures { result ≡ count_before self.now.job.value (slice_get self.now.phases.items phase) }
    {
        match self.phases.get(phase as usize) {
            Some(next) => next.value,
            None => self.shapes.len(),
        }
    }

    /// Makes the values before that of this phase, at the end all, and what the phase needs of its own one.
    fn make(&mut self, phase: u32) -> Result<(), AllocError>
        requires { (s : Stage) × (IsLeaving S.semiring S.conversions self.old s × CanEnter s phase) }
        ensures { OnOk result ((s : Stage) → IsLeaving S.semiring S.conversions self.old s → CanEnter s phase → IsReady S.semiring S.conversions self.new s) }
    {
        let count = self.count_before(phase);
        let left = self.leave(phase, count)?;
        let next = next_making(
            self.alloc,
            &self.job,
            self.me,
            &self.share,
            &self.shapes,
            &self.values,
            count,
            left,
        )?;
        self.put_making(next);
        Ok(())
    }

    /// What is made from now on.
    fn put_making(&mut self, making: Option<Making<S>>)
        ensures put { self.new ≡ record self.old { making = making } }
    {
        self.making = making;
    }

    /// Makes the values before this number of them; where all are there, takes what is in the making of the next one.
    fn leave(&mut self, phase: u32, count: usize) -> Result<Option<Making<S>>, AllocError>
        requires leaving { (s : Stage) × (IsLeaving S.semiring S.conversions self.old s × CanEnter s phase) }
        requires count { count ≡ count_before self.old.job.value (slice_get self.old.phases.items phase) }
        ensures pieces { OnOk result ((s : Stage) (l : IsLeaving S.semiring S.conversions self.old s) → CanEnter s phase
            → AreOwnPieces S.semiring S.conversions self.old.job.value l.stands_so.files self.old.me s.absorbed count self.new.values.items) }
        ensures left { IfOk result (λ m. IsLeft self.old.values.items self.new.values.items count self.old.making m) }
        ensures stays { OnOk result (self.new ≡ record self.old { values = self.new.values; making = None }) }
    {
        if self.values.len() < count {
            self.finish_value(phase, count)?;
            return Ok(None);
        }
        Ok(self.making.take())
    }

    /// Makes the value that is left, and those behind it up to so many, which are made without letters.
    fn finish_value(&mut self, phase: u32, count: usize) -> Result<(), AllocError>
        requires leaving { (s : Stage) × (IsLeaving S.semiring S.conversions self.old s × CanEnter s phase) }
        requires count { count ≡ count_before self.old.job.value (slice_get self.old.phases.items phase) }
        requires more { length self.old.values.items < count }
        ensures pieces { OnOk result ((s : Stage) (l : IsLeaving S.semiring S.conversions self.old s) → CanEnter s phase
            → AreOwnPieces S.semiring S.conversions self.old.job.value l.stands_so.files self.old.me s.absorbed count self.new.values.items) }
        ensures making { self.new.making ≡ None }
        ensures stays { OnOk result (self.new ≡ record self.old { values = self.new.values; making = None }) }
    {
        let made = finished_value(
            self.alloc,
            &self.job,
            self.me,
            &self.shapes,
            &self.book,
            &self.values,
            self.values.len(),
            self.making.take(),
        )?;
        put_piece(&mut self.values, made)?;
        add_pieces(
            self.alloc,
            &mut self.values,
            &self.job,
            self.me,
            &self.share,
            count,
        )
    }

    /// Enters a phase that is about a map or a plan.
    fn enter_plan(&mut self, phase: u32, about: About) -> Result<Entered, AllocError>
        requires ready { (s : Stage) × (IsReady S.semiring S.conversions self.old s × CanEnter s phase) }
        requires is { about_at self.old.job.value phase ≡ Some about }
        requires plain { sends_numbers about ≡ false }
        ensures posts { IfOk result (λ e. (s : Stage) → IsReady S.semiring S.conversions self.old s → CanEnter s phase → e.posts.items ≡ names_from s.protocol.names phase s.rank) }
        ensures awaits { IfOk result (λ e. (s : Stage) → IsReady S.semiring S.conversions self.old s → CanEnter s phase → e.awaits.items ≡ names_to s.protocol.names phase s.rank) }
        ensures enters { OnOk result ((s : Stage) → IsReady S.semiring S.conversions self.old s → CanEnter s phase → IsJobWorker S.semiring S.conversions self.new (entering s)) }
    {
        let list = plan_list(
            self.alloc,
            &self.job,
            self.me,
            &self.share,
            about,
            &self.making,
        )?;
        enter_phase::<S>(
            self.alloc,
            &mut self.book,
            &self.job,
            &self.shapes,
            about,
            &list,
        )?;
        let ranks = self.job.ranks;
        Ok(Entered {
            posts: names_to_others(self.alloc, ranks, phase, self.me)?,
            awaits: names_from_others(self.alloc, ranks, phase, self.me)?,
        })
    }

    /// Enters a phase that sends the numbers of value k at a stage.
    fn enter_numbers(&mut self, phase: u32, k: usize, stage: usize) -> Result<Entered, AllocError>
        requires ready { (s : Stage) × (IsReady S.semiring S.conversions self.old s × CanEnter s phase) }
        requires next { IsSending self.old.job.value phase k stage }
        ensures posts { IfOk result (λ e. (s : Stage) → IsReady S.semiring S.conversions self.old s → CanEnter s phase → e.posts.items ≡ names_from s.protocol.names phase s.rank) }
        ensures awaits { IfOk result (λ e. (s : Stage) → IsReady S.semiring S.conversions self.old s → CanEnter s phase → e.awaits.items ≡ names_to s.protocol.names phase s.rank) }
        ensures enters { OnOk result ((s : Stage) → IsReady S.semiring S.conversions self.old s → CanEnter s phase → IsJobWorker S.semiring S.conversions self.new (entering s)) }
    {
        let came = arrived_of(self.making.take());
        let coming = begin_coming(
            self.alloc,
            &self.job,
            self.me,
            &self.share,
            &self.shapes,
            &self.book,
            &self.values,
            came,
            k,
            stage,
        )?;
        let ranks = self.job.ranks;
        let entered = row_letters(self.alloc, ranks, phase, self.me, &coming)?;
        self.making = Some(Making::Arriving(coming));
        Ok(entered)
    }

    /// Enters the phase, or the end.
    fn begin(&mut self, phase: u32, pool: &mut Pool) -> Result<Entered, AllocError>
        requires { (s : Stage) × (IsReady S.semiring S.conversions self.old s × CanEnter s phase) }
        ensures posts { IfOk result (λ e. (s : Stage) → IsReady S.semiring S.conversions self.old s → CanEnter s phase → e.posts.items ≡ names_from s.protocol.names phase s.rank) }
        ensures awaits { IfOk result (λ e. (s : Stage) → IsReady S.semiring S.conversions self.old s → CanEnter s phase → e.awaits.items ≡ names_to s.protocol.names phase s.rank) }
        ensures enters { OnOk result ((s : Stage) → IsReady S.semiring S.conversions self.old s → CanEnter s phase → IsJobWorker S.semiring S.conversions self.new (entering s)) }
        ensures same_leases { leases pool.new ≡ leases pool.old }
    {
        match self.next_phase(phase) {
            None => Ok(Entered {
                posts: Vec::new(self.alloc),
                awaits: Vec::new(self.alloc),
            }),
            Some(next) => match next.about {
                About::SendNumbers { stage } => self.enter_numbers(phase, next.value, stage),
                about => self.enter_plan(phase, about),
            },
        }
    }

    /// Packs the letter of words.
    fn pack_words(&self, name: Name, pool: &mut Pool) -> Result<Lease, AllocError>
        requires sends { (s : Stage) × (IsJobWorker S.semiring S.conversions self.now s × CanSend s name) }
        requires none { (c : Coming S) → self.now.making ≡ Some (Arriving c) → ⊥ }
        ensures fresh { IfOk result (λ lease. leases pool.old lease ≡ None) }
        ensures ok { IfOk result (λ lease. (s : Stage) → IsJobWorker S.semiring S.conversions self.now s → CanSend s name
            → leases pool.new ≡ with_lease (leases pool.old) lease (s.protocol.content name s.absorbed)) }
        ensures err { OnErr result (leases pool.new ≡ leases pool.old) }
    {
        let phase = self.phases[name.phase as usize];
        let words = phase_words::<S>(
            self.alloc,
            &self.book,
            &self.job,
            &self.shapes,
            phase.about,
            name.to,
        )?;
        lease_words(phase.kind, &words, pool)
    }

    /// Packs the letter of the numbers that are sent.
    fn pack_numbers(
        &self,
        coming: &Coming<S>,
        name: Name,
        pool: &mut Pool,
    ) -> Result<Lease, AllocError>
        requires sends { (s : Stage) × (IsJobWorker S.semiring S.conversions self.now s × CanSend s name) }
        requires some { self.now.making ≡ Some (Arriving coming.now) }
        ensures fresh { IfOk result (λ lease. leases pool.old lease ≡ None) }
        ensures ok { IfOk result (λ lease. (s : Stage) → IsJobWorker S.semiring S.conversions self.now s → CanSend s name
            → leases pool.new ≡ with_lease (leases pool.old) lease (s.protocol.content name s.absorbed)) }
        ensures err { OnErr result (leases pool.new ≡ leases pool.old) }
    {
        coming.pack(&self.values, name.to, pool)
    }

    /// Absorbs a letter of words.
    fn absorb_words(&mut self, name: Name, bytes: &[u8]) -> Result<(), AllocError>
        requires absorbs { (s : Stage) × (IsJobWorker S.semiring S.conversions self.old s × CanAbsorb s name bytes.now) }
        requires none { (c : Coming S) → self.old.making ≡ Some (Arriving c) → ⊥ }
        ensures { OnOk result ((s : Stage) → IsJobWorker S.semiring S.conversions self.old s → CanAbsorb s name bytes.now
            → IsJobWorker S.semiring S.conversions self.new (absorbing s ((name, bytes.now) ∷ []))) }
    {
        let words = words_of_letter(self.alloc, bytes)?;
        let about = self.phases[name.phase as usize].about;
        absorb_words::<S>(&mut self.book, &self.job, about, name.from, &words)?;
        self.counts.put(name, entries_of_letter(bytes))
    }

    /// Absorbs a letter of numbers.
    fn absorb_numbers(
        &mut self,
        coming: Coming<S>,
        name: Name,
        bytes: &[u8],
    ) -> Result<(), AllocError>
        requires absorbs { (s : Stage) × (IsJobWorker S.semiring S.conversions (record self.old { making = Some (Arriving coming) }) s × CanAbsorb s name bytes.now) }
        ensures { OnOk result ((s : Stage) → IsJobWorker S.semiring S.conversions (record self.old { making = Some (Arriving coming) }) s → CanAbsorb s name bytes.now
            → IsJobWorker S.semiring S.conversions self.new (absorbing s ((name, bytes.now) ∷ []))) }
    {
        let mut coming = coming;
        coming.absorb(name.from, bytes)?;
        self.making = Some(Making::Arriving(coming));
        self.counts.put(name, entries_of_letter(bytes))
    }
}

impl<S: Scalar> Worker for JobWorker<S> {
    ghost use Rattle.rank_core.specs.Workers.{IsJobWorker};

    ghost stands = { λ w s. IsJobWorker S.semiring S.conversions w s };

    fn phases(&self) -> u32 {
        self.phase_count
    }

    fn enter(&mut self, phase: u32, pool: &mut Pool) -> Result<Entered, AllocError> {
        self.finish_last(phase)?;
        self.make(phase)?;
        self.begin(phase, pool)
    }

    fn pack(&self, name: Name, pool: &mut Pool) -> Result<Lease, AllocError> {
        match &self.making {
            Some(Making::Arriving(coming)) => self.pack_numbers(coming, name, pool),
            _ => self.pack_words(name, pool),
        }
    }

    fn absorb(&mut self, name: Name, bytes: &[u8]) -> Result<(), AllocError> {
        if !is_arriving(&self.making) {
            return self.absorb_words(name, bytes);
        }
        match self.making.take() {
            Some(Making::Arriving(coming)) => self.absorb_numbers(coming, name, bytes),
            _ => unreachable!(),
        }
    }
}
