//! The board that threads share.

ghost use Rattle.std.specs.Prelude.{◌≡◌, ◌≢◌, ℕ, ◌≤◌, ◌<◌, ◌⊎◌, ◌↔◌, [], Err, IfOk, IfErr};
ghost use Rattle.std.specs.Prelude.{IfSome, IfNone, All, length};
ghost use Rattle.coding.specs.Answers.{fault};
ghost use Rattle.coding.specs.declared.fault.FaultName.TheVariants.{Workers as NamedWorkers};
ghost use Rattle.coding.specs.declared.fault.FaultName.TheVariants.{Memory as NamedMemory};
ghost use Rattle.board.specs.Shares.{IsInShare, times};
ghost use Rattle.board.specs.Progress.{no_fault, unused_seats, DrawsJob, DrawsNone, IsUnspent};
ghost use Rattle.board.specs.Progress.{after_done, after_fail, after_look, after_skip};
ghost use Rattle.board.specs.Progress.{IsAtMostSeen, fault_word};
ghost use Rattle.board.specs.Words.{word_of};
ghost use Rattle.board.specs.Rule.{fresh_view, view_after_draw, saw_empty, opening_words};
ghost use Rattle.board.specs.Rule.{has_looked, IsLeastFound, has_looked_for};
ghost use Rattle.board.specs.Seats.{layout};
ghost use Rattle.board.specs.declared.limits.TheConstants.{MAX_JOBS, MAX_WORKERS};

use crate::job::Job;
use crate::limits::MAX_WORKERS;
use crate::rule::{ByShares, Claim, Extent, Look, SeatView, Seating, Settle, Skip, Skipping};
use crate::seat::Seat;
use crate::trail::Trail;
use atomic_table::{Seat as Token, Table};
use coding::{Fault, FaultName};
use std::alloc::{AllocError, Global};
use std::marker::{Brand, Model};

// The place of the fault word: after the claim words, one for each seat that there may be.
pub(crate) const FAULT: usize = MAX_WORKERS as usize;

// What the fault word holds while no job has failed.
const NO_FAULT: u64 = u64::MAX;

/// Jobs numbered from 0, each of which one seat draws. Contracts see which board it is, and how
/// many jobs and seats it has.
///
/// Of `w` seats, seat `s` owns the share of the jobs `s`, `s + w`, `s + 2 * w` and so on. 10 jobs
/// and 4 seats give the shares 0 4 8, 1 5 9, 2 6, 3 7. So if long jobs stand first, each share has
/// its part of them.
#[derive(Drop)]
pub struct Board {
    pub(crate) table: Table<(), SeatView, Extent, ByShares, Global>,
}

impl Model for Board {
    ghost use Rattle.std.specs.Prelude.{◌≡◌};
    ghost use Rattle.std.specs.Prelude.{◌<◌};
    ghost use Rattle.board.specs.Progress.{Layout};
    ghost use Rattle.board.specs.Seats.{layout};

    ghost Value = { Layout };

    ghost view = { λ b.
        layout b.table.shared.table_id b.table.shared.key.jobs b.table.shared.key.seats };

    ghost invariant = { λ b.
        (b.table.shared.table_id.words ≡ 65) × (b.table.shared.table_id.slots ≡ 0)
        × (0 < b.table.shared.key.seats) };
}

impl Board {
    /// A board of at most 2^40 `jobs`, and its 1 to 64 seats in the order of their numbers.
    ///
    /// `Workers` exactly if `seats` is outside 1 to 64. The only other fault is `Memory`.
    pub fn new(alloc: Global, jobs: u64, seats: u64) -> Result<(Board, Vec<Seat>), Fault>
        requires { jobs ≤ MAX_JOBS }
        ensures workers { (result ≡ Err (fault NamedWorkers))
            ↔ ((seats ≡ 0) ⊎ (MAX_WORKERS < seats)) }
        ensures err { IfErr result (λ e. (e ≡ fault NamedWorkers) ⊎ (e ≡ fault NamedMemory)) }
        ensures ok { IfOk result (λ made. (made.0.jobs ≡ jobs) × (made.0.seats ≡ seats)) }
        ensures unused { IfOk result (λ made. made.1.items ≡ unused_seats made.0 seats) }
        ensures boards { IfOk result (λ made. All (λ p. p.board ≡ made.0) made.1.items) }
    {
        if seats == 0 || seats > MAX_WORKERS {
            return Err(Fault::of(FaultName::Workers));
        }
        match Board::of(alloc, Extent { jobs, seats }) {
            Ok(made) => Ok(made),
            Err(AllocError) => Err(Fault::of(FaultName::Memory)),
        }
    }

    // The first token is of all seats; each other seat's is split from it.
    fn of(alloc: Global, extent: Extent) -> Result<(Board, Vec<Seat>), AllocError>
        requires few { (0 < extent.seats) × (extent.seats ≤ MAX_WORKERS)
            × (extent.jobs ≤ MAX_JOBS) }
        ensures { IfOk result (λ made.
            (made.0 ≡ layout made.0.table extent.jobs extent.seats)
            × (made.1.items ≡ unused_seats made.0 extent.seats)) }
    {
        let Extent { jobs, seats } = extent;
        let (table, mut token) = make_table(alloc, extent)?;
        let mut all = Vec::new(alloc);
        for number in 0..seats - 1 {
            let next = table.shared.split_seat::<Seating>(&mut token);
            all.push(Seat::new(number, jobs, seats, next))?;
        }
        all.push(Seat::new(seats - 1, jobs, seats, token))?;
        Ok((Board { table }, all))
    }

    /// The next job, which no other seat draws. It is one of the seat's own share until that was
    /// seen empty. Then it is one of the next shares in turn, round all of them.
    ///
    /// None once the seat has seen each share empty. It takes no memory and waits for nobody.
    pub fn draw(&self, seat: &mut Seat) -> Option<Job>
        requires board { seat.old.board ≡ self.now }
        ensures job { IfSome result (λ x. DrawsJob seat.old x seat.new) }
        ensures unspent { IfSome result (λ x. IsUnspent seat.new x) }
        ensures none { IfNone result (DrawsNone seat.old seat.new) }
        ensures few { length seat.new.drawn ≤ seat.new.board.jobs }
    {
        while seat.passed < seat.seats {
            let extent = Extent {
                jobs: seat.jobs,
                seats: seat.seats,
            };
            let share = (seat.number + seat.passed) % seat.seats;
            if let Some(number) = self.claim(&mut seat.token, extent, share) {
                return Some(Job::new(number));
            }
            seat.passed += 1;
        }
        None
    }

    /// Spends a job that was done. It takes no step on what the seats share.
    pub fn done(&self, seat: &mut Seat, job: Job)
        requires board { seat.old.board ≡ self.now }
        requires unspent { IsUnspent seat.old job }
        ensures { seat.new ≡ after_done seat.old job }
    {
        seat.trail = Trail::with(&seat.trail, &job);
        job.spend();
        seat.done += 1;
    }

    /// Spends a job that failed, and settles it: `least_fault` and `skip` see the least job that
    /// was settled.
    pub fn fail(&self, seat: &mut Seat, job: Job)
        requires board { seat.old.board ≡ self.now }
        requires unspent { IsUnspent seat.old job }
        ensures { seat.new ≡ after_fail seat.old job }
    {
        let number = job.spend();
        self.table
            .shared
            .fetch_min::<Settle>(&mut seat.token, FAULT, number);
        seat.failed += 1;
    }

    /// The least job that has failed so far at any seat; None if none has.
    pub fn least_fault(&self, seat: &mut Seat) -> Option<u64>
        requires board { seat.old.board ≡ self.now }
        ensures look { seat.new ≡ after_look seat.old (fault_word result) }
        ensures least { IsAtMostSeen seat.old (fault_word result) }
        ensures some { IfSome result (λ y. y ≢ no_fault) }
        ensures none { IfNone result
            ((seat.old.failed ≡ []) × ((x : ℕ) → 0 < times x seat.old.looked → x ≡ no_fault)) }
    {
        fault_at(self.look(&mut seat.token))
    }

    /// Spends a job above one that has failed, and answers None. Otherwise the job comes back.
    pub fn skip(&self, seat: &mut Seat, job: Job) -> Option<Job>
        requires board { seat.old.board ≡ self.now }
        requires unspent { IsUnspent seat.old job }
        ensures none { IfNone result
            ((y : ℕ) × (y < job) × IsAtMostSeen seat.old y
            × (seat.new ≡ after_skip (after_look seat.old y) job)) }
        ensures some { IfSome result (λ back.
            (back ≡ job)
            × ((y : ℕ) × (job ≤ y) × IsAtMostSeen seat.old y
            × (seat.new ≡ after_look seat.old y))) }
    {
        let number = job.number();
        let found = self.look_for::<Brand>(&mut seat.token, number);
        if found < number {
            job.spend();
            seat.skipped += 1;
            None
        } else {
            Some(job)
        }
    }

    // The fault word, looked at.
    fn look(&self, token: &mut Token<(), SeatView>) -> u64
        requires board { token.old.table_id ≡ self.now.table }
        requires seats { 0 < token.old.me.0.members }
        ensures token { (token.new.table_id ≡ token.old.table_id)
            × (token.new.me.1 ≡ token.old.me.1) }
        ensures looks { token.new.me.0 ≡ has_looked token.old.me.0 result }
        ensures least { IsLeastFound token.old.me.0 result }
    {
        self.table.shared.load::<Look>(token, FAULT)
    }

    // The fault word, looked at for a job. The job counts as skipped if it is above that.
    fn look_for<J: Skipping>(&self, token: &mut Token<(), SeatView>, number: u64) -> u64
        requires board { token.old.table_id ≡ self.now.table }
        requires seats { 0 < token.old.me.0.members }
        requires job { number ≡ J.job }
        ensures token { (token.new.table_id ≡ token.old.table_id)
            × (token.new.me.1 ≡ token.old.me.1) }
        ensures looks { token.new.me.0 ≡ has_looked_for token.old.me.0 number result }
        ensures least { IsLeastFound token.old.me.0 result }
    {
        self.table.shared.load::<Skip<J>>(token, FAULT)
    }

    // Claims the next job of a share that this seat has not seen empty; None if it is empty now.
    fn claim(&self, token: &mut Token<(), SeatView>, extent: Extent, share: u64) -> Option<u64>
        requires board { token.old.table_id ≡ self.now.table }
        requires extent { (token.old.me.0.jobs ≡ extent.jobs)
            × (token.old.me.0.seats ≡ extent.seats) }
        requires few { extent.seats ≤ MAX_WORKERS }
        requires left { (share < extent.seats)
            × (times share token.old.me.0.empty < token.old.me.0.members) }
        ensures token { (token.new.table_id ≡ token.old.table_id)
            × (token.new.me.1 ≡ token.old.me.1) }
        ensures number { IfSome result (λ x.
            (token.new.me.0 ≡ view_after_draw token.old.me.0 x) × IsInShare extent.seats share x) }
        ensures new { IfSome result (λ x. (x < extent.jobs)
            × (times x token.old.me.0.drawn ≡ 0)) }
        ensures none { IfNone result (token.new.me.0 ≡ saw_empty token.old.me.0 share) }
    {
        let word = word_of(extent.seats, share);
        let found = self
            .table
            .shared
            .fetch_add::<Claim>(token, word as usize, 1);
        let number = share + found * extent.seats;
        if number < extent.jobs {
            Some(number)
        } else {
            None
        }
    }
}

// The claim word of a share. Why: the words in use are spread over all 64, so that seats on two
// processors seldom write next to each other.
fn word_of(seats: u64, share: u64) -> u64
    requires { (share < seats) × (seats ≤ MAX_WORKERS) }
    ensures value { result ≡ word_of seats share }
    ensures within { result < MAX_WORKERS }
{
    share * (MAX_WORKERS / seats)
}

// The words at first: no job is claimed, and none has failed.
fn opening_words() -> [u64; 65]
    ensures { result ≡ opening_words }
{
    let mut words = [0; 65];
    words[FAULT] = NO_FAULT;
    words
}

fn make_table(
    alloc: Global,
    extent: Extent,
) -> Result<
    (
        Table<(), SeatView, Extent, ByShares, Global>,
        Token<(), SeatView>,
    ),
    AllocError,
>
    requires few { (0 < extent.seats) × (extent.seats ≤ MAX_WORKERS) × (extent.jobs ≤ MAX_JOBS) }
    ensures { IfOk result (λ t.
        (t.0.shared.table_id.words ≡ 65) × (t.0.shared.table_id.slots ≡ 0)
        × (t.0.shared.key ≡ extent)
        × (t.1.table_id ≡ t.0.shared.table_id)
        × (t.1.me ≡ (fresh_view extent.seats extent.jobs extent.seats, []))) }
{
    Table::of_words(alloc, &opening_words(), &extent)
}

// The least job that has failed, as the fault word tells it.
pub(crate) fn fault_at(word: u64) -> Option<u64>
    ensures word { fault_word result ≡ word }
    ensures some { IfSome result (λ y. y ≢ no_fault) }
{
    if word == NO_FAULT { None } else { Some(word) }
}
