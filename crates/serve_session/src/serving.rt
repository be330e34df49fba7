//! A script's session with several guests, from the first call to its end.

ghost use Rattle.std.specs.Prelude.{◌≡◌, ◌+◌, ◌*◌, ◌≤◌, ◌<◌, ◌^◌, ◌||◌, ◌++◌, ◌∷◌, ℕ, Bool, List, All, Err, Ok, false, true, length, map, nat_lt, is_some, string_bytes, vec_capacity, [], IfOk, IfSome, None, Some};
ghost use denote.Param.Send.{IsSend, IsSync};
ghost use Rattle.std.specs.Fork.{AcceptsEach};
ghost use Rattle.serve_session.specs.Beside.{WasCalledAt};
ghost use Rattle.chain_core.specs.declared.chain.Chain.{Chain};
ghost use Rattle.ledger.specs.declared.ledger.Ledger.{Ledger};
ghost use Rattle.shared_chain.specs.Seats.{IsFree};
ghost use Rattle.seats.specs.Families.{newborn};
ghost use Rattle.serve_session.specs.Actors.{AreJoined, HasHeard, HasRun};
ghost use Rattle.serve_session.specs.Beginning.{CanBeShared, IsUnsaid};
ghost use Rattle.shared_chain.specs.Bases.{together};
ghost use Rattle.turn_lock.specs.Seats.{together_of};
ghost use Rattle.serve_session.specs.Back.{any_failed};
ghost use Rattle.script.specs.Transcript.{IsTold, serve_text};
ghost use Rattle.serve_session.specs.Lists.{AreActors, AreFresh, CanWork, HasDone, HasJoined, IsFreshWorker, IsReady, RunsEach, WorkersJoin, WorksEach, with_splits};
ghost use Rattle.serve_session.specs.Tools.{AreToolsFor};
ghost use Rattle.serve_session.specs.Served.{Asking, Outcome, all_unread, asked_by, greatest_from, guest_count};
ghost use Rattle.serve_session.specs.Sealing.{IsSetFor};
ghost use Rattle.serve_session.specs.Tallies.{no_tally};
ghost use Rattle.serve_session.specs.Serving.{HasBegun, HasServedScript, IsShared, WasShared};
ghost use Rattle.serve_session.specs.Written.{AreKept};

use crate::actor::{Actor, Left as GuestLeft, ROOM_LEN};
use crate::beginning::Begun;
use crate::closing::{Ended, end_session};
use crate::merging::MergeRun;
use crate::tally::Tally;
use crate::tools::Tools;
use claims::{ClaimSeat, Claims};
use copy_workers::Worker;
use guest_io::Guest;
use guest_model::ChainRefusal;
use ledger::Ledger;
use merge_core::Piece;
use read_plan::{Plan, ReaderSet, Readers};
use script::{Line, ToldCalls, serve_text};
use script_session::ScriptRun;
use shared_chain::SharedChain;
use std::alloc::{AllocError, Global};
use std::convert::AsStr;
use std::snapshot::Snapshot;
use std::sync::Wait;
use std::thread::{Threads, for_each_mut, join_mut};
use store_model::{Gate, Reader, Store, StoreFault};
use turn_lock::{Seat, TurnLock};
use vx_base::NoRoom;

// How many guests a script may have.
const MOST_GUESTS: u32 = 64;

// The greatest number of a guest.
fn greatest(lines: &[Line]) -> u32
    ensures { result ≡ greatest_from 0 lines.now }
{
    let mut guest = 0;
    for line in lines {
        guest = guest.max(line.guest);
    }
    guest
}

// How many guests are run.
fn guest_count(lines: &[Line]) -> u32
    ensures { result ≡ guest_count lines.now }
{
    greatest(lines).min(MOST_GUESTS)
}

// Room for the sectors of a call.
fn room(alloc: Global) -> Result<Vec<u8>, AllocError>
    ensures { IfOk result (λ room. length room.items ≡ 1048576) }
{
    vec![in alloc; 0u8; ROOM_LEN]
}

// The same for each of so many guests.
fn rooms(alloc: Global, count: u32) -> Result<Vec<Vec<u8>>, AllocError>
    ensures count { IfOk result (λ rooms. length rooms.items ≡ count) }
    ensures each { IfOk result (λ rooms. All (λ room. length room.items ≡ 1048576) rooms.items) }
{
    let mut rooms = Vec::new(alloc);
    for _ in 0..count {
        rooms.push(room(alloc)?)?;
    }
    Ok(rooms)
}

/// Room for the sectors of a call, for each guest of a script.
pub fn rooms_for(alloc: Global, lines: &[Line]) -> Result<Vec<Vec<u8>>, AllocError>
    ensures count { IfOk result (λ rooms. length rooms.items ≡ guest_count lines.now) }
    ensures each { IfOk result (λ rooms. All (λ room. length room.items ≡ 1048576) rooms.items) }
{
    rooms(alloc, guest_count(lines))
}

// An actor for each room, with a seat, readers and a plan of its own, the last guest first; there is room for them.
fn add_actors<S: Store>(
    alloc: Global,
    lock: &TurnLock<SharedChain<S>>,
    first: &mut Seat<SharedChain<S>>,
    rooms: &mut Vec<Vec<u8>>,
    sets: &mut Readers<S::R>,
    plans: &mut Vec<Plan>,
    actors: &mut Vec<Actor<S>>,
    chain: &Snapshot<SharedChain<S>>,
)
    requires free { IsFree lock.now first.old }
    requires leads { first.old.family.is_first ≡ true }
    requires splits { first.old.family.splits ≡ 0 }
    requires few { length rooms.old.items ≤ 64 }
    requires each { All (λ room. length room.items ≡ 1048576) rooms.old.items }
    requires count { length rooms.old.items ≤ length sets.old }
    requires sets { All (IsSetFor S.disk chain.now.value.first) sets.old }
    requires plans { length plans.old.items ≡ length rooms.old.items }
    requires none { actors.old.items ≡ [] }
    requires reserved { length rooms.old.items ≤ vec_capacity actors.old }
    ensures seat { first.new ≡ with_splits first.old (length rooms.old.items) }
    ensures fresh { AreFresh (IsSetFor S.disk chain.now.value.first) first.old (length rooms.old.items) actors.new.items }
    ensures count { length actors.new.items ≡ length rooms.old.items }
    ensures left { length sets.new + length rooms.old.items ≡ length sets.old }
    ensures sets { All (IsSetFor S.disk chain.now.value.first) sets.new }
{
    while let Some(room) = rooms.pop() {
        let number = rooms.len() as u32 + 1;
        let Some(readers) = sets.take() else {
            unreachable!();
        };
        let Some(plan) = plans.pop() else {
            unreachable!();
        };
        let seat = lock.split(first);
        let guest = Guest::new(seat, readers, plan, number);
        actors.push_reserved(Actor::new(alloc, guest, number, room));
    }
}

/// Calls the first for each of one slice, beside the second for each of another, each in a thread of its own where one can be made.
pub fn beside<
    R: Threads + Sync,
    A: Send,
    B: Send,
    F: Fn(usize, &mut A) + Sync,
    G: Fn(usize, &mut B) + Sync,
>(rt: &R, first: &mut [A], f: &F, second: &mut [B], g: &G)
    requires first { AcceptsEach F.Fn f.now first.old }
    requires second { AcceptsEach G.Fn g.now second.old }
    ensures first { WasCalledAt F.Fn f.now first.old first.new }
    ensures second { WasCalledAt G.Fn g.now second.old second.new }
{
    let (firsts, seconds) = (first.len().max(1), second.len().max(1));
    let mut one = ||
        requires { IsSync R.row × IsSync F.row × IsSend A.row × (0 < firsts) × AcceptsEach F.Fn f.now first.now }
        ensures { WasCalledAt F.Fn f.entry.now first.entry.now first.exit.now }
    { for_each_mut(rt, first, firsts, f) };
    let mut other = ||
        requires { IsSync R.row × IsSync G.row × IsSend B.row × (0 < seconds) × AcceptsEach G.Fn g.now second.now }
        ensures { WasCalledAt G.Fn g.entry.now second.entry.now second.exit.now }
    { for_each_mut(rt, second, seconds, g) };
    join_mut(rt, &mut one, &mut other);
}

// What all guests leave beside what they were told: how many of their reads failed by a reader, what their calls came to, and whether memory ran
// out.
struct Totals {
    unread: u64,
    tally: Tally,
    is_short: bool,
}

/// Joins the seat of one guest more into the first, to which those of the guests before it are joined.
pub fn join_guest<S: Store>(
    lock: &TurnLock<SharedChain<S>>,
    first: &mut Seat<SharedChain<S>>,
    seat: Seat<SharedChain<S>>,
    chain: &Snapshot<SharedChain<S>>,
)
    requires own { IsFree lock.now first.old }
    requires leads { first.old.family.is_first ≡ true }
    requires free { IsFree lock.now seat }
    ensures both { first.new ≡ together_of together first.old seat }
    ensures joined { (asking : Asking) (guests : List (List Outcome)) (outcomes : List Outcome) → AreJoined S.disk chain.now.value.first false lock.now asking first.old guests
        → HasHeard S.disk chain.now.value.first asking.tells_want (1 + length guests) (asking.calls (1 + length guests)) seat outcomes
        → AreJoined S.disk chain.now.value.first false lock.now asking first.new (guests ++ outcomes ∷ []) }
{
    let _ = chain;
    lock.join(first, seat);
}

// Joins the seats of all actors, and keeps their readers and what they leave, of the first guest first; there is room for it.
fn end_actors<S: Store, N: AsStr>(
    lock: &TurnLock<SharedChain<S>>,
    first: &mut Seat<SharedChain<S>>,
    actors: &mut Vec<Actor<S>>,
    told: &mut Vec<ToldCalls>,
    back: &mut Vec<ReaderSet<S::R>>,
    chain: &Snapshot<SharedChain<S>>,
    names: &[N],
    lines: &[Line],
) -> Totals
    requires joined { AreJoined S.disk chain.now.value.first false lock.now (asked_by lines.now) first.old [] }
    requires words { AreKept (map N.text names.now) lines.now told.old.items false [] }
    requires ran { AreActors (HasRun S.disk chain.now.value.first lock.now (map N.text names.now) lines.now) (length actors.old.items) actors.old.items }
    requires few { length lines.now ≤ 2 ^ 20 }
    requires guests { length actors.old.items ≤ 64 }
    requires none { back.old.items ≡ [] }
    requires reserved { length actors.old.items ≤ vec_capacity told.old }
    requires reserved_back { length actors.old.items ≤ vec_capacity back.old }
    ensures sets { length back.new.items ≡ length actors.old.items }
    ensures capacity { vec_capacity back.new ≡ vec_capacity back.old }
    ensures joined { HasJoined S.disk false chain.now.value.first lock.now (map N.text names.now) lines.now (length actors.old.items) first.old first.new told.new.items result.is_short
        result.unread result.tally }
    ensures back { any_failed back.new.items ≡ nat_lt 0 result.unread }
    ensures few { result.unread ≤ 2 ^ 26 }
    ensures none { actors.new.items ≡ [] }
{
    let mut unread = 0;
    let mut tally = Tally::none();
    let mut is_short = false;
    while let Some(actor) = actors.pop() {
        let (seat, readers, left) = actor.end();
        join_guest(lock, first, seat, chain);
        back.push_reserved(readers);
        let GuestLeft {
            told: calls,
            unread: more,
            tally: heard,
            is_short: short,
        } = left;
        unread += more;
        tally = tally.and(heard);
        is_short = is_short || short;
        told.push_reserved(ToldCalls::from_vec(calls));
    }
    Totals {
        unread,
        tally,
        is_short,
    }
}

// The transcript of a script of which all calls were made, if memory didn't run out.
fn transcript_of(
    alloc: Global,
    is_short: bool,
    history: &Ledger,
    told: &[ToldCalls],
) -> Result<String, NoRoom>
    requires told { (is_short ≡ false) → All (IsTold told.now) history.now }
    requires few { length told.now ≤ 64 }
    ensures { IfOk result (λ text. (is_short ≡ false) × (string_bytes text ≡ serve_text history.now told.now)) }
{
    match history.entries() {
        Some(entries) if !is_short => serve_text(alloc, entries, told),
        _ => Err(NoRoom),
    }
}

/// A worker for each one's tools, with seats and readers of its own; there is room for them.
pub fn add_workers<S: Store>(
    lock: &TurnLock<SharedChain<S>>,
    first: &mut Seat<SharedChain<S>>,
    claims: &Claims,
    claim: &mut ClaimSeat,
    sets: &mut Readers<S::R>,
    tools: &mut Vec<Tools>,
    workers: &mut Vec<Worker<S>>,
    chain: &Snapshot<SharedChain<S>>,
)
    requires free { IsFree lock.now first.old }
    requires leads { first.old.family.is_first ≡ true }
    requires splits { first.old.family.splits ≤ 64 }
    requires counter { (claim.old.counter ≡ claims.now) × (claim.old.family ≡ newborn true) }
    requires few { length tools.old.items ≤ 64 }
    requires knows { first.old.basis.first ≡ Some chain.now.value.first }
    requires many { length tools.old.items ≤ length sets.old }
    requires sets { All (IsSetFor S.disk chain.now.value.first) sets.old }
    requires tools { All (AreToolsFor S.disk chain.now.value.first) tools.old.items }
    requires none { workers.old.items ≡ [] }
    requires reserved { length tools.old.items ≤ vec_capacity workers.old }
    ensures seat { first.new ≡ with_splits first.old (length tools.old.items) }
    ensures fresh { All (IsFreshWorker S.disk first.old claims.now) workers.new.items }
    ensures count { length workers.new.items ≡ length tools.old.items }
{
    while let Some(one) = tools.pop() {
        let Tools { piece, source } = one;
        let Some(readers) = sets.take() else {
            unreachable!();
        };
        let seat = lock.split(first);
        let own = claims.split(claim);
        workers.push_reserved(Worker::new(seat, own, readers, piece, source));
    }
}

// Runs the guests' calls, each guest's in a thread of its own where one can be made, and beside them the workers so.
fn run_beside<S: Store + Send, R: Threads + Wait + Sync, G: Gate + Sync, N: AsStr + Sync>(
    rt: &R,
    alloc: Global,
    lock: &TurnLock<SharedChain<S>>,
    gate: &G,
    names: &[N],
    lines: &[Line],
    actors: &mut [Actor<S>],
    claims: &Claims,
    workers: &mut [Worker<S>],
)
where
    S::R: Send + Drop,
    requires guests { All (IsReady S.disk lock.now) actors.old }
    requires workers { All (CanWork S.disk lock.now claims.now) workers.old }
    requires few { length lines.now ≤ 2 ^ 20 }
    ensures guests { RunsEach S.disk lock.now (map N.text names.now) lines.now actors.old actors.new }
    ensures workers { WorksEach (4 * claims.now.limit + 1) workers.old workers.new }
{
    beside(
        rt,
        actors,
        &|_, actor| { actor.run(rt, alloc, lock, gate, names, lines) },
        workers,
        &|_, worker| {
            let _ = worker.sweep(rt, lock, claims, gate);
        },
    );
}

/// Joins the seats of all workers, and keeps their readers, for which there is room. Answers how many stripes they couldn't fetch, as a reader
/// failed.
pub fn end_workers<S: Store>(
    lock: &TurnLock<SharedChain<S>>,
    first: &mut Seat<SharedChain<S>>,
    workers: &mut Vec<Worker<S>>,
    back: &mut Vec<ReaderSet<S::R>>,
) -> u64
    requires own { IsFree lock.now first.old }
    requires leads { first.old.family.is_first ≡ true }
    requires done { All (HasDone lock.now) workers.old.items }
    requires few { length workers.old.items ≤ 64 }
    requires reserved { length back.old.items + length workers.old.items ≤ vec_capacity back.old }
    ensures back { any_failed back.new.items ≡ (any_failed back.old.items || nat_lt 0 result) }
    ensures alone { length workers.old.items ≡ 0 → result ≡ 0 }
    ensures joined { WorkersJoin first.old first.new }
    ensures family { first.new.family ≡ record first.old.family { joins = first.old.family.joins + length workers.old.items } }
    ensures free { IsFree lock.now first.new }
    ensures same { length workers.old.items ≡ 0 → first.new ≡ first.old }
    ensures first_ticket { first.new.first_ticket ≡ first.old.first_ticket }
    ensures drawn { first.new.drawn ≤ first.old.drawn + 2 ^ 34 * length workers.old.items }
    ensures none { workers.new.items ≡ [] }
{
    let mut unfetched: u64 = 0;
    while let Some(worker) = workers.pop() {
        let (seat, _, readers, more) = worker.end();
        lock.join(first, seat);
        back.push_reserved(readers);
        unfetched = unfetched.saturating_add(more);
    }
    unfetched
}

/// Joins the seats of a merge's workers into the first, to which those of all guests are joined, keeps their readers, for which there is room, and
/// takes the chain out of its lock. Answers how many stripes they couldn't fetch, as a reader failed.
pub fn close_shared<S: Store>(
    lock: TurnLock<SharedChain<S>>,
    first: Seat<SharedChain<S>>,
    workers: Vec<Worker<S>>,
    back: &mut Vec<ReaderSet<S::R>>,
    was: &Snapshot<SharedChain<S>>,
) -> (SharedChain<S>, u64)
    requires own { IsFree lock first }
    requires leads { first.family.is_first ≡ true }
    requires all { first.family.splits ≡ first.family.joins + length workers.items }
    requires ticket { first.first_ticket ≡ Some 0 }
    requires drawn { first.drawn ≤ 2 ^ 58 }
    requires done { All (HasDone lock) workers.items }
    requires few { length workers.items ≤ 64 }
    requires reserved { length back.old.items + length workers.items ≤ vec_capacity back.old }
    ensures alone { (asking : Asking) (guests : List (List Outcome)) → AreJoined S.disk was.now.value.first false lock asking first guests → length guests ≡ asking.count → length workers.items ≡ 0
        → WasShared S.disk false was.now.value asking result.0 guests (length (all_unread guests)) }
    ensures beside { (asking : Asking) (guests : List (List Outcome)) → AreJoined S.disk was.now.value.first false lock asking first guests → length guests ≡ asking.count
        → WasShared S.disk true was.now.value asking result.0 guests (length (all_unread guests) + result.1) }
    ensures back { any_failed back.new.items ≡ (any_failed back.old.items || nat_lt 0 result.1) }
    ensures none { length workers.items ≡ 0 → result.1 ≡ 0 }
{
    let mut first = first;
    let mut workers = workers;
    let unfetched = end_workers(&lock, &mut first, &mut workers, back);
    workers.destroy_empty();
    (lock.close(first), unfetched)
}

// What threads left of a chain that they shared: the chain, what each guest was told, the readers of guests and workers, how many reads failed by
// one, what the guests' calls came to, and whether memory ran out.
struct Left<S: Store> {
    chain: SharedChain<S>,
    told: Vec<ToldCalls>,
    back: Vec<ReaderSet<S::R>>,
    unread: u64,
    tally: Tally,
    is_short: bool,
}

// A chain that wasn't shared, as memory ran out for it.
fn unshared<S: Store>(alloc: Global, chain: SharedChain<S>) -> Left<S>
    ensures { (result.chain ≡ chain) × (result.told.items ≡ []) × (result.back.items ≡ []) × (result.unread ≡ 0) × (result.is_short ≡ true) × (result.tally ≡ no_tally) }
{
    Left {
        chain,
        told: Vec::new(alloc),
        back: Vec::new(alloc),
        unread: 0,
        tally: Tally::none(),
        is_short: true,
    }
}

// Joins the seats of all guests and workers, and takes the chain out of its lock.
fn end_all<S: Store, N: AsStr>(
    lock: TurnLock<SharedChain<S>>,
    first: Seat<SharedChain<S>>,
    actors: Vec<Actor<S>>,
    workers: Vec<Worker<S>>,
    told: Vec<ToldCalls>,
    back: Vec<ReaderSet<S::R>>,
    was: &Snapshot<SharedChain<S>>,
    names: &[N],
    lines: &[Line],
) -> Left<S>
    requires joined { AreJoined S.disk was.now.value.first false lock (asked_by lines.now) first [] }
    requires words { AreKept (map N.text names.now) lines.now told.items false [] }
    requires ran { AreActors (HasRun S.disk was.now.value.first lock (map N.text names.now) lines.now) (length actors.items) actors.items }
    requires few { length lines.now ≤ 2 ^ 20 }
    requires count { length actors.items ≡ guest_count lines.now }
    requires done { All (HasDone lock) workers.items }
    requires workers { length workers.items ≤ 64 }
    requires split { first.family.splits ≡ first.family.joins + length actors.items + length workers.items }
    requires ticket { first.first_ticket ≡ Some 0 }
    requires none { first.drawn ≡ 0 }
    requires empty { back.items ≡ [] }
    requires reserved { length actors.items ≤ vec_capacity told }
    requires reserved_back { length actors.items + length workers.items ≤ vec_capacity back }
    ensures alone { length workers.items ≡ 0 → IsShared S.disk false was.now.value (map N.text names.now) lines.now result.chain result.told.items result.is_short result.unread result.tally }
    ensures beside { IsShared S.disk true was.now.value (map N.text names.now) lines.now result.chain result.told.items result.is_short result.unread result.tally }
    ensures back { any_failed result.back.items ≡ nat_lt 0 result.unread }
{
    let mut first = first;
    let mut actors = actors;
    let mut told = told;
    let mut back = back;
    let Totals {
        unread,
        tally,
        is_short,
    } = end_actors(
        &lock,
        &mut first,
        &mut actors,
        &mut told,
        &mut back,
        was,
        names,
        lines,
    );
    actors.destroy_empty();
    let (chain, unfetched) = close_shared(lock, first, workers, &mut back, was);
    Left {
        chain,
        told,
        back,
        unread: unread.saturating_add(unfetched),
        tally,
        is_short,
    }
}

// Room for so many guests, and workers, and for what the guests are told.
fn reserved<S: Store>(
    alloc: Global,
    guests: usize,
    workers: usize,
) -> Option<(Vec<Actor<S>>, Vec<Worker<S>>, Vec<ToldCalls>)>
    ensures actors { IfSome result (λ r. (r.0.items ≡ []) × (guests ≤ vec_capacity r.0)) }
    ensures workers { IfSome result (λ r. (r.1.items ≡ []) × (workers ≤ vec_capacity r.1)) }
    ensures told { IfSome result (λ r. (r.2.items ≡ []) × (guests ≤ vec_capacity r.2)) }
{
    let mut actors = Vec::new(alloc);
    let mut hands = Vec::new(alloc);
    let mut told = Vec::new(alloc);
    if actors.reserve(guests).is_err()
        || hands.reserve(workers).is_err()
        || told.reserve(guests).is_err()
    {
        actors.destroy_empty();
        hands.destroy_empty();
        return None;
    }
    Some((actors, hands, told))
}

// A plan for the reads of each of so many guests.
fn plans_for(alloc: Global, guests: usize) -> Result<Vec<Plan>, NoRoom>
    ensures { IfOk result (λ plans. length plans.items ≡ guests) }
{
    let mut plans = Vec::new(alloc);
    for _ in 0..guests {
        plans.push(Plan::new(alloc)?)?;
    }
    Ok(plans)
}

/// Room for the readers of so many guests and workers.
pub fn room_for_sets<R: Reader + Drop>(
    alloc: Global,
    guests: usize,
) -> Result<Vec<ReaderSet<R>>, AllocError>
    ensures { IfOk result (λ sets. (sets.items ≡ []) × (guests ≤ vec_capacity sets)) }
{
    let mut sets = Vec::new(alloc);
    sets.reserve(guests)?;
    Ok(sets)
}

// The same, with a plan for the reads of each guest, and room for the readers of all.
fn ready<S: Store>(
    alloc: Global,
    guests: usize,
    workers: usize,
) -> Option<
    (
        Vec<Actor<S>>,
        Vec<Worker<S>>,
        Vec<ToldCalls>,
        Vec<Plan>,
        Vec<ReaderSet<S::R>>,
    ),
>
where
    S::R: Drop,
    requires few { guests + workers < 2 ^ 32 }
    ensures actors { IfSome result (λ r. (r.0.items ≡ []) × (guests ≤ vec_capacity r.0)) }
    ensures workers { IfSome result (λ r. (r.1.items ≡ []) × (workers ≤ vec_capacity r.1)) }
    ensures told { IfSome result (λ r. (r.2.items ≡ []) × (guests ≤ vec_capacity r.2)) }
    ensures plans { IfSome result (λ r. length r.3.items ≡ guests) }
    ensures back { IfSome result (λ r. (r.4.items ≡ []) × (guests + workers ≤ vec_capacity r.4)) }
{
    let Ok(plans) = plans_for(alloc, guests) else {
        return None;
    };
    let Ok(back) = room_for_sets(alloc, guests + workers) else {
        return None;
    };
    let (actors, hands, told) = reserved(alloc, guests, workers)?;
    Some((actors, hands, told, plans, back))
}

// Shares a chain among guests, and among a worker for each one's tools, each of which gets a set of readers.
fn share<S: Store + Send, R: Threads + Wait + Sync, G: Gate + Sync, N: AsStr + Sync>(
    rt: &R,
    alloc: Global,
    chain: SharedChain<S>,
    names: &[N],
    lines: &[Line],
    rooms: Vec<Vec<u8>>,
    sets: Readers<S::R>,
    stripes: u32,
    tools: Vec<Tools>,
    gate: &G,
) -> Left<S>
where
    S::R: Send + Drop,
    requires begun { HasBegun S.disk chain }
    requires few { length lines.now ≤ 2 ^ 20 }
    requires count { length rooms.items ≡ guest_count lines.now }
    requires each { All (λ room. length room.items ≡ 1048576) rooms.items }
    requires sets { (length sets ≡ length rooms.items + length tools.items) × All (IsSetFor S.disk chain.first) sets }
    requires tools { All (AreToolsFor S.disk chain.first) tools.items }
    requires workers { length tools.items ≤ 64 }
    ensures alone { length tools.items ≡ 0 → IsShared S.disk false chain (map N.text names.now) lines.now result.chain result.told.items result.is_short result.unread result.tally }
    ensures beside { IsShared S.disk true chain (map N.text names.now) lines.now result.chain result.told.items result.is_short result.unread result.tally }
    ensures back { any_failed result.back.items ≡ nat_lt 0 result.unread }
{
    let mut rooms = rooms;
    let mut sets = sets;
    let mut tools = tools;
    let was = Snapshot::of(&chain);
    let Ok((claims, mut claim)) = Claims::new(alloc, stripes) else {
        return unshared(alloc, chain);
    };
    let Some((mut actors, mut workers, told, mut plans, back)) = ready(
        alloc,
        rooms.len(),
        tools.len(),
    ) else {
        return unshared(alloc, chain);
    };
    let (lock, mut first) = match TurnLock::new(alloc, chain) {
        Ok(made) => made,
        Err((chain, NoRoom)) => {
            actors.destroy_empty();
            workers.destroy_empty();
            return unshared(alloc, chain);
        }
    };
    add_actors(
        alloc,
        &lock,
        &mut first,
        &mut rooms,
        &mut sets,
        &mut plans,
        &mut actors,
        &was,
    );
    add_workers(
        &lock,
        &mut first,
        &claims,
        &mut claim,
        &mut sets,
        &mut tools,
        &mut workers,
        &was,
    );
    let (guests, hands) = (actors.as_mut_slice(), workers.as_mut_slice());
    run_beside(rt, alloc, &lock, gate, names, lines, guests, &claims, hands);
    end_all(lock, first, actors, workers, told, back, &was, names, lines)
}

/// Runs a script of `serve` over a chain whose session has begun, each guest's calls in the script's order, beside a worker of the merge for
/// each one's tools; then the merge, if there is one, is finished, and the session ends. The store comes back, whatever is answered, and with it the
/// readers of guests and workers. The names are those of the chain's files, from the leaf on; each guest has a room, and the merge a piece of its
/// own for what is left to it.
pub(crate) fn serve<S: Store + Send, R: Threads + Wait + Sync, G: Gate + Sync, N: AsStr + Sync>(
    rt: &R,
    alloc: Global,
    begun: Begun<S>,
    names: &[N],
    lines: &[Line],
    rooms: Vec<Vec<u8>>,
    last: Option<&mut Piece>,
    gate: &G,
) -> (S, MergeRun, Vec<ReaderSet<S::R>>)
where
    S::R: Send + Drop,
    requires ready { CanBeShared S.disk (length rooms.items) (length begun.tools.items) begun }
    requires few { length lines.now ≤ 2 ^ 20 }
    requires count { length rooms.items ≡ guest_count lines.now }
    requires each { All (λ room. length room.items ≡ 1048576) rooms.items }
    requires workers { length begun.tools.items ≤ 64 }
    requires alone { is_some last ≡ false → length begun.tools.items ≡ 0 }
    ensures served { HasServedScript S.disk (is_some last.entry) begun.chain.first (map N.text names.now) lines.now result.1 (S.disk result.0) }
    ensures without { is_some last.entry ≡ false → result.1.merged ≡ Ok tt }
    ensures back { any_failed result.2.items ≡ nat_lt 0 result.1.unread }
{
    let Begun {
        chain,
        sets,
        stripes,
        tools,
    } = begun;
    let was = Snapshot::of(&chain);
    let left = share(
        rt, alloc, chain, names, lines, rooms, sets, stripes, tools, gate,
    );
    let Left {
        chain,
        told,
        back,
        unread,
        tally,
        is_short,
    } = left;
    let Ended {
        store,
        history,
        fault,
        closed,
        merged,
    } = end_session(chain, &was, last);
    let transcript = transcript_of(alloc, is_short, &history, told.as_slice());
    let run = ScriptRun {
        transcript,
        fault,
        closed,
    };
    let run = MergeRun {
        run,
        unread,
        tally,
        merged,
    };
    (store, run, back)
}

/// What is told where a read failed by this fault, or memory ran out, before the chain could be shared, and its session ended so; of a merge, if
/// there was one, nothing was done.
pub(crate) fn unserved(
    merges: bool,
    met: Option<StoreFault>,
    closed: Result<(), StoreFault>,
) -> MergeRun
    ensures { IsUnsaid merges met closed result }
{
    let run = ScriptRun {
        transcript: Err(NoRoom),
        fault: met,
        closed,
    };
    let merged = if merges {
        Err(ChainRefusal::NoRoom)
    } else {
        Ok(())
    };
    MergeRun {
        run,
        unread: 0,
        tally: Tally::none(),
        merged,
    }
}
