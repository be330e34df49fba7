//! The chain that threads share.

ghost use Rattle.store_model.specs.declared.fault.StoreFault.{StoreFault as Fault};
ghost use Rattle.std.specs.Prelude.{◌≡◌, ◌+◌, ◌%◌, ◌/◌, ◌^◌, ◌≤◌, ℕ, [], Option, None, IfErr, IfOk, IfSome, IsErr, OnErr, OnOk, false, length};
ghost use Rattle.guest_model.specs.declared.call.Call.TheVariants as calls;
ghost use Rattle.chain_core.specs.Answering.{IsDurable};
ghost use Rattle.chain_core.specs.Sessions.{HasNoMerge, IsSound, has_merge};
ghost use Rattle.shared_chain.specs.Notes.{full_after};
ghost use Rattle.shared_chain.specs.Faults.{CountsRead, EndsCounted, fault_after};
ghost use Rattle.shared_chain.specs.Homes.{session_of};
ghost use Rattle.shared_chain.specs.Answers.{IsCalled};
ghost use Rattle.shared_chain.specs.Planned.{IsPlanned};
ghost use Rattle.script_session.specs.Running.{IsEnded};
ghost use Rattle.shared_chain.specs.Closing.{LeavesHistory};
ghost use Rattle.script_session.specs.StepsLeft.{unstamped};
ghost use Rattle.shared_chain.specs.Fetched.{IsFetched, WasFetched};
ghost use Rattle.shared_chain.specs.Merging.{HasMark, IsMerged, IsStepped, PassesOver, StopsFetch, StopsPut, as_answer, copied_behind, copies, fetches, finished_behind, finishes, passed_by, passes};
ghost use Rattle.merge_core.specs.Copied.{marks_of};
ghost use Rattle.shared_chain.specs.Steps.{broke_after, merge_breach, steps_of};
ghost use Rattle.shared_chain.specs.Ends.{EndsMerge, is_no_merge};

use crate::basis::Breach;
use chain_core::Chain;
use guest_model::{Caller, ChainRefusal};
use ledger::Ledger;
use merge_core::{Marks, Piece};
use read_plan::{Plan, ReaderSet};
use script_session::{copy, fetch, finish, put};
use std::alloc::{AllocFailed, Global};
use std::marker::Model;
use std::snapshot::Snapshot;
use store_model::{Store, StoreFault};

// Bytes of a sector.
const SECTOR: u64 = 512;

/// A chain in a session whose history is kept whole. It is sound whenever nobody has it, and where its store tells its content it serves
/// that history.
pub struct SharedChain<S: Store> {
    // on the heap, so that a turn hands on a pointer
    chain: Box<Chain<S, Ledger>>,
    // how it was when its session had begun
    first: Snapshot<Chain<S, Ledger>>,
    // the greatest unit that a call was refused at for want of room
    full: Option<u64>,
    // the call that broke the session
    broke: Option<Breach>,
    // the last fault that a call was refused by
    fault: Option<StoreFault>,
    // the stripes that a step of the merge has copied, of which none is forgotten
    copied: Marks,
    // whether the merge was finished, or none was found, or its end was begun
    finished: bool,
}

impl<S: Store> Model for SharedChain<S> {
    ghost use Rattle.ledger.specs.declared.ledger.Ledger.{Ledger};
    ghost use Rattle.chain_core.specs.declared.chain.Chain.{Chain};
    ghost use Rattle.shared_chain.specs.Shared.{Shared};

    ghost Value = { Shared (Chain S Ledger S.R) };

    ghost use Rattle.shared_chain.specs.Homes.{IsHome, session_of};

    ghost view = { λ s. record { chain = s.chain.value; first = s.first.value; full = s.full; broke = s.broke; fault = s.fault; copied = s.copied; finished = s.finished } };

    ghost invariant = { λ s. IsHome (session_of S.disk s.first.value) (session_of S.disk s.chain.value) s.chain.value.recorder s.full s.broke s.fault };
}

// The greatest unit that a call was refused at for want of room, behind this answer.
fn full_behind(full: Option<u64>, answer: Result<u64, ChainRefusal>) -> Option<u64>
    ensures { result ≡ full_after full answer }
{
    let Err(ChainRefusal::FileFull { next }) = answer else {
        return full;
    };
    match full {
        Some(known) => Some(known.max(next)),
        None => Some(next),
    }
}

// The call that broke the session, behind the answer of the call that changes these sectors.
fn broke_behind(
    broke: Option<Breach>,
    who: Caller,
    first: u64,
    count: u64,
    answer: Result<u64, ChainRefusal>,
) -> Option<Breach>
    ensures { result ≡ broke_after broke (record { guest = who.guest; no = who.no; first = first; count = count }) answer }
{
    match (broke, answer) {
        (None, Err(ChainRefusal::Broken { .. })) => Some(Breach {
            guest: who.guest,
            no: who.no,
            first,
            count,
        }),
        _ => broke,
    }
}

// The last fault that a call was refused by, behind this answer.
fn fault_behind(fault: Option<StoreFault>, answer: Result<u64, ChainRefusal>) -> Option<StoreFault>
    ensures { result ≡ fault_after fault answer }
{
    match answer {
        Err(ChainRefusal::Broken { file, count } | ChainRefusal::ReadFault { file, count }) => {
            Some(StoreFault { file, count })
        }
        _ => fault,
    }
}

// What a step of a merge answered, as the answers of calls are noted.
fn as_answer(answer: Result<(), ChainRefusal>) -> Result<u64, ChainRefusal>
    ensures { result ≡ as_answer answer }
{
    match answer {
        Ok(()) => Ok(0),
        Err(refusal) => Err(refusal),
    }
}

// What broke the session, behind the answer of a step of the merge.
fn broke_by_merge(broke: Option<Breach>, answer: Result<u64, ChainRefusal>) -> Option<Breach>
    ensures { result ≡ broke_after broke merge_breach answer }
{
    broke_behind(broke, Caller { guest: 0, no: 0 }, 0, 0, answer)
}

// A chain on the heap, and room for so many stripes; or the chain as it was, where there is no memory.
fn room_for<S: Store>(
    alloc: Global,
    chain: Chain<S, Ledger>,
    stripes: u32,
) -> Result<(Box<Chain<S, Ledger>>, Marks), Chain<S, Ledger>>
    ensures chain { IfOk result (λ made. made.0.value ≡ chain) }
    ensures stripes { IfOk result (λ made. made.1.stripes ≡ stripes) }
    ensures none { IfOk result (λ made. (t : ℕ) → marks_of made.1 t ≡ false) }
    ensures back { IfErr result (λ back. back ≡ chain) }
{
    let Ok(copied) = Marks::new(alloc, stripes) else {
        return Err(chain);
    };
    match Box::new(alloc, chain) {
        Ok(chain) => Ok((chain, copied)),
        Err(AllocFailed { value }) => Err(value),
    }
}

// What a fetch was answered, but for the stamp.
fn unstamped(answer: Result<u64, ChainRefusal>) -> Result<(), ChainRefusal>
    ensures { result ≡ unstamped answer }
{
    match answer {
        Ok(_) => Ok(()),
        Err(refusal) => Err(refusal),
    }
}

// What a look at what can be passed over was answered, but for the number.
fn unnumbered(answer: Result<u32, ChainRefusal>) -> Result<(), ChainRefusal>
    ensures { result ≡ unstamped answer }
{
    match answer {
        Ok(_) => Ok(()),
        Err(refusal) => Err(refusal),
    }
}

// Whether the merge was finished, or none was found, behind the answer of a fetch of a stripe, or of a put, or of a look at what can be passed over.
fn finished_by_stripe(finished: bool, stripe: u32, done: Result<(), ChainRefusal>) -> bool
    ensures fetch { result ≡ finished_behind (fetches stripe) done finished }
    ensures put { result ≡ finished_behind (copies stripe) done finished }
    ensures pass { (n : ℕ) → result ≡ finished_behind (passes stripe n) done finished }
{
    finished || is_no_merge(done)
}

// Whether the merge was finished, behind the answer of a finish.
fn finished_by(finished: bool, done: Result<(), ChainRefusal>) -> bool
    ensures { result ≡ finished_behind finishes done finished }
{
    finished || done.is_ok()
}

// Keeps a stripe in mind that was copied, if it is one of those.
fn mark_copied(copied: &mut Marks, stripe: u32, done: Result<(), ChainRefusal>)
    ensures stripes { copied.new.stripes ≡ copied.old.stripes }
    ensures marks { (t : ℕ) → marks_of copied.new t ≡ copied_behind (copies stripe) done copied.old t }
{
    if done.is_ok() && stripe < copied.stripes() {
        copied.mark(stripe);
    }
}

// Keeps the stripes in mind that were passed over, those of them that are kept.
fn mark_passed(copied: &mut Marks, stripe: u32, passed: Result<u32, ChainRefusal>)
    ensures stripes { copied.new.stripes ≡ copied.old.stripes }
    ensures marks { (t : ℕ) → marks_of copied.new t ≡ copied_behind (passes stripe (passed_by passed)) (unstamped passed) copied.old t }
{
    let Ok(count) = passed else {
        return;
    };
    let stripes = copied.stripes();
    if stripe < stripes {
        copied.mark_range(stripe, count.min(stripes - stripe));
    }
}

// Whether no merge was found.
fn is_no_merge(answer: Result<(), ChainRefusal>) -> bool
    ensures { result ≡ is_no_merge answer }
{
    matches!(answer, Err(ChainRefusal::NoMerge))
}

// Copies what is missing of a merge, and finishes it; where none is under way nothing is left to be done.
fn merge_rest<S: Store>(chain: &mut Chain<S, Ledger>, piece: &mut Piece) -> Result<(), ChainRefusal>
    requires sound { IsSound (session_of S.disk chain.old) }
    requires slot { piece.old.filled ≡ false }
    ensures sound { IsSound (session_of S.disk chain.new) }
    ensures ends { EndsMerge (session_of S.disk chain.old) piece.old (session_of S.disk chain.new) result }
{
    let answer = match copy(chain, piece) {
        Ok(()) => finish(chain),
        Err(refusal) => Err(refusal),
    };
    if is_no_merge(answer) { Ok(()) } else { answer }
}

/// Ends a session that has just begun, and had no call. The store comes back, and how the session ended. A fault that was met before, if a read
/// failed, is counted still.
pub fn end_fresh<S: Store>(chain: Chain<S, Ledger>) -> (S, Result<(), StoreFault>)
    requires sound { IsSound (session_of S.disk chain) }
    requires whole { chain.broken ≡ None }
    ensures ended { IsEnded (session_of S.disk chain) (S.disk result.0) result.1 }
    ensures counted { (met : Option Fault) → IfSome met (CountsRead (S.disk chain.store)) → EndsCounted (S.disk chain.store) (S.disk result.0) met result.1 }
    ensures leaves { LeavesHistory (session_of S.disk chain) [] None None (has_merge chain.layers) result.1 (S.disk result.0) }
{
    let (store, _, closed) = chain.close();
    (store, closed)
}

impl<S: Store> SharedChain<S> {
    /// A chain whose session has just begun, with room to keep in mind so many stripes of its merge once they are copied. Where there is no memory
    /// for it the session is ended, as by `close`: the store comes back, and how the session ended.
    pub fn new(
        alloc: Global,
        chain: Chain<S, Ledger>,
        stripes: u32,
    ) -> Result<SharedChain<S>, (S, Result<(), StoreFault>)>
        requires sound { IsSound (session_of S.disk chain) }
        requires fresh { (chain.events ≡ 0) × (chain.broken ≡ None) × (chain.recorder ≡ []) }
        ensures ok { IfOk result (λ s. s ≡ record { chain = chain; first = chain; full = None; broke = None; fault = None; copied = s.copied; finished = false }) }
        ensures stripes { IfOk result (λ s. s.copied.stripes ≡ stripes) }
        ensures none { IfOk result (λ s. (t : ℕ) → marks_of s.copied t ≡ false) }
        ensures ended { IfErr result (λ left. IsEnded (session_of S.disk chain) (S.disk left.0) left.1) }
        ensures counted { IfErr result (λ left. EndsCounted (S.disk chain.store) (S.disk left.0) None left.1) }
        ensures leaves { IfErr result (λ left. LeavesHistory (session_of S.disk chain) [] None None (has_merge chain.layers) left.1 (S.disk left.0)) }
    {
        let first = Snapshot::of(&chain);
        let (chain, copied) = match room_for(alloc, chain, stripes) {
            Ok(made) => made,
            Err(chain) => return Err(end_fresh(chain)),
        };
        Ok(SharedChain {
            chain,
            first,
            full: None,
            broke: None,
            fault: None,
            copied,
            finished: false,
        })
    }

    /// The length of the history.
    pub fn len(&self) -> u64
        ensures { result ≡ length self.now.chain.recorder }
    {
        self.chain.len()
    }

    /// The length of the history with the call that broke the session, if one did.
    pub fn steps(&self) -> u64
        ensures { result ≡ length (steps_of self.now.chain.recorder self.now.broke) }
    {
        let done = self.chain.len();
        if self.broke.is_some() { done + 1 } else { done }
    }

    /// Reads what files in sessions have of whole sectors, and plans what those files have of which there is a reader. Answers the call's place in
    /// the history: it has its reply once the plan is filled by the readers.
    pub fn read_plan(
        &mut self,
        who: Caller,
        first: u64,
        readers: &ReaderSet<S::R>,
        plan: &mut Plan,
        out: &mut [u8],
    ) -> Result<u64, ChainRefusal>
        requires { length out.old % 512 ≡ 0 }
        ensures called { IsCalled S.disk who (calls.Read first (length out.old / 512)) self.old self.new result }
        ensures planned { OnOk result (IsPlanned S.disk self.old (calls.Read first (length out.old / 512)) readers.now plan.new out.new) }
    {
        let answer = self.chain.read_plan(who, first, readers, plan, out);
        self.full = full_behind(self.full, answer);
        self.broke = broke_behind(self.broke, who, first, 0, answer);
        self.fault = fault_behind(self.fault, answer);
        answer
    }

    /// Writes whole sectors. Answers the call's place in the history.
    pub fn write(&mut self, who: Caller, first: u64, bytes: &[u8]) -> Result<u64, ChainRefusal>
        requires { length bytes.now % 512 ≡ 0 }
        ensures { IsCalled S.disk who (calls.Write first bytes.now) self.old self.new result }
    {
        let count = bytes.len() as u64 / SECTOR;
        let answer = self.chain.write(who, first, bytes);
        self.full = full_behind(self.full, answer);
        self.broke = broke_behind(self.broke, who, first, count, answer);
        self.fault = fault_behind(self.fault, answer);
        answer
    }

    /// Makes sectors zeros. Answers the call's place in the history.
    pub fn trim(&mut self, who: Caller, first: u64, count: u64) -> Result<u64, ChainRefusal>
        ensures { IsCalled S.disk who (calls.Trim first count) self.old self.new result }
    {
        let answer = self.chain.trim(who, first, count);
        self.full = full_behind(self.full, answer);
        self.broke = broke_behind(self.broke, who, first, count, answer);
        self.fault = fault_behind(self.fault, answer);
        answer
    }

    /// Makes all that was written before outlast a crash. Answers the call's place in the history.
    pub fn flush(&mut self, who: Caller) -> Result<u64, ChainRefusal>
        ensures called { IsCalled S.disk who calls.Flush self.old self.new result }
        ensures durable { OnOk result (IsDurable (session_of S.disk self.old.chain) (session_of S.disk self.new.chain)) }
    {
        let answer = self.chain.flush(who);
        self.full = full_behind(self.full, answer);
        self.broke = broke_behind(self.broke, who, 0, 0, answer);
        self.fault = fault_behind(self.fault, answer);
        answer
    }

    /// Fetches a stripe of the merge's source, to be put in a later turn. A fetch that is refused leaves no piece.
    pub fn fetch_stripe(&mut self, stripe: u32, piece: &mut Piece) -> Result<(), ChainRefusal>
        ensures stepped { IsStepped S.disk (fetches stripe) self.old self.new result }
        ensures stopped { IfErr result (StopsFetch S.disk stripe self.old self.new) }
        ensures whole { OnOk result (self.new.broke ≡ None) }
        ensures stripe { OnOk result (piece.new.stripe ≡ stripe) }
        ensures fetched { OnOk result (IsFetched S.disk self.new.first self.new.chain.recorder piece.new) }
        ensures empty { OnErr result (piece.new.filled ≡ false) }
    {
        let fetched = fetch(&mut *self.chain, stripe, piece);
        let done = unstamped(fetched);
        self.finished = finished_by_stripe(self.finished, stripe, done);
        let answer = as_answer(done);
        self.full = full_behind(self.full, answer);
        self.broke = broke_by_merge(self.broke, answer);
        self.fault = fault_behind(self.fault, answer);
        done
    }

    /// Puts what was fetched of the source of the merge into the target: outside the chain where the source isn't the leaf, or in an earlier turn. It is
    /// refused as stale where a call has changed the stripe since. Whatever is answered, no piece is left.
    pub fn put_stripe(&mut self, piece: &mut Piece) -> Result<(), ChainRefusal>
        requires { WasFetched S.disk (steps_of self.old.chain.recorder self.old.broke) self.old.first piece.old }
        ensures stepped { IsStepped S.disk (copies piece.old.stripe) self.old self.new result }
        ensures stopped { IfErr result (StopsPut S.disk piece.old self.old self.new) }
        ensures copied { OnOk result (HasMark piece.old.stripe self.new.chain.layers) }
        ensures empty { piece.new.filled ≡ false }
    {
        let stripe = piece.stripe();
        let done = put(&mut *self.chain, piece);
        mark_copied(&mut self.copied, stripe, done);
        self.finished = finished_by_stripe(self.finished, stripe, done);
        let answer = as_answer(done);
        self.full = full_behind(self.full, answer);
        self.broke = broke_by_merge(self.broke, answer);
        self.fault = fault_behind(self.fault, answer);
        done
    }

    /// Passes over the stripes of the merge from this one on of which the source has nothing, as far as one look at its entries tells: nothing is
    /// written, and they count as copied. Answers how many. It is refused as a fetch of the stripe is.
    pub fn skip_stripes(&mut self, stripe: u32) -> Result<u32, ChainRefusal>
        ensures stepped { IsStepped S.disk (passes stripe (passed_by result)) self.old self.new (unstamped result) }
        ensures stopped { IfErr result (StopsFetch S.disk stripe self.old self.new) }
        ensures passed { IfOk result (λ n. PassesOver S.disk stripe n self.old.chain self.new.chain) }
        ensures few { IfOk result (λ n. stripe + n ≤ 2 ^ 26) }
    {
        let passed = self.chain.skip(stripe);
        let done = unnumbered(passed);
        mark_passed(&mut self.copied, stripe, passed);
        self.finished = finished_by_stripe(self.finished, stripe, done);
        let answer = as_answer(done);
        self.full = full_behind(self.full, answer);
        self.broke = broke_by_merge(self.broke, answer);
        self.fault = fault_behind(self.fault, answer);
        passed
    }

    /// Finishes the merge, whose stripes are all copied.
    pub fn finish(&mut self) -> Result<(), ChainRefusal>
        ensures stepped { IsStepped S.disk finishes self.old self.new result }
        ensures done { OnOk result (HasNoMerge self.new.chain.layers) }
    {
        let done = finish(&mut *self.chain);
        self.finished = finished_by(self.finished, done);
        let answer = as_answer(done);
        self.full = full_behind(self.full, answer);
        self.broke = broke_by_merge(self.broke, answer);
        self.fault = fault_behind(self.fault, answer);
        done
    }

    /// Copies what is missing of the merge, and finishes it; where none is under way that is done. Whatever is answered, no piece is left.
    pub fn end_merge(&mut self, piece: &mut Piece) -> Result<(), ChainRefusal>
        ensures { IsMerged S.disk self.old self.new result }
    {
        piece.clear();
        self.finished = true;
        let done = merge_rest(&mut *self.chain, piece);
        let answer = as_answer(done);
        self.full = full_behind(self.full, answer);
        self.broke = broke_by_merge(self.broke, answer);
        self.fault = fault_behind(self.fault, answer);
        done
    }

    /// Ends the session of every file that has one. Gives back the store and the history, and tells the last fault that a call was refused
    /// by, and how the session ended: one that a fault broke answers it, and its files are written no more.
    pub fn close(self) -> (S, Ledger, Option<StoreFault>, Result<(), StoreFault>)
        ensures history { result.1 ≡ self.chain.recorder }
        ensures fault { result.2 ≡ self.fault }
        ensures ended { IsEnded (session_of S.disk self.chain) (S.disk result.0) result.3 }
        ensures breaks { IfSome self.broke (λ b. IsErr result.3) }
        ensures counted { EndsCounted (S.disk self.first.store) (S.disk result.0) self.fault result.3 }
        ensures leaves { LeavesHistory (session_of S.disk self.first) self.chain.recorder self.full self.broke (has_merge self.chain.layers) result.3 (S.disk result.0) }
    {
        let SharedChain {
            chain,
            first: _,
            full: _,
            broke: _,
            fault,
            copied: _,
            finished: _,
        } = self;
        let (store, history, closed) = Box::into_inner(chain).close();
        (store, history, fault, closed)
    }
}
