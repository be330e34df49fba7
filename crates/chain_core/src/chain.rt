//! The session of a chain.

ghost use Rattle.std.specs.Prelude.{ℕ, Bool, ◌≡◌, ◌+◌, ◌-◌, ◌*◌, ◌/◌, ◌%◌, ◌^◌, ◌<◌, ◌≤◌, ◌++◌, ◌∷◌, ◌||◌, if◌then◌else◌, [], Ok, Err, true, false, None, Some, length, replicate, take, is_some, option_map, IfErr, IfNone, IfOk, IfSome, IsTrue, OnErr, OnOk};
ghost use Rattle.guest_model.specs.declared.call.Call.TheVariants as calls;
ghost use Rattle.guest_model.specs.Calls.{call_of, entry_of};
ghost use Rattle.chain_core.specs.Answering.{AnswersTold, ClosesTold, EndsTold, HasCause, HasReadCause, HasRoom, IsDurable, Notes, answer_of, as_read, breaking, breaks, refusal_of};
ghost use Rattle.chain_core.specs.Ending.{IsOfSession, SomeChangeFailed};
ghost use Rattle.chain_core.specs.Copying.{FetchCause, FetchTold, FitsDisk, HasEachStripe, IfStopped, IsMissing, IsOfStripe, MergeFollows, PieceTold, PutCause, TargetRoomIs, fetch_refused, stamp_of, merge_refused, no_piece, no_stripe, put_refused, refused_by};
ghost use Rattle.chain_core.specs.Finished.{FinishCause, FinishTold, IsJudged};
ghost use Rattle.chain_core.specs.Events.{HasWholeSectors, IsCaused, RepliesBy, answer_by, placed};
ghost use Rattle.chain_core.specs.Planned.{FindsPlanned};
ghost use Rattle.chain_core.specs.Reading.{Finds};
ghost use Rattle.read_plan.specs.Reading.{AreThere};
ghost use Rattle.sealed_layer.specs.Planned.{EndsBy, LieInStore};
ghost use Rattle.std.specs.List.{AllByRecursion};
ghost use Rattle.store_model.specs.Disk.{WhereBothTold, WhereTold};
ghost use Rattle.chain_core.specs.Refusing.{IfRefused, counted, is_read, misplaced, range_of, fill, refused, unfit};
ghost use Rattle.merge_plan.specs.Attached.{CanStart};
ghost use Rattle.chain_core.specs.LeafStarting.{HasStartedLeafMerge, RefusesLeafMerge};
ghost use Rattle.chain_core.specs.MergeStarting.{HasStartedMerge, RefusesMerge};
ghost use Rattle.chain_core.specs.Starting.{EachOpensAlike, HasStarted, IsOfDisk, LeavesOthersFrom, RefusesStart};
ghost use Rattle.chain_core.specs.Sealed.{AreSynced, GoesOnSealed, IsSealedSource, ReadForSession, StopsSealing, read_numbers, readers_of, reads_source, sealed_in};
ghost use Rattle.chain_core.specs.Sessions.{AreReady, IsCounted, IsLow, IsSound, KeepsMerge, kept_marks, leaf_number, seen};

use crate::answer::Answer;
use crate::layers::{Layers, changed};
use crate::merge_start::MergeStartRefusal;
use crate::sealing::SealedSource;
use crate::starting::{Mode, StartRefusal};
use guest_model::{Call, CallRef, Caller, ChainRefusal, Recorder, Reply, check_range};
use layer_session::{FileLayer, LayerFault};
use link_rules::LinkedFile;
use merge_core::Piece;
use read_plan::{Plan, ReaderSet, Readers};
use sealed_layer::sealed_layer;
use std::alloc::Global;
use store_model::{Ids, SealFault, Store, StoreFault};
use vx_base::{Bytes, Geometry, Name, NoRoom};

/// The greatest count of events.
const EVENTS: u64 = 1 << 63;

/// How many sectors a read or a write may name.
const MOST_MOVED: u64 = 2_048;

/// How many sectors a trim may name.
const MOST_TRIMMED: u64 = 524_288;

/// A chain of files in a session: its store, its history, and the layers of its files.
pub struct Chain<S: Store, R: Recorder> {
    pub(crate) store: S,
    recorder: R,
    pub(crate) layers: Layers,
    /// How many events there were.
    events: u64,
    /// The fault that broke the session.
    broken: Option<StoreFault>,
}

impl<S: Store, R: Recorder> Chain<S, R> {
    /// A session over these files of the store, with no call yet. For guests the leaf's session begins, under new identifiers. A
    /// refused one gives the store back; whatever is answered, the files open to the disk that they had, and only the leaf's was
    /// changed.
    pub fn start<I: Ids>(
        alloc: Global,
        mut store: S,
        files: &[LinkedFile],
        mode: Mode,
        recorder: R,
        ids: &mut I,
    ) -> Result<Chain<S, R>, (S, StartRefusal)>
        requires files { CanStart files.now (S.disk store) }
        requires empty { R.noted recorder ≡ 0 }
        ensures sound { IfOk result (λ chain. IsSound (seen S.disk R.noted R.told chain)) }
        ensures new { IfOk result (λ chain. (chain.events ≡ 0) × (chain.broken ≡ None) × (chain.recorder ≡ recorder)) }
        ensures geometry { IfOk result (λ chain. IsOfDisk files.now chain.layers.geometry) }
        ensures started { IfOk result (λ c. HasStarted mode files.now c.layers (S.disk store) (S.disk c.store) (I.drawn ids.old) (I.drawn ids.new)) }
        ensures moments { IfOk result (λ chain. EachOpensAlike files.now (S.disk store).told (S.disk chain.store).told) }
        ensures kept { IfErr result (λ refused. EachOpensAlike files.now (S.disk store).told (S.disk refused.0).told) }
        ensures still { IfErr result (λ refused. LeavesOthersFrom (S.disk store).told (S.disk refused.0).told) }
        ensures err { IfErr result (λ refused. RefusesStart mode files.now (S.disk store) (S.disk refused.0) (I.drawn ids.old) (I.drawn ids.new) refused.1) }
    {
        match Layers::start(alloc, &mut store, files, mode, ids) {
            Ok(layers) => Ok(Chain {
                store,
                recorder,
                layers,
                events: 0,
                broken: None,
            }),
            Err(refusal) => Err((store, refusal)),
        }
    }

    /// A session over these files of the store, with no call yet, in which the file of this name is merged into its parent: neither the
    /// leaf nor the base. The sessions of the leaf, of the source's child and of its parent begin, under new identifiers, and the source
    /// is linked to its parent by the parent's old and new identifier. A refused one gives the store back; whatever is answered, the files
    /// open to the disk that they had, and only these four were changed.
    pub fn start_merge<I: Ids>(
        alloc: Global,
        mut store: S,
        files: &[LinkedFile],
        source: &Name,
        recorder: R,
        ids: &mut I,
    ) -> Result<Chain<S, R>, (S, MergeStartRefusal)>
        requires files { CanStart files.now (S.disk store) }
        requires empty { R.noted recorder ≡ 0 }
        ensures sound { IfOk result (λ chain. IsSound (seen S.disk R.noted R.told chain)) }
        ensures new { IfOk result (λ chain. (chain.events ≡ 0) × (chain.broken ≡ None) × (chain.recorder ≡ recorder)) }
        ensures started { IfOk result (λ c. HasStartedMerge files.now source.now (S.disk store) (S.disk c.store) (I.drawn ids.old) (I.drawn ids.new) c.layers) }
        ensures moments { IfOk result (λ chain. EachOpensAlike files.now (S.disk store).told (S.disk chain.store).told) }
        ensures kept { IfErr result (λ refused. EachOpensAlike files.now (S.disk store).told (S.disk refused.0).told) }
        ensures err { IfErr result (λ refused. RefusesMerge files.now source.now (S.disk store) (S.disk refused.0) (I.drawn ids.old)
            (I.drawn ids.new) refused.1) }
    {
        match Layers::start_merge(alloc, &mut store, files, source, ids) {
            Ok(layers) => Ok(Chain {
                store,
                recorder,
                layers,
                events: 0,
                broken: None,
            }),
            Err(refusal) => Err((store, refusal)),
        }
    }

    /// A session over these files of the store, with no call yet, in which the leaf is merged into its parent, which is to stand for it.
    /// The sessions of both begin, under new identifiers, and between them the leaf is linked to its parent by the parent's old and new
    /// identifier. A refused one gives the store back; whatever is answered, the files open to the disk that they had, and only these two
    /// were changed.
    pub fn start_leaf_merge<I: Ids>(
        alloc: Global,
        mut store: S,
        files: &[LinkedFile],
        recorder: R,
        ids: &mut I,
    ) -> Result<Chain<S, R>, (S, MergeStartRefusal)>
        requires files { CanStart files.now (S.disk store) }
        requires parent { 2 ≤ length files.now }
        requires empty { R.noted recorder ≡ 0 }
        ensures sound { IfOk result (λ chain. IsSound (seen S.disk R.noted R.told chain)) }
        ensures new { IfOk result (λ chain. (chain.events ≡ 0) × (chain.broken ≡ None) × (chain.recorder ≡ recorder)) }
        ensures started { IfOk result (λ c. HasStartedLeafMerge files.now (S.disk store) (S.disk c.store) (I.drawn ids.old) (I.drawn ids.new) c.layers) }
        ensures moments { IfOk result (λ chain. EachOpensAlike files.now (S.disk store).told (S.disk chain.store).told) }
        ensures kept { IfErr result (λ refused. EachOpensAlike files.now (S.disk store).told (S.disk refused.0).told) }
        ensures err { IfErr result (λ refused. RefusesLeafMerge files.now (S.disk store) (S.disk refused.0) (I.drawn ids.old) (I.drawn ids.new) refused.1) }
    {
        match Layers::start_leaf_merge(alloc, &mut store, files, ids) {
            Ok(layers) => Ok(Chain {
                store,
                recorder,
                layers,
                events: 0,
                broken: None,
            }),
            Err(refusal) => Err((store, refusal)),
        }
    }

    // Refuses an event where no more are counted or the session is broken.
    pub(crate) fn check_fit(&self) -> Result<(), ChainRefusal>
        ensures ok { OnOk result (unfit self.now.events self.now.broken ≡ None) }
        ensures err { IfErr result (λ e. unfit self.now.events self.now.broken ≡ Some e) }
    {
        if self.events >= EVENTS {
            return Err(ChainRefusal::Spent { t: self.events });
        }
        match self.broken {
            Some(fault) => Err(ChainRefusal::Broken {
                file: fault.file,
                count: fault.count,
            }),
            None => Ok(()),
        }
    }

    // Counts an event, and refuses it where no more are counted or the session is broken.
    fn admit(&mut self) -> Result<(), ChainRefusal>
        ensures events { self.new.events ≡ counted self.old.events }
        ensures fits { OnOk result (self.new.events ≡ self.old.events + 1) }
        ensures only { self.new ≡ record self.old { events = self.new.events } }
        ensures ok { OnOk result (unfit self.old.events self.old.broken ≡ None) }
        ensures whole { OnOk result (self.old.broken ≡ None) }
        ensures err { IfErr result (λ e. unfit self.old.events self.old.broken ≡ Some e) }
    {
        let fit = self.check_fit();
        if self.events < EVENTS {
            self.events += 1;
        }
        fit
    }

    // Refuses a call, unless it is a read, where the leaf has no session.
    fn permit(&self, is_read: bool) -> Result<(), ChainRefusal>
        ensures { result ≡ if is_read || is_some self.now.layers.leaf then Ok tt else Err ChainRefusal.ReadOnly }
    {
        if is_read {
            return Ok(());
        }
        if !self.layers.has_session() {
            return Err(ChainRefusal::ReadOnly);
        }
        Ok(())
    }

    // Refuses a call whose range is none of the disk; a flush names none.
    fn check_place(&self, call: CallRef<'_>) -> Result<(), ChainRefusal>
        requires { 0 < self.now.layers.geometry.sector }
        ensures { result ≡ range_of self.now.layers.geometry (call_of call.entry) }
    {
        let Geometry { sector, sectors } = self.layers.geometry;
        match call {
            CallRef::Read { first, count } => check_range(first, count, MOST_MOVED, sectors),
            CallRef::Write { first, bytes } => {
                let count = bytes.len() as u64 / u64::from(sector);
                check_range(first, count, MOST_MOVED, sectors)
            }
            CallRef::Trim { first, count } => check_range(first, count, MOST_TRIMMED, sectors),
            CallRef::Flush => Ok(()),
        }
    }

    // Refuses a call whose range is none of the disk, and then one that asks for a session where there is none.
    fn check(&self, call: CallRef<'_>) -> Result<(), ChainRefusal>
        requires { 0 < self.now.layers.geometry.sector }
        ensures ok { OnOk result (misplaced (call_of call.entry) self.now.layers ≡ None) }
        ensures range { OnOk result (range_of self.now.layers.geometry (call_of call.entry) ≡ Ok tt) }
        ensures session { OnOk result (is_read (call_of call.entry) ≡ false → is_some self.now.layers.leaf ≡ true) }
        ensures err { IfErr result (λ e. misplaced (call_of call.entry) self.now.layers ≡ Some e) }
    {
        self.check_place(call)?;
        self.permit(only_reads(call))
    }

    // Notes a call, unless it is refused before it reaches the files.
    fn accept(&mut self, who: Caller, call: CallRef<'_>) -> Result<(), ChainRefusal>
        requires { IsSound (seen S.disk R.noted R.told self.old) }
        ensures events { self.new.events ≡ counted self.old.events }
        ensures fits { OnOk result (self.new.events ≡ self.old.events + 1) }
        ensures only { self.new ≡ record self.old { events = self.new.events; recorder = self.new.recorder } }
        ensures early { IfRefused (call_of call.entry) (seen S.disk R.noted R.told self.old) result (IsCounted self.old self.new) }
        ensures fit { OnOk result (refused (call_of call.entry) (seen S.disk R.noted R.told self.old) ≡ None) }
        ensures whole { OnOk result (self.old.broken ≡ None) }
        ensures range { OnOk result (range_of self.old.layers.geometry (call_of call.entry) ≡ Ok tt) }
        ensures session { OnOk result (is_read (call_of call.entry) ≡ false → is_some self.old.layers.leaf ≡ true) }
        ensures noted { OnOk result (R.noted self.new.recorder ≡ R.noted self.old.recorder + 1) }
        ensures told { OnOk result (R.told self.new.recorder ≡ option_map (λ h. h ++ entry_of who call.entry ∷ []) (R.told self.old.recorder)) }
        ensures err_noted { OnErr result (R.noted self.new.recorder ≡ R.noted self.old.recorder) }
        ensures err_told { OnErr result (R.told self.new.recorder ≡ R.told self.old.recorder) }
        ensures room { refused (call_of call.entry) (seen S.disk R.noted R.told self.old) ≡ None → IfErr result (λ e. e ≡ ChainRefusal.NoRoom) }
        ensures free { IsTrue R.takes_none → result ≡ Err ChainRefusal.NoRoom → ⊥ }
        ensures healthy { refused (call_of call.entry) (seen S.disk R.noted R.told self.old) ≡ None → self.old.broken ≡ None }
    {
        self.admit()?;
        self.check(call)?;
        self.recorder.note(who, call)?;
        Ok(())
    }

    // What a fault refuses a call by; a failed change breaks the session.
    fn refuse(&mut self, fault: LayerFault) -> ChainRefusal
        ensures answer { result ≡ refusal_of fault }
        ensures whole { IfNone (breaking fault) (self.new.broken ≡ self.old.broken) }
        ensures broken { IfSome (breaking fault) (λ fault. self.new.broken ≡ Some fault) }
        ensures only { self.new ≡ record self.old { broken = self.new.broken } }
    {
        match fault {
            LayerFault::Read(fault) => ChainRefusal::ReadFault {
                file: fault.file,
                count: fault.count,
            },
            LayerFault::FileFull { next } => ChainRefusal::FileFull { next },
            LayerFault::Write(fault) => {
                self.broken = Some(fault);
                ChainRefusal::Broken {
                    file: fault.file,
                    count: fault.count,
                }
            }
        }
    }

    // What a call answers once the layers have. Where it wasn't done its entry, the last one, is taken back.
    fn conclude(&mut self, done: Result<(), LayerFault>) -> Result<u64, ChainRefusal>
        ensures answer { result ≡ answer_of (R.noted self.old.recorder) done }
        ensures fault { IfNone (breaks done) (self.new.broken ≡ self.old.broken) }
        ensures broken { IfSome (breaks done) (λ fault. self.new.broken ≡ Some fault) }
        ensures kept { OnOk done (self.new.recorder ≡ self.old.recorder) }
        ensures told { OnErr done (R.told self.new.recorder ≡ option_map (λ h. take (length h - 1) h) (R.told self.old.recorder)) }
        ensures noted { OnErr done (R.noted self.new.recorder ≡ R.noted self.old.recorder - 1) }
        ensures only { self.new ≡ record self.old { recorder = self.new.recorder; broken = self.new.broken } }
    {
        let fault = match done {
            Ok(()) => return Ok(self.recorder.len()),
            Err(fault) => fault,
        };
        self.recorder.drop_last();
        Err(self.refuse(fault))
    }

    /// Reads whole sectors. Answers the call's place in the history.
    pub fn read(&mut self, who: Caller, first: u64, out: &mut [u8]) -> Result<u64, ChainRefusal>
        requires sound { IsSound (seen S.disk R.noted R.told self.old) }
        requires whole { length out.old % self.old.layers.geometry.sector ≡ 0 }
        ensures sound { IsSound (seen S.disk R.noted R.told self.new) }
        ensures events { self.new.events ≡ counted self.old.events }
        ensures geometry { self.new.layers.geometry ≡ self.old.layers.geometry }
        ensures session { is_some self.new.layers.leaf ≡ is_some self.old.layers.leaf }
        ensures leaf { leaf_number self.new.layers ≡ leaf_number self.old.layers }
        ensures merge { MergeFollows (fill self.old.layers first out.old) self.old.layers self.new.layers result }
        ensures early { IfRefused (fill self.old.layers first out.old) (seen S.disk R.noted R.told self.old) result (IsCounted self.old self.new) }
        ensures notes { Notes who (fill self.old.layers first out.old) (seen S.disk R.noted R.told self.old) (seen S.disk R.noted R.told self.new) result }
        ensures cause { HasReadCause (fill self.old.layers first out.old) (seen S.disk R.noted R.told self.old) (seen S.disk R.noted R.told self.new) result }
        ensures free { IsTrue R.takes_none → result ≡ Err ChainRefusal.NoRoom → ⊥ }
        ensures finds { OnOk result (Finds first (length out.old / self.old.layers.geometry.sector) out.new self.old.layers (S.disk self.old.store)) }
        ensures told { AnswersTold who (fill self.old.layers first out.old) (seen S.disk R.noted R.told self.old) (seen S.disk R.noted R.told self.new) result }
    {
        let count = out.len() as u64 / u64::from(self.layers.geometry.sector);
        self.accept(who, CallRef::Read { first, count })?;
        let done = unread(self.layers.find(&mut self.store, first, count, out));
        self.conclude(done)
    }

    /// Plans what those files have of whole sectors that are only read and have a reader, and reads what the others have. Answers the call's
    /// place in the history: the read is done once the plan is filled, for which there are the readers.
    pub fn read_plan(
        &mut self,
        who: Caller,
        first: u64,
        readers: &ReaderSet<S::R>,
        plan: &mut Plan,
        out: &mut [u8],
    ) -> Result<u64, ChainRefusal>
        requires sound { IsSound (seen S.disk R.noted R.told self.old) }
        requires whole { length out.old % self.old.layers.geometry.sector ≡ 0 }
        ensures sound { IsSound (seen S.disk R.noted R.told self.new) }
        ensures events { self.new.events ≡ counted self.old.events }
        ensures geometry { self.new.layers.geometry ≡ self.old.layers.geometry }
        ensures session { is_some self.new.layers.leaf ≡ is_some self.old.layers.leaf }
        ensures leaf { leaf_number self.new.layers ≡ leaf_number self.old.layers }
        ensures merge { MergeFollows (fill self.old.layers first out.old) self.old.layers self.new.layers result }
        ensures early { IfRefused (fill self.old.layers first out.old) (seen S.disk R.noted R.told self.old) result (IsCounted self.old self.new) }
        ensures notes { Notes who (fill self.old.layers first out.old) (seen S.disk R.noted R.told self.old) (seen S.disk R.noted R.told self.new) result }
        ensures cause { HasReadCause (fill self.old.layers first out.old) (seen S.disk R.noted R.told self.old) (seen S.disk R.noted R.told self.new) result }
        ensures free { IsTrue R.takes_none → result ≡ Err ChainRefusal.NoRoom → ⊥ }
        ensures finds { OnOk result (FindsPlanned first (length out.old / self.old.layers.geometry.sector) plan.new out.new self.old.layers (S.disk self.old.store)) }
        ensures fit { AllByRecursion (EndsBy (length out.old / self.old.layers.geometry.sector)) plan.new }
        ensures lie { LieInStore self.old.layers.geometry.sector (S.disk self.old.store) plan.new }
        ensures there { AreThere readers.now plan.new }
        ensures told { AnswersTold who (fill self.old.layers first out.old) (seen S.disk R.noted R.told self.old) (seen S.disk R.noted R.told self.new) result }
    {
        plan.clear();
        let count = out.len() as u64 / u64::from(self.layers.geometry.sector);
        self.accept(who, CallRef::Read { first, count })?;
        let done = unread(
            self.layers
                .plan(&mut self.store, readers, first, count, plan, out),
        );
        self.conclude(done)
    }

    /// Writes whole sectors. Answers the call's place in the history.
    pub fn write(&mut self, who: Caller, first: u64, bytes: &[u8]) -> Result<u64, ChainRefusal>
        requires sound { IsSound (seen S.disk R.noted R.told self.old) }
        requires whole { length bytes.now % self.old.layers.geometry.sector ≡ 0 }
        ensures sound { IsSound (seen S.disk R.noted R.told self.new) }
        ensures events { self.new.events ≡ counted self.old.events }
        ensures geometry { self.new.layers.geometry ≡ self.old.layers.geometry }
        ensures session { is_some self.new.layers.leaf ≡ is_some self.old.layers.leaf }
        ensures leaf { leaf_number self.new.layers ≡ leaf_number self.old.layers }
        ensures merge { MergeFollows (calls.Write first bytes.now) self.old.layers self.new.layers result }
        ensures early { IfRefused (calls.Write first bytes.now) (seen S.disk R.noted R.told self.old) result (IsCounted self.old self.new) }
        ensures notes { Notes who (calls.Write first bytes.now) (seen S.disk R.noted R.told self.old) (seen S.disk R.noted R.told self.new) result }
        ensures cause { HasCause (calls.Write first bytes.now) (seen S.disk R.noted R.told self.old) (seen S.disk R.noted R.told self.new) result }
        ensures free { IsTrue R.takes_none → result ≡ Err ChainRefusal.NoRoom → ⊥ }
        ensures room { HasRoom (calls.Write first bytes.now) (seen S.disk R.noted R.told self.old) result }
        ensures told { AnswersTold who (calls.Write first bytes.now) (seen S.disk R.noted R.told self.old) (seen S.disk R.noted R.told self.new) result }
    {
        self.accept(who, CallRef::Write { first, bytes })?;
        let done = self
            .layers
            .put(&mut self.store, first, bytes, self.recorder.len());
        self.conclude(done)
    }

    /// Makes sectors zeros. Answers the call's place in the history.
    pub fn trim(&mut self, who: Caller, first: u64, count: u64) -> Result<u64, ChainRefusal>
        requires sound { IsSound (seen S.disk R.noted R.told self.old) }
        ensures sound { IsSound (seen S.disk R.noted R.told self.new) }
        ensures events { self.new.events ≡ counted self.old.events }
        ensures geometry { self.new.layers.geometry ≡ self.old.layers.geometry }
        ensures session { is_some self.new.layers.leaf ≡ is_some self.old.layers.leaf }
        ensures leaf { leaf_number self.new.layers ≡ leaf_number self.old.layers }
        ensures merge { MergeFollows (calls.Trim first count) self.old.layers self.new.layers result }
        ensures early { IfRefused (calls.Trim first count) (seen S.disk R.noted R.told self.old) result (IsCounted self.old self.new) }
        ensures notes { Notes who (calls.Trim first count) (seen S.disk R.noted R.told self.old) (seen S.disk R.noted R.told self.new) result }
        ensures cause { HasCause (calls.Trim first count) (seen S.disk R.noted R.told self.old) (seen S.disk R.noted R.told self.new) result }
        ensures free { IsTrue R.takes_none → result ≡ Err ChainRefusal.NoRoom → ⊥ }
        ensures room { HasRoom (calls.Trim first count) (seen S.disk R.noted R.told self.old) result }
        ensures told { AnswersTold who (calls.Trim first count) (seen S.disk R.noted R.told self.old) (seen S.disk R.noted R.told self.new) result }
    {
        self.accept(who, CallRef::Trim { first, count })?;
        let done = self
            .layers
            .zero(&mut self.store, first, count, self.recorder.len());
        self.conclude(done)
    }

    /// Makes all that was written before outlast a crash. Answers the call's place in the history.
    pub fn flush(&mut self, who: Caller) -> Result<u64, ChainRefusal>
        requires sound { IsSound (seen S.disk R.noted R.told self.old) }
        ensures sound { IsSound (seen S.disk R.noted R.told self.new) }
        ensures events { self.new.events ≡ counted self.old.events }
        ensures geometry { self.new.layers.geometry ≡ self.old.layers.geometry }
        ensures session { is_some self.new.layers.leaf ≡ is_some self.old.layers.leaf }
        ensures leaf { leaf_number self.new.layers ≡ leaf_number self.old.layers }
        ensures merge { MergeFollows calls.Flush self.old.layers self.new.layers result }
        ensures early { IfRefused calls.Flush (seen S.disk R.noted R.told self.old) result (IsCounted self.old self.new) }
        ensures notes { Notes who calls.Flush (seen S.disk R.noted R.told self.old) (seen S.disk R.noted R.told self.new) result }
        ensures cause { HasCause calls.Flush (seen S.disk R.noted R.told self.old) (seen S.disk R.noted R.told self.new) result }
        ensures free { IsTrue R.takes_none → result ≡ Err ChainRefusal.NoRoom → ⊥ }
        ensures room { HasRoom calls.Flush (seen S.disk R.noted R.told self.old) result }
        ensures durable { OnOk result (IsDurable (seen S.disk R.noted R.told self.old) (seen S.disk R.noted R.told self.new)) }
        ensures told { AnswersTold who calls.Flush (seen S.disk R.noted R.told self.old) (seen S.disk R.noted R.told self.new) result }
    {
        self.accept(who, CallRef::Flush)?;
        let done = self.layers.commit(&mut self.store);
        self.conclude(done)
    }

    // Reads so many sectors into a buffer of their own, which takes the place of the one that is lent.
    fn read_count(
        &mut self,
        alloc: Global,
        who: Caller,
        first: u64,
        count: u64,
        out: &mut Vec<u8>,
    ) -> Result<u64, ChainRefusal>
        requires sound { IsSound (seen S.disk R.noted R.told self.old) }
        ensures sound { IsSound (seen S.disk R.noted R.told self.new) }
        ensures events { self.new.events ≡ counted self.old.events }
        ensures geometry { self.new.layers.geometry ≡ self.old.layers.geometry }
        ensures session { is_some self.new.layers.leaf ≡ is_some self.old.layers.leaf }
        ensures leaf { leaf_number self.new.layers ≡ leaf_number self.old.layers }
        ensures merge { MergeFollows (calls.Read first count) self.old.layers self.new.layers result }
        ensures early { IfRefused (calls.Read first count) (seen S.disk R.noted R.told self.old) result (IsCounted self.old self.new) }
        ensures notes { Notes who (calls.Read first count) (seen S.disk R.noted R.told self.old) (seen S.disk R.noted R.told self.new) result }
        ensures cause { HasReadCause (calls.Read first count) (seen S.disk R.noted R.told self.old) (seen S.disk R.noted R.told self.new) result }
        ensures finds { OnOk result (Finds first count out.new.items self.old.layers (S.disk self.old.store)) }
        ensures told { AnswersTold who (calls.Read first count) (seen S.disk R.noted R.told self.old) (seen S.disk R.noted R.told self.new) result }
    {
        self.accept(who, CallRef::Read { first, count })?;
        let len = u64::from(self.layers.geometry.sector) * count;
        match buffer(alloc, len as usize) {
            Ok(bytes) => *out = bytes,
            Err(NoRoom) => {
                self.recorder.drop_last();
                return Err(ChainRefusal::NoRoom);
            }
        }
        let bytes = out.as_mut_slice();
        let done = unread(self.layers.find(&mut self.store, first, count, bytes));
        self.conclude(done)
    }

    /// A guest's call, with its reply.
    pub fn call(&mut self, alloc: Global, who: Caller, call: &Call) -> Answer
        requires sound { IsSound (seen S.disk R.noted R.told self.old) }
        requires whole { HasWholeSectors self.old.layers.geometry.sector call.now }
        ensures sound { IsSound (seen S.disk R.noted R.told self.new) }
        ensures events { self.new.events ≡ counted self.old.events }
        ensures geometry { self.new.layers.geometry ≡ self.old.layers.geometry }
        ensures session { is_some self.new.layers.leaf ≡ is_some self.old.layers.leaf }
        ensures leaf { leaf_number self.new.layers ≡ leaf_number self.old.layers }
        ensures merge { MergeFollows call.now self.old.layers self.new.layers (placed result) }
        ensures early { IfRefused call.now (seen S.disk R.noted R.told self.old) (placed result) (IsCounted self.old self.new) }
        ensures notes { Notes who call.now (seen S.disk R.noted R.told self.old) (seen S.disk R.noted R.told self.new) (placed result) }
        ensures cause { IsCaused call.now (seen S.disk R.noted R.told self.old) (seen S.disk R.noted R.told self.new) result }
        ensures room { HasRoom call.now (seen S.disk R.noted R.told self.old) (placed result) }
        ensures replies { RepliesBy call.now (seen S.disk R.noted R.told self.old) result }
        ensures told { AnswersTold who call.now (seen S.disk R.noted R.told self.old) (seen S.disk R.noted R.told self.new) (placed result) }
    {
        match call {
            Call::Read { first, count } => {
                let mut bytes = Vec::new(alloc);
                let result = self.read_count(alloc, who, *first, *count, &mut bytes);
                answered(result, Reply::Bytes(Bytes::from_vec(bytes)))
            }
            Call::Write { first, bytes } => {
                let result = self.write(who, *first, bytes.as_slice());
                answered(result, Reply::Done)
            }
            Call::Trim { first, count } => {
                let result = self.trim(who, *first, *count);
                answered(result, Reply::Done)
            }
            Call::Flush => {
                let result = self.flush(who);
                answered(result, Reply::Done)
            }
        }
    }

    // The merge has a stripe of this number; refused where none is under way, or it has no such stripe.
    pub(crate) fn find_stripe(&self, stripe: u32) -> Result<(), ChainRefusal>
        requires { HasEachStripe self.now.layers }
        ensures ok { OnOk result (no_stripe stripe self.now.layers ≡ None) }
        ensures err { IfErr result (λ e. no_stripe stripe self.now.layers ≡ Some e) }
    {
        let Some(marks) = self.layers.marks() else {
            return Err(ChainRefusal::NoMerge);
        };
        let stripes = marks.stripes();
        if stripe >= stripes {
            return Err(ChainRefusal::NoStripe { stripe, stripes });
        }
        Ok(())
    }

    // A piece was taken, is of a stripe of the merge, and under the stamp that the stripe has now. A source that isn't the leaf isn't
    // written: of its stripes all stamps are 0.
    fn judge_piece(&self, piece: &Piece) -> Result<(), ChainRefusal>
        requires { HasEachStripe self.now.layers }
        ensures ok { OnOk result (no_piece piece.now self.now.layers ≡ None) }
        ensures err { IfErr result (λ e. no_piece piece.now self.now.layers ≡ Some e) }
    {
        if self.layers.marks().is_none() {
            return Err(ChainRefusal::NoMerge);
        }
        if !piece.is_filled() {
            return Err(ChainRefusal::NoPiece);
        }
        self.find_stripe(piece.stripe())?;
        let taken = piece.stamp();
        let now = self.layers.stamp(piece.stripe());
        if taken != now {
            return Err(ChainRefusal::Stale { taken, now });
        }
        Ok(())
    }

    /// Takes what the source of the merge has of a stripe. Answers the stripe's stamp. A call that is refused before the files are
    /// reached leaves the piece; after a fault there is none.
    pub fn fetch_live(&mut self, stripe: u32, piece: &mut Piece) -> Result<u64, ChainRefusal>
        requires sound { IsSound (seen S.disk R.noted R.told self.old) }
        ensures sound { IsSound (seen S.disk R.noted R.told self.new) }
        ensures events { self.new.events ≡ counted self.old.events }
        ensures geometry { self.new.layers.geometry ≡ self.old.layers.geometry }
        ensures session { is_some self.new.layers.leaf ≡ is_some self.old.layers.leaf }
        ensures leaf { leaf_number self.new.layers ≡ leaf_number self.old.layers }
        ensures merge { KeepsMerge self.old.layers self.new.layers }
        ensures history { self.new.recorder ≡ self.old.recorder }
        ensures early { IfStopped (fetch_refused stripe (seen S.disk R.noted R.told self.old)) result (IsCounted self.old self.new × (piece.new ≡ piece.old)) }
        ensures cause { fetch_refused stripe (seen S.disk R.noted R.told self.old) ≡ None →
            FetchCause (seen S.disk R.noted R.told self.old) (seen S.disk R.noted R.told self.new) piece.new result }
        ensures taken { OnOk result (IsOfStripe self.old.layers.geometry stripe (stamp_of self.old.layers stripe) piece.new) }
        ensures told { FetchTold piece.new (seen S.disk R.noted R.told self.old) (seen S.disk R.noted R.told self.new) result }
    {
        self.admit()?;
        self.find_stripe(stripe)?;
        match self.layers.take(&mut self.store, stripe, piece) {
            Ok(()) => Ok(piece.stamp()),
            Err(fault) => Err(ChainRefusal::ReadFault {
                file: fault.file,
                count: fault.count,
            }),
        }
    }

    /// Puts a piece that was taken of the source into the target, and marks its stripe.
    pub fn put(&mut self, piece: &Piece) -> Result<(), ChainRefusal>
        requires sound { IsSound (seen S.disk R.noted R.told self.old) }
        requires fits { FitsDisk self.old.layers.geometry piece.now }
        ensures sound { IsSound (seen S.disk R.noted R.told self.new) }
        ensures events { self.new.events ≡ counted self.old.events }
        ensures geometry { self.new.layers.geometry ≡ self.old.layers.geometry }
        ensures session { is_some self.new.layers.leaf ≡ is_some self.old.layers.leaf }
        ensures history { self.new.recorder ≡ self.old.recorder }
        ensures leaf { leaf_number self.new.layers ≡ leaf_number self.old.layers }
        ensures early { IfStopped (put_refused piece.now (seen S.disk R.noted R.told self.old)) result (IsCounted self.old self.new) }
        ensures cause { put_refused piece.now (seen S.disk R.noted R.told self.old) ≡ None →
            PutCause piece.now (seen S.disk R.noted R.told self.old) (seen S.disk R.noted R.told self.new) result }
        ensures room { put_refused piece.now (seen S.disk R.noted R.told self.old) ≡ None →
            TargetRoomIs piece.now self.old.layers (S.disk self.old.store) result }
        ensures told { PieceTold piece.now (seen S.disk R.noted R.told self.old) (seen S.disk R.noted R.told self.new) result }
    {
        self.admit()?;
        self.judge_piece(piece)?;
        let done = self.layers.put_piece(&mut self.store, piece);
        self.settle(done)
    }

    // Each stripe of the merge is copied; refused where none is under way, or a stripe isn't.
    fn judge_marks(&self) -> Result<(), ChainRefusal>
        ensures { IsJudged (kept_marks self.now.layers) result }
    {
        let Some(marks) = self.layers.marks() else {
            return Err(ChainRefusal::NoMerge);
        };
        match marks.missing() {
            Some(stripe) => Err(ChainRefusal::NotYet { stripe }),
            None => Ok(()),
        }
    }

    /// Finishes the merge, whose stripes are all copied: the target and the file directly above the source are committed, that file is
    /// linked to the target, and the source leaves the chain. Where the leaf is the source, leaf and target are committed, the leaf is
    /// retired in favour of the target, and the target is the leaf from then on, under a new identifier. A change that fails breaks the
    /// session.
    pub fn finish(&mut self) -> Result<(), ChainRefusal>
        requires sound { IsSound (seen S.disk R.noted R.told self.old) }
        ensures sound { IsSound (seen S.disk R.noted R.told self.new) }
        ensures events { self.new.events ≡ counted self.old.events }
        ensures geometry { self.new.layers.geometry ≡ self.old.layers.geometry }
        ensures session { is_some self.new.layers.leaf ≡ is_some self.old.layers.leaf }
        ensures history { self.new.recorder ≡ self.old.recorder }
        ensures early { IfStopped (merge_refused (seen S.disk R.noted R.told self.old)) result (IsCounted self.old self.new) }
        ensures cause { merge_refused (seen S.disk R.noted R.told self.old) ≡ None →
            FinishCause (seen S.disk R.noted R.told self.old) (seen S.disk R.noted R.told self.new) result (IsCounted self.old self.new) }
        ensures told { FinishTold (seen S.disk R.noted R.told self.old) (seen S.disk R.noted R.told self.new) result }
    {
        self.admit()?;
        self.judge_marks()?;
        let done = changed(self.layers.finish(&mut self.store));
        self.settle(done)
    }

    // What a call of the merge answers once its file's layer has.
    fn settle(&mut self, done: Result<(), LayerFault>) -> Result<(), ChainRefusal>
        ensures answer { result ≡ refused_by done }
        ensures fault { IfNone (breaks done) (self.new.broken ≡ self.old.broken) }
        ensures broken { IfSome (breaks done) (λ fault. self.new.broken ≡ Some fault) }
        ensures only { self.new ≡ record self.old { broken = self.new.broken } }
    {
        match done {
            Ok(()) => Ok(()),
            Err(fault) => Err(self.refuse(fault)),
        }
    }

    /// Whether a merge is under way, in a session that takes calls: what refuses each call of a merge refuses this, and nothing is counted
    /// or changed.
    pub fn check_merge(&self) -> Result<(), ChainRefusal>
        ensures ok { OnOk result (merge_refused (seen S.disk R.noted R.told self.now) ≡ None) }
        ensures err { IfErr result (λ e. merge_refused (seen S.disk R.noted R.told self.now) ≡ Some e) }
    {
        self.check_fit()?;
        if self.layers.marks().is_none() {
            return Err(ChainRefusal::NoMerge);
        }
        Ok(())
    }

    /// Seals each file that the session only reads, in order, and makes so many sets of readers, each with one reader of each of these files.
    /// The session goes on as it was, wherever it is in its history, and changes none of them from then on. Nothing of them may be unsynced,
    /// and nothing is where the leaf is in a session. Where it fails, the files that were sealed by then stay sealed, and there are no readers.
    pub fn seal(&mut self, alloc: Global, sets: u32) -> Result<Readers<S::R>, SealFault>
    where
        S::R: Drop,
        requires sound { IsSound (seen S.disk R.noted R.told self.old) }
        requires whole { self.old.broken ≡ None }
        requires synced { WhereTold (S.disk self.old.store).told (AreSynced (read_numbers self.old.layers.below.items)) }
        ensures sound { IsSound (seen S.disk R.noted R.told self.new) }
        ensures only { self.new ≡ record self.old { store = self.new.store } }
        ensures told { WhereBothTold (GoesOnSealed self.old.layers) (S.disk self.old.store).told (S.disk self.new.store).told }
        ensures ok { OnOk result (S.disk self.new.store ≡ sealed_in (read_numbers self.old.layers.below.items) (S.disk self.old.store)) }
        ensures made { IfOk result (λ readers. readers ≡ replicate sets (readers_of (read_numbers self.old.layers.below.items) (S.disk self.old.store))) }
        ensures readers { IfOk result (λ readers. WhereBothTold (ReadForSession self.old.layers readers) (S.disk self.old.store).told (S.disk self.new.store).told) }
        ensures err { IfErr result (StopsSealing (read_numbers self.old.layers.below.items) (S.disk self.old.store) (S.disk self.new.store)) }
    {
        self.layers.seal(alloc, &mut self.store, sets)
    }

    /// What readers read the source of its merge by, outside the chain, with room of its own for so many pages of the file's tables in memory: none
    /// where no merge is under way, or it is of the leaf, or its source is in a session.
    pub fn sealed_source(&self, alloc: Global, pages: u32) -> Result<Option<SealedSource>, NoRoom>
        requires pages { 0 < pages }
        requires sound { IsSound (seen S.disk R.noted R.told self.now) }
        requires whole { self.now.broken ≡ None }
        ensures there { IfOk result (λ s. is_some s ≡ reads_source self.now.layers) }
        ensures source { IfOk result (λ s. IfSome s (IsSealedSource self.now.layers (S.disk self.now.store))) }
    {
        let Some(merge) = &self.layers.merge else {
            return Ok(None);
        };
        let FileLayer::Read(source) = &self.layers.below[merge.source] else {
            return Ok(None);
        };
        let layer = sealed_layer(alloc, source, pages)?;
        Ok(Some(SealedSource {
            file: source.parts().file,
            geometry: self.layers.geometry,
            stripes: merge.marks.stripes(),
            layer,
        }))
    }

    /// How many entries its history has.
    pub fn len(&self) -> u64
        ensures { result ≡ R.noted self.now.recorder }
    {
        self.recorder.len()
    }

    /// The lowest stripe that isn't copied; none where all are, or no merge is under way.
    pub fn missing(&self) -> Option<u32>
        ensures { IsMissing (kept_marks self.now.layers) result }
    {
        match self.layers.marks() {
            Some(marks) => marks.missing(),
            None => None,
        }
    }

    /// Ends the session of every file that has one, and gives store and recorder back. A session that a fault broke answers it, and its
    /// files are written no more, so that their logs stay named.
    pub fn close(self) -> (S, R, Result<(), StoreFault>)
        requires { IsSound (seen S.disk R.noted R.told self) }
        ensures recorder { result.1 ≡ self.recorder }
        ensures broken { IfSome self.broken (λ fault. (result.2 ≡ Err fault) × (result.0 ≡ self.store)) }
        ensures read { self.broken ≡ None → self.layers.leaf ≡ None → (result.2 ≡ Ok tt) × (result.0 ≡ self.store) }
        ensures counts { self.broken ≡ None → OnOk result.2 (S.disk result.0 ≡ record (S.disk self.store) { told = (S.disk result.0).told }) }
        ensures err { self.broken ≡ None → IfErr result.2 (SomeChangeFailed (IsOfSession self.layers) (S.disk self.store) (S.disk result.0)) }
        ensures told { self.broken ≡ None → ClosesTold (seen S.disk R.noted R.told self) (S.disk result.0) result.2 }
    {
        let Chain {
            mut store,
            recorder,
            layers,
            events: _,
            broken,
        } = self;
        let done = end_unbroken(layers, &mut store, broken);
        (store, recorder, done)
    }
}

// Whether a call is a read.
fn only_reads(call: CallRef<'_>) -> bool
    ensures { result ≡ is_read (call_of call.entry) }
{
    match call {
        CallRef::Read { .. } => true,
        CallRef::Write { .. } => false,
        CallRef::Trim { .. } => false,
        CallRef::Flush => false,
    }
}

// Ends the sessions of a chain's files, unless a fault broke its session, which is answered then.
fn end_unbroken<S: Store>(
    layers: Layers,
    store: &mut S,
    broken: Option<StoreFault>,
) -> Result<(), StoreFault>
    requires ready { broken ≡ None → AreReady layers (S.disk store.old) }
    requires low { broken ≡ None → IsLow (2 ^ 63 + 4) layers }
    ensures broken { IfSome broken (λ fault. (result ≡ Err fault) × (store.new ≡ store.old)) }
    ensures read { broken ≡ None → layers.leaf ≡ None → (result ≡ Ok tt) × (store.new ≡ store.old) }
    ensures counts { broken ≡ None → OnOk result (S.disk store.new ≡ record (S.disk store.old) { told = (S.disk store.new).told }) }
    ensures err { broken ≡ None → IfErr result (SomeChangeFailed (IsOfSession layers) (S.disk store.old) (S.disk store.new)) }
    ensures told { broken ≡ None → EndsTold layers (S.disk store.old) (S.disk store.new) result }
{
    match broken {
        Some(fault) => Err(fault),
        None => layers.end(store),
    }
}

// The answer of reads, as that of a layer.
fn unread(done: Result<(), StoreFault>) -> Result<(), LayerFault>
    ensures { result ≡ as_read done }
{
    match done {
        Ok(()) => Ok(()),
        Err(fault) => Err(LayerFault::Read(fault)),
    }
}

// So many bytes, to be read into.
fn buffer(alloc: Global, len: usize) -> Result<Vec<u8>, NoRoom>
    ensures { IfOk result (λ made. length made.items ≡ len) }
{
    Ok(vec![in alloc; 0u8; len]?)
}

// The answer of a call that is refused, or done with this reply.
fn answered(done: Result<u64, ChainRefusal>, reply: Reply) -> Answer
    ensures { result ≡ answer_by done reply }
{
    match done {
        Ok(place) => Answer::Reply { place, reply },
        Err(refusal) => Answer::Refused(refusal),
    }
}
