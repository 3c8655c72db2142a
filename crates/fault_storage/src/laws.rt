//! Laws of the definitions: functions with an empty body, whose contracts are the laws.

ghost use Rattle.std.specs.Prelude.{◌≡◌, ◌<◌, ◌^◌, ◌-◌, ℕ, Bool, true, false, List, Option, is_some, Result};
ghost use Rattle.std.specs.Prelude.{[], Ok};
ghost use Rattle.std.specs.declared.alloc.Global.{Global};
ghost use Rattle.std.specs.declared.vec.Vec.{Vec};
ghost use Rattle.rand_core.specs.Stream.{Stream};
ghost use Rattle.fault_storage_parts.specs.declared.error.Call.TheVariants.{Open, Read, Write, Sync, Resize, Remove};
ghost use Rattle.fault_storage_parts.specs.declared.error.Call.TheVariants.{Scan};
ghost use Rattle.fault_storage_parts.specs.declared.error.Error.{Error};
ghost use Rattle.fault_storage_parts.specs.declared.header.Versions.{Versions};
ghost use Rattle.fault_storage_parts.specs.Settings.{IsDefault};
ghost use Rattle.fault_storage.specs.declared.faulty.Blob.{Blob};
ghost use Rattle.fault_storage.specs.declared.faulty.Storage.{Storage};
ghost use Rattle.fault_storage.specs.declared.storage.Opened.{Opened};
ghost use Rattle.fault_storage.specs.declared.storage.WriteMode.{WriteMode};
ghost use Rattle.fault_storage.specs.Changes.{FaultyWrites, FaultyResizes};
ghost use Rattle.fault_storage_parts.specs.Files.{Mutation};
ghost use Rattle.fault_storage.specs.Audits.{audit_of};
ghost use Rattle.fault_storage.specs.Orders.{AreInOrder, AreNumbered, KeepsNumbers};
ghost use Rattle.fault_storage.specs.Snapshots.{durable_map, emptied, snapshot_of, store_of};
ghost use Rattle.fault_storage.specs.Directory.{placed, removed, removed_partition, admitted, MemoryOpens};
ghost use Rattle.fault_storage.specs.Directory.{MemoryRemoves, MemoryScans, MemoryReads, MemoryFills, MemoryWrites};
ghost use Rattle.fault_storage.specs.Directory.{MemoryResizes, MemorySyncs};
ghost use Rattle.fault_storage.specs.Faults.{IsFaultyCall, IsPlainCall, IsCounted, FaultyOpens};
ghost use Rattle.fault_storage.specs.declared.pending.Ticket.{Ticket};
ghost use Rattle.fault_storage.specs.Pending as pending;
ghost use Rattle.fault_storage.specs.Pending.{Registry, Entry, IsStale, IsPast, IsOrderly};
ghost use Rattle.fault_storage.specs.Stores.{Store, Handle, AreLeftOf, is_there, issued, published, crashed_store};
ghost use Rattle.fault_storage.specs.Stores.{showing, without_retired};

pub use fault_storage_parts::laws::{
    crash_keeps_the_header, created_is_parsed, left_has_the_header,
};
use rand_core::Rng;

/// The law that a ticket of an older generation changes nothing of what is pending, whatever call it comes to, and is
/// told of no debt and of no open to wait for.
pub fn stale_tickets_change_nothing()
    ensures settling { (ticket : Ticket) → (registry : Registry) → IsStale ticket registry
        → pending.changed_for ticket (pending.settled ticket.number) registry ≡ registry }
    ensures clearing { (ticket : Ticket) → (registry : Registry) → IsStale ticket registry
        → pending.changed_for ticket (pending.cleared ticket.number) registry ≡ registry }
    ensures failing { (ticket : Ticket) → (registry : Registry) → (failure : Error) → IsStale ticket registry
        → pending.changed_for ticket (pending.failed failure) registry ≡ registry }
    ensures debt { (ticket : Ticket) → (registry : Registry) → IsStale ticket registry
        → pending.has_debt (pending.entry_for ticket registry) ≡ false }
    ensures waiting { (ticket : Ticket) → (registry : Registry) → IsStale ticket registry
        → pending.has_settled ticket.before (pending.entry_for ticket registry) ≡ true }
{}

/// The law that a ticket is of an older generation once its name is begun anew or forgotten, and stays so through every
/// later call.
pub fn stale_tickets_stay_stale()
    ensures begun { (ticket : Ticket) → (registry : Registry) → ticket.generation < registry.next
        → IsPast ticket (pending.begun ticket.name.0 ticket.name.1 registry).1 }
    ensures forgotten { (ticket : Ticket) → (registry : Registry) → ticket.generation < registry.next
        → IsPast ticket (pending.forgotten ticket.name.0 ticket.name.1 registry) }
    ensures admitting { (ticket : Ticket) → (registry : Registry) → (partition name : List ℕ) → (existing : Bool)
        → IsPast ticket registry → IsPast ticket (pending.admitted partition name existing registry).1 }
    ensures settling { (ticket other : Ticket) → (registry : Registry) → IsPast ticket registry
        → IsPast ticket (pending.changed_for other (pending.settled other.number) registry) }
    ensures clearing { (ticket other : Ticket) → (registry : Registry) → IsPast ticket registry
        → IsPast ticket (pending.changed_for other (pending.cleared other.number) registry) }
    ensures failing { (ticket other : Ticket) → (registry : Registry) → (failure : Error) → IsPast ticket registry
        → IsPast ticket (pending.changed_for other (pending.failed failure) registry) }
    ensures forgetting { (ticket : Ticket) → (registry : Registry) → (partition name : List ℕ) → IsPast ticket registry
        → IsPast ticket (pending.forgotten partition name registry) }
{}

/// The law that a ticket that an admission gives is of a generation that has begun, as all that stand have, after each
/// call.
pub fn tickets_are_of_generations_that_began()
    ensures admitting { (registry : Registry) → (partition name : List ℕ) → (existing : Bool) → IsOrderly registry
        → ((pending.admitted partition name existing registry).0.generation
        < (pending.admitted partition name existing registry).1.next)
        × IsOrderly (pending.admitted partition name existing registry).1 }
    ensures settling { (ticket : Ticket) → (registry : Registry) → IsOrderly registry
        → IsOrderly (pending.changed_for ticket (pending.settled ticket.number) registry) }
    ensures clearing { (ticket : Ticket) → (registry : Registry) → IsOrderly registry
        → IsOrderly (pending.changed_for ticket (pending.cleared ticket.number) registry) }
    ensures failing { (ticket : Ticket) → (registry : Registry) → (failure : Error) → IsOrderly registry
        → IsOrderly (pending.changed_for ticket (pending.failed failure) registry) }
    ensures forgetting { (registry : Registry) → (partition name : List ℕ) → IsOrderly registry
        → IsOrderly (pending.forgotten partition name registry) }
{}

/// The law that a debt and a failure end as they may alone: an open that settles or is given up ends neither, and the
/// debt of a name of which a failure is retained is not ended by a call.
pub fn debts_stay()
    ensures settling { (number : ℕ) → (entry : Entry) → ((pending.settled number entry).debt ≡ entry.debt)
        × ((pending.settled number entry).failure ≡ entry.failure) }
    ensures clearing { (number : ℕ) → (entry : Entry) → ((pending.cleared number entry).failure ≡ entry.failure)
        × (is_some entry.failure ≡ true → (pending.cleared number entry).debt ≡ entry.debt) }
    ensures following { (number : ℕ) → (entry : Entry) → ((pending.followed number entry).debt ≡ entry.debt)
        × ((pending.followed number entry).failure ≡ entry.failure) }
{}

/// The law that the files of a store stand in byte order of partition and then name, after each call, so that an audit
/// tells of them in this order.
pub fn files_stand_in_order()
    ensures making { (store : Store) → (partition name bytes : List ℕ) → AreInOrder store.files
        → AreInOrder (placed partition name bytes store).files }
    ensures removing { (store : Store) → (partition name : List ℕ) → AreInOrder store.files
        → AreInOrder (removed partition name store).files }
    ensures removing_all { (store : Store) → (partition : List ℕ) → AreInOrder store.files
        → AreInOrder (removed_partition partition store).files }
    ensures admitting { (store : Store) → (partition name : List ℕ) → AreInOrder store.files
        → AreInOrder (admitted partition name store).files }
    ensures publishing { (store : Store) → (number : ℕ) → (bytes : List ℕ) → AreInOrder store.files
        → AreInOrder (published number bytes store).files }
    ensures issuing { (store : Store) → (number : ℕ) → (mutation : Mutation) → AreInOrder store.files
        → AreInOrder (issued number mutation store).files }
    ensures crashing { (store : Store) → (words : Stream) → AreInOrder store.files
        → AreInOrder (crashed_store store words).0.files }
    ensures rebuilding { (store : Store) → AreInOrder store.files → AreInOrder (store_of (snapshot_of store)).files }
{}

/// The law that the numbers of a store's files and of the handles that it opens are below its next one, and stay so
/// through each call: a handle's is no other after a write or a resize.
pub fn numbers_are_below_the_next()
    ensures beginning { AreNumbered (record { partitions = []; files = []; order = []; next = 0 }) }
    ensures opening { (old new : Store) → (partition name : List ℕ) → (versions : Versions) → (opened : Opened Handle)
        → AreNumbered old → MemoryOpens old partition name versions (Ok opened) new → opened.blob.number < new.next }
    ensures showing { (handle : Handle) → (live : List ℕ) → (showing live handle).number ≡ handle.number }
    ensures making { (store : Store) → (partition name bytes : List ℕ)
        → KeepsNumbers store (placed partition name bytes store) }
    ensures removing { (store : Store) → (partition name : List ℕ)
        → KeepsNumbers store (removed partition name store) }
    ensures removing_all { (store : Store) → (partition : List ℕ)
        → KeepsNumbers store (removed_partition partition store) }
    ensures admitting { (store : Store) → (partition name : List ℕ)
        → KeepsNumbers store (admitted partition name store) }
    ensures publishing { (store : Store) → (number : ℕ) → (bytes : List ℕ)
        → KeepsNumbers store (published number bytes store) }
    ensures issuing { (store : Store) → (number : ℕ) → (mutation : Mutation)
        → KeepsNumbers store (issued number mutation store) }
    ensures crashing { (store : Store) → (words : Stream) → KeepsNumbers store (crashed_store store words).0 }
    ensures retiring { (store : Store) → KeepsNumbers store (without_retired store) }
    ensures taking { (store : Store) → KeepsNumbers store (emptied store) }
    ensures rebuilding { (store : Store) → KeepsNumbers store (store_of (snapshot_of store)) }
{}

/// The law that a store that is made of a snapshot has what was durable, under the same names, and the audit of before;
/// and that no file of it has a number that was given before, as each handle's was (`numbers_are_below_the_next`), so
/// that a value that was opened then issues nothing to it and publishes nothing in it.
pub fn snapshots_keep_what_is_durable()
    ensures durable { (store : Store) → durable_map (store_of (snapshot_of store)).files ≡ durable_map store.files }
    ensures audit { (store : Store) → audit_of (store_of (snapshot_of store)) ≡ audit_of store }
    ensures gone { (store : Store) → (number : ℕ) → number < store.next
        → is_there number (store_of (snapshot_of store)) ≡ false }
    ensures issuing { (store : Store) → (number : ℕ) → (mutation : Mutation) → number < store.next
        → issued number mutation (store_of (snapshot_of store)) ≡ store_of (snapshot_of store) }
    ensures publishing { (store : Store) → (number : ℕ) → (bytes : List ℕ) → number < store.next
        → published number bytes (store_of (snapshot_of store)) ≡ store_of (snapshot_of store) }
{}

/// The law that a second crash straight after one changes nothing, and takes no word.
pub fn second_crash_changes_nothing()
    ensures { (store : Store) → (words later : Stream) → crashed_store (crashed_store store words).0 later
        ≡ ((crashed_store store words).0, later) }
{}

/// The law that what a crash leaves of a file depends on its base, its log and choices alone: the base with the first
/// mutations of the log by choices for them, under the same name and number.
pub fn crash_leaves_each_file_by_choices()
    ensures { (store : Store) → (words : Stream) → AreLeftOf store.files (crashed_store store words).0.files }
{}

/// The law that a fault is told of, by F6, exactly where it is counted.
pub fn faults_are_counted<R: Rng>()
    ensures opening { (partition name : List ℕ) → (versions : Versions) → (old new : Storage Store R)
        → (result : Result (Opened (Blob Handle)) Error)
        → IsFaultyCall (R.stream) Open old.config.«open» (FaultyOpens partition name versions) old result new
        → IsCounted Open old result new }
    ensures scanning { (partition : List ℕ) → (old new : Storage Store R)
        → (result : Result (Vec (Vec ℕ Global) Global) Error)
        → IsFaultyCall (R.stream) Scan old.config.scan (MemoryScans partition) old result new
        → IsCounted Scan old result new }
    ensures removing { (partition : List ℕ) → (name : Option (List ℕ)) → (old new : Storage Store R)
        → (result : Result Unit Error)
        → IsFaultyCall (R.stream) Remove old.config.remove (λ below. MemoryRemoves below partition name) old result new
        → IsCounted Remove old result new }
    ensures reading { (blob : Handle) → (offset count : ℕ) → (old new : Storage Store R)
        → (result : Result (Vec ℕ Global) Error)
        → IsFaultyCall (R.stream) Read old.config.read (MemoryReads blob offset count) old result new
        → IsCounted Read old result new }
    ensures filling { (blob : Handle) → (offset : ℕ) → (buffer filled : List ℕ) → (old new : Storage Store R)
        → (result : Result Unit Error)
        → IsFaultyCall (R.stream) Read old.config.read (MemoryFills blob offset buffer filled) old result new
        → IsCounted Read old result new }
    ensures syncing { (blob : Handle) → (old new : Storage Store R) → (result : Result Unit Error)
        → IsFaultyCall (R.stream) Sync old.config.sync (MemorySyncs blob) old result new
        → IsCounted Sync old result new }
    ensures writing { (blob changed : Blob Handle) → (offset : ℕ) → (bytes : List ℕ) → (mode : WriteMode)
        → (old new : Storage Store R)
        → (result : Result Unit Error)
        → FaultyWrites (R.stream) blob offset bytes mode old result changed new → IsCounted Write old result new }
    ensures resizing { (blob changed : Blob Handle) → (size : ℕ) → (old new : Storage Store R)
        → (result : Result Unit Error)
        → FaultyResizes (R.stream) blob size old result changed new → IsCounted Resize old result new }
{}

/// The law that a store of which no rate was set, so that all are zero, answers as the store below, takes no word and
/// counts no fault.
pub fn rates_of_zero_change_nothing<R: Rng>()
    ensures opening { (partition name : List ℕ) → (versions : Versions) → (old new : Storage Store R)
        → (result : Result (Opened (Blob Handle)) Error)
        → IsDefault old.config → old.injections < 2 ^ 64 - 1
        → IsFaultyCall (R.stream) Open old.config.«open» (FaultyOpens partition name versions) old result new
        → IsPlainCall (R.stream) (FaultyOpens partition name versions) old result new }
    ensures scanning { (partition : List ℕ) → (old new : Storage Store R)
        → (result : Result (Vec (Vec ℕ Global) Global) Error)
        → IsDefault old.config → old.injections < 2 ^ 64 - 1
        → IsFaultyCall (R.stream) Scan old.config.scan (MemoryScans partition) old result new
        → IsPlainCall (R.stream) (MemoryScans partition) old result new }
    ensures removing { (partition : List ℕ) → (name : Option (List ℕ)) → (old new : Storage Store R)
        → (result : Result Unit Error)
        → IsDefault old.config → old.injections < 2 ^ 64 - 1
        → IsFaultyCall (R.stream) Remove old.config.remove (λ below. MemoryRemoves below partition name) old result new
        → IsPlainCall (R.stream) (λ below. MemoryRemoves below partition name) old result new }
    ensures reading { (blob : Handle) → (offset count : ℕ) → (old new : Storage Store R)
        → (result : Result (Vec ℕ Global) Error)
        → IsDefault old.config → old.injections < 2 ^ 64 - 1
        → IsFaultyCall (R.stream) Read old.config.read (MemoryReads blob offset count) old result new
        → IsPlainCall (R.stream) (MemoryReads blob offset count) old result new }
    ensures filling { (blob : Handle) → (offset : ℕ) → (buffer filled : List ℕ) → (old new : Storage Store R)
        → (result : Result Unit Error)
        → IsDefault old.config → old.injections < 2 ^ 64 - 1
        → IsFaultyCall (R.stream) Read old.config.read (MemoryFills blob offset buffer filled) old result new
        → IsPlainCall (R.stream) (MemoryFills blob offset buffer filled) old result new }
    ensures syncing { (blob : Handle) → (old new : Storage Store R) → (result : Result Unit Error)
        → IsDefault old.config → old.injections < 2 ^ 64 - 1
        → IsFaultyCall (R.stream) Sync old.config.sync (MemorySyncs blob) old result new
        → IsPlainCall (R.stream) (MemorySyncs blob) old result new }
    ensures writing { (blob changed : Blob Handle) → (offset : ℕ) → (bytes : List ℕ) → (mode : WriteMode)
        → (old new : Storage Store R)
        → (result : Result Unit Error)
        → IsDefault old.config → old.injections < 2 ^ 64 - 1
        → FaultyWrites (R.stream) blob offset bytes mode old result changed new
        → IsPlainCall (R.stream)
        (λ below answer after. MemoryWrites blob.inner offset bytes mode below answer changed.inner after) old result
        new }
    ensures resizing { (blob changed : Blob Handle) → (size : ℕ) → (old new : Storage Store R)
        → (result : Result Unit Error)
        → IsDefault old.config → old.injections < 2 ^ 64 - 1 → FaultyResizes (R.stream) blob size old result changed new
        → IsPlainCall (R.stream)
        (λ below answer after. MemoryResizes blob.inner size below answer changed.inner after) old result new }
{}
