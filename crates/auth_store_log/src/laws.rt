//! What holds of all logs.

ghost use Rattle.std.specs.Prelude.{◌≡◌, ◌⊎◌, ◌≤◌, ◌^◌, ◌++◌, ℕ, List, [], ◌∷◌, None, Some, length, take};
ghost use Rattle.state_ops.specs.Operation.{Operation};
ghost use Rattle.state_ops.specs.Reading.{HasEncoding};
ghost use Rattle.auth_store_parts.specs.History.{History, Commit, AreStates, log_of};
ghost use Rattle.paged_blob_parts.specs.Calls.{Call};
ghost use Rattle.paged_blob_parts.specs.Writers.{Keeps};
ghost use Rattle.auth_store_log.specs.Records.{Format, committed, log_bytes, history_bytes};
ghost use Rattle.auth_store_log.specs.Records.{IsRecorded, AreRecorded, FloorsFit};
ghost use Rattle.auth_store_log.specs.Shown.{MayShow, KeepsBytes, KeepsLog, Reopens};

/// The log of a history ends with a commit, so that all of it is committed; of a beginning that has the log before the
/// newest commit either that log is committed or all of it; of a beginning of the first commit nothing or all of it.
pub fn a_log_is_committed_up_to_a_commit()
    ensures whole { (format : Format) (history : History) → AreRecorded format (log_of history)
        → committed format (history_bytes format history) ≡ history_bytes format history }
    ensures part { (format : Format) (history : History) (commit : Commit) (len : ℕ)
        → AreRecorded format (log_of (commit ∷ history)) → length (history_bytes format history) ≤ len
        → len ≤ length (history_bytes format (commit ∷ history))
        → (committed format (take len (history_bytes format (commit ∷ history))) ≡ history_bytes format history)
        ⊎ (committed format (take len (history_bytes format (commit ∷ history)))
        ≡ history_bytes format (commit ∷ history)) }
    ensures first { (format : Format) (len : ℕ) → AreRecorded format (log_of [])
        → len ≤ length (history_bytes format [])
        → (committed format (take len (history_bytes format [])) ≡ [])
        ⊎ (committed format (take len (history_bytes format [])) ≡ history_bytes format []) }
{}

/// A beginning of some bytes that has all of them that is committed has the same committed.
pub fn what_is_committed_stays()
    ensures { (format : Format) (len : ℕ) (bytes : List ℕ) → length (committed format bytes) ≤ len
        → committed format (take len bytes) ≡ committed format bytes }
{}

/// Where a writer keeps a log, openings may show it alone; where a commit is on the way, with or without it; and while
/// the first one is, none.
pub fn a_kept_log_is_shown()
    ensures whole { (format : Format) (sum : List ℕ → ℕ) (size : ℕ) (calls : List Call) (history : History)
        → AreRecorded format (log_of history)
        → Keeps sum size (history_bytes format history) (length (history_bytes format history)) calls
        → MayShow format sum size history None calls }
    ensures pending { (format : Format) (sum : List ℕ → ℕ) (size : ℕ) (calls : List Call) (history : History)
        (commit : Commit) → AreRecorded format (log_of (commit ∷ history))
        → Keeps sum size (history_bytes format (commit ∷ history)) (length (history_bytes format history)) calls
        → MayShow format sum size history (Some commit) calls }
    ensures first { (format : Format) (sum : List ℕ → ℕ) (size : ℕ) (calls : List Call)
        → AreRecorded format (log_of []) → Keeps sum size (history_bytes format []) 0 calls
        → MayShow format sum size [] None calls }
{}

/// Where a writer keeps a log, what is recovered begins with it, also by chance.
pub fn a_kept_log_stays()
    ensures bytes { (sum : List ℕ → ℕ) (size : ℕ) (calls : List Call) (bytes more : List ℕ)
        → Keeps sum size (bytes ++ more) (length bytes) calls → KeepsBytes sum size bytes calls }
    ensures log { (format : Format) (sum : List ℕ → ℕ) (size : ℕ) (calls : List Call) (history : History)
        (commit : Commit)
        → Keeps sum size (history_bytes format (commit ∷ history)) (length (history_bytes format history)) calls
        → KeepsLog format sum size history calls }
{}

/// Where what is committed of some bytes is durable, and nothing is written but them, openings show that.
pub fn what_is_committed_is_shown()
    ensures shown { (format : Format) (sum : List ℕ → ℕ) (size : ℕ) (calls : List Call) (bytes : List ℕ) (synced : ℕ)
        → length (committed format bytes) ≤ synced → Keeps sum size bytes synced calls
        → Reopens format sum size (committed format bytes) calls }
    ensures kept { (format : Format) (sum : List ℕ → ℕ) (size : ℕ) (calls : List Call) (bytes : List ℕ) (synced : ℕ)
        → length (committed format bytes) ≤ synced → Keeps sum size bytes synced calls
        → KeepsBytes sum size (committed format bytes) calls }
    ensures begun { (format : Format) (sum : List ℕ → ℕ) (size : ℕ) (calls : List Call)
        → AreRecorded format (log_of []) → Keeps sum size (history_bytes format []) 0 calls
        → Reopens format sum size [] calls }
{}

/// An operation that has an encoding is recorded: its record is read as it again.
pub fn what_is_encoded_is_recorded()
    ensures { (format : Format) (operation : Operation)
        → HasEncoding format.key format.value format.key_size format.value_size operation
        → IsRecorded format operation }
{}

/// The floors in the log of a history fit, where the log has no more operations than there may be.
pub fn a_log_has_floors_within()
    ensures { (history : History) → length (log_of history) ≤ 2 ^ 62 → FloorsFit (log_of history) }
{}

/// What is recorded, or has floors that fit, in two parts is so as a whole; and floors that fit do so in each part.
pub fn parts_of_a_log()
    ensures recorded { (format : Format) (one other : List Operation) → AreRecorded format one
        → AreRecorded format other → AreRecorded format (one ++ other) }
    ensures floors { (one other : List Operation) → FloorsFit one → FloorsFit other → FloorsFit (one ++ other) }
    ensures apart { (one other : List Operation) → FloorsFit (one ++ other) → FloorsFit one × FloorsFit other }
{}

/// The bytes of a log are those of no other log, and so of no other history; and where they begin with those of another
/// log, the log begins with it.
pub fn one_history_a_log()
    ensures log { (format : Format) (one other : List Operation) → AreRecorded format one → AreRecorded format other
        → log_bytes format.key_size format.value_size one ≡ log_bytes format.key_size format.value_size other
        → one ≡ other }
    ensures history { (format : Format) (one other : History) → AreStates one → AreStates other
        → AreRecorded format (log_of one) → AreRecorded format (log_of other)
        → history_bytes format one ≡ history_bytes format other → one ≡ other }
    ensures beginning { (format : Format) (one other : History) → AreRecorded format (log_of one)
        → AreRecorded format (log_of other)
        → take (length (history_bytes format one)) (history_bytes format other) ≡ history_bytes format one
        → (more : List Operation) × (log_of other ≡ log_of one ++ more) }
{}
