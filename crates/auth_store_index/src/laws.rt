//! What holds of the bits, the floor and the places of a log that grows.

ghost use Rattle.std.specs.Prelude.{◌≡◌, ◌==◌, ◌&&◌, not, ◌+◌, ◌++◌, ◌*◌, ◌/◌, ◌≤◌, ◌<◌, ℕ, Bool, List, Option, None};
ghost use Rattle.std.specs.Prelude.{Some, true, false, map, filter, is_some, ◌∷◌, [], length, slice_get, drop};
ghost use Rattle.std.specs.Prelude.{option_map};
ghost use Rattle.std.specs.List.{AllByRecursion, list_any};
ghost use Rattle.state_ops.specs.Operation.{Operation, commit_floor, delete};
ghost use Rattle.auth_store_parts.specs.Map.{Map, value_at, next_key, with_entry};
ghost use Rattle.auth_store_parts.specs.Batch.{Word, map_after};
ghost use Rattle.auth_store_parts.specs.Places.{placed, places_of};
ghost use Rattle.auth_store_parts.specs.History.{History, Commit, AreStates, IsState, appended, with_commit};
ghost use Rattle.auth_store_parts.specs.History.{activity_bits, batch_operations, deletes, is_kept, updates};
ghost use Rattle.auth_store_parts.specs.History.{inactivity_floor, last_floor, latest_map, log_of, replayed};
ghost use Rattle.auth_store_index.specs.Growth.{cleared, committed, first_set, taken};
ghost use Rattle.auth_store_index.specs.Near.{gone_after, near_after, prev_key};
ghost use Rattle.auth_store_index.specs.Touched.{IsSaid, is_no_delete, is_touched, names};
ghost use Rattle.auth_store_index.specs.Readings.{state_read, value_read};

/// As a log grows whose last operation is a commit, those bits are cleared that stand at the places of the keys that
/// the new operations name, and behind a new commit that of the last one; and the new operations have the bits that
/// they have alone.
pub fn bits_grow_with_the_log()
    ensures { (front operations : List Operation) (metadata : Option (List ℕ)) (floor : ℕ)
        → let log : List Operation = front ++ commit_floor metadata floor ∷ [] in
        activity_bits (log ++ operations)
        ≡ cleared (activity_bits log ++ activity_bits operations) (taken (places_of log) (length front) operations) }
{}

/// The log of a history ends with a commit that records the floor of what stands before it.
pub fn logs_end_with_a_commit()
    ensures { (history : History) → (front : List Operation) × (metadata : Option (List ℕ))
        × (log_of history ≡ committed front metadata) }
{}

/// What an operation takes out of a log was active there.
pub fn active_places_are_taken()
    ensures { (front operations : List Operation) (metadata : Option (List ℕ)) (floor : ℕ)
        → let log : List Operation = front ++ commit_floor metadata floor ∷ [] in
        AllByRecursion (λ place. slice_get (activity_bits log) place ≡ Some true)
        (taken (places_of log) (length front) operations) }
{}

/// What is active in a log stands at the floor that its last commit records, or behind it; so it stands behind all
/// chunks of bits before the floor.
pub fn active_places_stand_behind_the_floor()
    ensures committed { (front : List Operation) (metadata : Option (List ℕ)) (place : ℕ)
        → slice_get (activity_bits (committed front metadata)) place ≡ Some true
        → last_floor (committed front metadata) ≤ place }
    ensures log { (history : History) (place : ℕ)
        → slice_get (activity_bits (log_of history)) place ≡ Some true
        → last_floor (log_of history) ≤ place }
    ensures chunks { (width floor chunks place : ℕ) → chunks ≤ floor / (8 * width) → floor ≤ place
        → 8 * width * chunks ≤ place }
{}

/// The floor is the place of the first bit that is set in the log with its next commit. It is found from the floor
/// before on.
pub fn floor_is_the_first_bit()
    ensures first { (log : List Operation) (metadata : Option (List ℕ)) (floor : ℕ)
        → inactivity_floor log ≡ first_set (activity_bits (log ++ commit_floor metadata floor ∷ [])) }
    ensures next { (front changes : List Operation) (metadata later_metadata : Option (List ℕ)) (floor later_floor : ℕ)
        → let log : List Operation = front ++ commit_floor metadata floor ∷ [] in
        let bits : List Bool = activity_bits (log ++ (changes ++ commit_floor later_metadata later_floor ∷ [])) in
        inactivity_floor (log ++ changes) ≡ inactivity_floor front + first_set (drop (inactivity_floor front) bits) }
{}

/// The places of a log that goes on are those of its operations, followed by the others; and the keys in order, with
/// the values that are read at their places, are the state that the log leads to.
pub fn the_state_is_read_at_the_places()
    ensures grown { (log operations : List Operation)
        → places_of (log ++ operations) ≡ placed (length log) (places_of log) operations }
    ensures read { (log : List Operation) → state_read log (places_of log) ≡ replayed [] log }
    ensures latest { (history : History) → AreStates history
        → state_read (log_of history) (places_of (log_of history)) ≡ latest_map history }
    ensures value { (log : List Operation) (key : List ℕ)
        → value_at (replayed [] log) key ≡ option_map (value_read log) (value_at (places_of log) key) }
    ensures next { (log : List Operation) (key : List ℕ)
        → next_key (replayed [] log) key ≡ next_key (places_of log) key }
{}

/// Of a batch with its commit all operations count, but the deletes.
pub fn all_of_a_batch_counts_but_its_deletes()
    ensures { (old new : Map) (metadata : Option (List ℕ)) (floor : ℕ) → IsState new
        → let said : List Operation = batch_operations old new ++ commit_floor metadata floor ∷ [] in
        activity_bits said ≡ map is_no_delete said }
{}

/// The operations of a batch are told by the keys that it touches: a key that no word names is kept where its next key
/// stays; its next key changes only where the one that it had goes or the one that it gets comes; and the other keys
/// that are kept, and those that do not go, may be left out.
pub fn few_keys_tell_a_batch()
    ensures kept { (words : List Word) (state : Map) (key value : List ℕ) → IsState state
        → list_any (names key) words ≡ false → value_at (map_after words state) key ≡ Some value
        → next_key state key ≡ next_key (map_after words state) key
        → is_kept state (map_after words state) key value ≡ true }
    ensures next { (old new : Map) (key : List ℕ) → IsState old → IsState new
        → is_some (value_at new (next_key old key)) ≡ true → is_some (value_at old (next_key new key)) ≡ true
        → next_key old key ≡ next_key new key }
    ensures comes { (old new : Map) (key value later other : List ℕ) → IsState old → IsState new
        → value_at old key ≡ Some value → value_at new key ≡ Some later
        → is_some (value_at new (next_key old key)) ≡ true
        → next_key (with_entry old (next_key new key) other) key ≡ next_key new key }
    ensures updates { (test : List ℕ → Bool) (entries old new : Map) → IsState entries
        → ((key value : List ℕ) → value_at entries key ≡ Some value → test key ≡ false
        → is_kept old new key value ≡ true)
        → updates (filter (λ e. test e.0) entries) old new ≡ updates entries old new }
    ensures deletes { (test : List ℕ → Bool) (entries new : Map) → IsState entries
        → ((key value : List ℕ) → value_at entries key ≡ Some value → test key ≡ false
        → is_some (value_at new key) ≡ true)
        → deletes (filter (λ e. test e.0) entries) new ≡ deletes entries new }
    ensures whole { (words : List Word) (old : Map) → IsState old
        → let new : Map = map_after words old in
        batch_operations old new ≡ deletes (filter (λ e. list_any (names e.0) words) old) new
        ++ updates (filter (λ e. is_touched words old new e.0) new) old new }
{}

/// The key before a key is the one whose next key it is, or would be where it comes; so the keys that words put, and
/// those before the keys that they name, are all that a batch may update.
pub fn keys_near_the_words_tell_a_batch()
    ensures before { (state : Map) (key : List ℕ) → IsState state → is_some (value_at state key) ≡ true
        → prev_key state (next_key state key) ≡ key }
    ensures comes { (state : Map) (other value key : List ℕ) → IsState state → is_some (value_at state key) ≡ true
        → value_at state other ≡ None → next_key (with_entry state other value) key ≡ other
        → prev_key state other ≡ key }
    ensures whole { (words : List Word) (old : Map) → IsState old
        → let puts : Map = map_after words [] in
        let gone : Map = gone_after old puts [] words in
        batch_operations old (map_after words old)
        ≡ map (λ e. delete e.0) gone ++ updates (near_after old gone puts words) old (map_after words old) }
{}

/// A bit stays where its place is not among those that are cleared, and is not set where it is.
pub fn cleared_bits_are_not_set()
    ensures bit { (bits : List Bool) (places : List ℕ) (at : ℕ) (bit : Bool) → slice_get bits at ≡ Some bit
        → slice_get (cleared bits places) at ≡ Some (bit && not (list_any (λ place. place == at) places)) }
    ensures length { (bits : List Bool) (places : List ℕ) → length (cleared bits places) ≡ length bits }
{}

/// What a commit makes of a log's bits, of its floor and of its places, told from what they were before. The bits and
/// what is taken out are told of whatever operations come; the floor of whatever changes a commit closes; a batch with
/// its commit is such, and its floor is told before it is recorded.
pub fn a_commit_keeps_bits_floor_and_places()
    ensures bits { (history : History) (last : ℕ) → last + 1 ≡ length (log_of history) → (operations : List Operation)
        → let log : List Operation = log_of history in
        activity_bits (log ++ operations)
        ≡ cleared (activity_bits log ++ activity_bits operations) (taken (places_of log) last operations) }
    ensures taken { (history : History) (last : ℕ) → last + 1 ≡ length (log_of history) → (operations : List Operation)
        → let log : List Operation = log_of history in
        AllByRecursion (λ place. (last_floor log ≤ place) × (place < length log))
        (taken (places_of log) last operations) }
    ensures floor { (history : History) (changes : List Operation) (metadata : Option (List ℕ))
        → let log : List Operation = log_of history in
        let after : List Operation = log ++ with_commit log changes metadata in
        last_floor after ≡ last_floor log + first_set (drop (last_floor log) (activity_bits after)) }
    ensures batch { (history : History) (commit : Commit) (last : ℕ) → IsState commit.map
        → last + 1 ≡ length (log_of history)
        → let log : List Operation = log_of history in
        let said : List Operation = appended log (latest_map history) commit.map commit.metadata in
        activity_bits (log_of (commit ∷ history))
        ≡ cleared (activity_bits log ++ map is_no_delete said) (taken (places_of log) last said) }
    ensures next { (history : History) (commit : Commit) (last : ℕ) → IsState commit.map
        → last + 1 ≡ length (log_of history)
        → let log : List Operation = log_of history in
        let changes : List Operation = batch_operations (latest_map history) commit.map in
        let bits : List Bool = activity_bits log ++ (map is_no_delete changes ++ true ∷ []) in
        last_floor (log_of (commit ∷ history)) ≡ last_floor log
        + first_set (drop (last_floor log) (cleared bits (taken (places_of log) last changes ++ last ∷ []))) }
{}

/// Updates that say again what is so in a state lead to that state.
pub fn what_is_so_may_be_said_again()
    ensures { (state : Map) (operations : List Operation) → IsState state → AllByRecursion (IsSaid state) operations
        → replayed state operations ≡ state }
{}
