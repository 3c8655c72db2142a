//! What holds of all histories and their logs.

ghost use Rattle.std.specs.Prelude.{◌≡◌, ◌+◌, ◌++◌, ℕ, List, [], length, Some, None, true, false};
ghost use Rattle.std.specs.List.{filter, list_any};
ghost use Rattle.state_ops.specs.Operation.{Operation};
ghost use Rattle.auth_store_parts.specs.Map.{Map, value_at};
ghost use Rattle.auth_store_parts.specs.Batch.{Word, map_after};
ghost use Rattle.auth_store_parts.specs.Chains.{first_of, first_after};
ghost use Rattle.auth_store_parts.specs.Places.{places_of};
ghost use Rattle.auth_store_parts.specs.History.{History, IsState, AreStates, history_of, latest_map, log_of};
ghost use Rattle.auth_store_parts.specs.History.{batch_operations, replayed, has_key, is_commit, is_kept};

/// A batch leads from a state to a state.
pub fn batch_keeps_state()
    ensures { (words : List Word) (state : Map) → IsState state → IsState (map_after words state) }
{}

/// The operations of a batch lead from the old state to the new one.
pub fn operations_lead_to_state()
    ensures { (old new : Map) → IsState old → IsState new → replayed old (batch_operations old new) ≡ new }
{}

/// The log of a history stands for that history and for no other, and leads to its latest state.
pub fn log_stands_for_history()
    ensures history { (history : History) → AreStates history → history_of (log_of history) ≡ history }
    ensures latest { (history : History) → AreStates history → replayed [] (log_of history) ≡ latest_map history }
{}

/// A batch appends exactly one commit, since its operations hold none: a log has one commit more than its history.
pub fn one_commit_a_batch()
    ensures operations { (old new : Map) → list_any is_commit (batch_operations old new) ≡ false }
    ensures commits { (history : History) → length (filter is_commit (log_of history)) ≡ length history + 1 }
{}

/// A key whose value and next key stay gets no operation, and none that is absent before and after.
pub fn kept_keys_get_no_operation()
    ensures kept { (old new : Map) (key value : List ℕ) → IsState new → value_at new key ≡ Some value
        → is_kept old new key value ≡ true
        → list_any (has_key key) (batch_operations old new) ≡ false }
    ensures absent { (old new : Map) (key : List ℕ) → value_at old key ≡ None → value_at new key ≡ None
        → list_any (has_key key) (batch_operations old new) ≡ false }
{}

/// Behind a log the first key after a batch is told by the first key before it and by the batch.
pub fn first_after_a_batch()
    ensures { (log said : List Operation) → log ≡ log_of (history_of log)
        → said ≡ batch_operations (latest_map (history_of log)) (replayed (latest_map (history_of log)) said)
        → first_of (places_of (log ++ said)) ≡ first_after (first_of (places_of log)) said }
{}
