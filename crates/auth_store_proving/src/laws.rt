//! What holds of all ledgers of one history.

ghost use Rattle.std.specs.Prelude.{◌≡◌, ◌⊎◌, IsTrue, IfOk, IfErr};
ghost use Rattle.auth_store_index.specs.Refusals.{IfLog};
ghost use Rattle.auth_store_ledger.specs.History.{history_of};
ghost use Rattle.auth_store_proving.specs.ProvingCode.{key_answer_of};
ghost use Rattle.auth_store_ledger.specs.Store.{IsLedgerOf, setting_of_width};
ghost use Rattle.auth_store_log.specs.Records.{format_of};

use crate::key::{KeyProof, prove_key};
use auth_store_index::ReadError;
use auth_store_ledger::{Ledger, LoggedOperations};
use merkle_forest::{Graftable, HashFunction, PendingOf};
use state_ops::{FixedKey, FixedValue};

// Whether two proofs of a key say the same of it by the same bytes.
fn are_same_bytes<V: FixedValue>(one: &KeyProof<V>, other: &KeyProof<V>) -> bool
    ensures { key_answer_of V.encoding one.now ≡ key_answer_of V.encoding other.now → IsTrue result }
{
    match (one, other) {
        (KeyProof::Value(_, first), KeyProof::Value(_, second)) => {
            first.as_slice() == second.as_slice()
        }
        (KeyProof::Absent(first), KeyProof::Absent(second)) => {
            first.as_slice() == second.as_slice()
        }
        _ => false,
    }
}

/// Whether two ledgers answer the same root, and of the key the same bytes, of its value or of its absence. They do
/// where the histories of their logs are equal, whatever is pruned of each. It is refused out of memory, or as one of
/// the logs is.
pub fn same_root_and_proof<F, H, K, V, L, const N: usize>(
    one: &Ledger<F, H, K, V, N>,
    one_log: &mut L,
    other: &Ledger<F, H, K, V, N>,
    other_log: &mut L,
    key: &K,
) -> Result<bool, ReadError<L::Error>>
where
    F: Graftable + PendingOf<H::Digest>,
    H: HashFunction,
    K: FixedKey,
    V: FixedValue,
    L: LoggedOperations<F, K, V>,
    requires one_may { L.readable one_log.old }
    requires other_may { L.readable other_log.old }
    requires one { IsLedgerOf (setting_of_width F.merge_rule H.hash_of N)
        (format_of (K.after tt) (V.after tt) K.SIZE V.SIZE) (L.log one_log.old) one.now }
    requires other { IsLedgerOf (setting_of_width F.merge_rule H.hash_of N)
        (format_of (K.after tt) (V.after tt) K.SIZE V.SIZE) (L.log other_log.old) other.now }
    ensures same { history_of (L.log one_log.old) ≡ history_of (L.log other_log.old)
        → IfOk result (λ same. IsTrue same) }
    ensures one_same { L.log one_log.new ≡ L.log one_log.old }
    ensures other_same { L.log other_log.new ≡ L.log other_log.old }
    ensures refused { IfErr result (λ e.
        IfLog (L.leads one_log.old one_log.new) (L.refuses one_log.old one_log.new) e
        ⊎ IfLog (L.leads other_log.old other_log.new) (L.refuses other_log.old other_log.new) e) }
{
    if one.root() != other.root() {
        return Ok(false);
    }
    let first = prove_key(one, one_log, key)?;
    let second = prove_key(other, other_log, key)?;
    Ok(are_same_bytes(&first, &second))
}
