//! Places that follow a batch in two steps, so that a refusal on the way can leave them as they were: first its
//! updates, each of which may be refused, and all of which can be taken back; then its deletes, which take no memory.
//!
//! ```text
//!     places              a ↦ 1, c ↦ 4                        delete c, update a, update d, the first one at 7
//!     follow_updates      a ↦ 8, c ↦ 4, d ↦ 9                 what they had: a ↦ 1, d: none
//!     take_back           a ↦ 1, c ↦ 4
//!     follow_deletes      a ↦ 8, d ↦ 9                        in its place
//! ```

ghost use Rattle.std.specs.Prelude.{◌≡◌, ◌+◌, ◌<◌, ◌^◌, ◌∷◌, [], length, option_map, IsSome, IfOk, OnOk, OnErr};
ghost use Rattle.state_ops.specs.Operation.{meaning_of};
ghost use Rattle.auth_store_parts.specs.History as spec;
ghost use Rattle.auth_store_parts.specs.Map.{Map, value_at, with_entry};
ghost use Rattle.auth_store_parts.specs.Staged.{after_update, after_delete, updated, without_deleted, told, put_back};
ghost use Rattle.auth_store_parts.specs.Staged.{taken_back, CanTakeBack, AreEarlier};

use super::Places;
use merkle_forest::Family;
use state_ops::{FixedKey, FixedValue, Operation, OrderedOperation};
use std::alloc::AllocError;

impl<K: FixedKey> Places<K> {
    // Gives the key this location, and remembers what it had. Out of memory, it keeps what it had.
    fn give(
        &mut self,
        key: &K,
        location: usize,
        earlier: &mut Vec<(K, Option<usize>)>,
    ) -> Result<(), AllocError>
        ensures ok { OnOk result (self.new ≡ with_entry self.old (K.encoding key.now) (location ∷ [])) }
        ensures earlier { (first : Map) → AreEarlier first self.old (told K.encoding earlier.old.items)
            → AreEarlier first self.new (told K.encoding earlier.new.items) }
    {
        let had = self.locations.get(key).copied();
        let remembered = key.clone()?;
        let own = key.clone()?;
        earlier.push((remembered, had))?;
        self.locations.insert(own, location)?;
        Ok(())
    }

    // Takes an operation at this location where it is an update, and remembers what its key had. Out of memory, the
    // places stay as they were.
    fn follow_update<F: Family, V: FixedValue>(
        &mut self,
        location: usize,
        operation: &OrderedOperation<F, K, V>,
        earlier: &mut Vec<(K, Option<usize>)>,
    ) -> Result<(), AllocError>
        ensures ok { OnOk result
            (self.new ≡ after_update location (meaning_of K.encoding V.encoding operation.now) self.old) }
        ensures earlier { (first : Map) → AreEarlier first self.old (told K.encoding earlier.old.items)
            → AreEarlier first self.new (told K.encoding earlier.new.items) }
    {
        match operation {
            Operation::Delete(_) => Ok(()),
            Operation::Update(update) => self.give(&update.key, location, earlier),
            Operation::CommitFloor(_, _) => Ok(()),
        }
    }

    // Takes the updates among these operations, one by one, and remembers what their keys had. Out of memory, some are
    // taken.
    fn follow_each_update<F: Family, V: FixedValue>(
        &mut self,
        start: usize,
        operations: &[OrderedOperation<F, K, V>],
        earlier: &mut Vec<(K, Option<usize>)>,
    ) -> Result<(), AllocError>
        requires { start + length operations.now < 2 ^ 64 }
        ensures ok { OnOk result
            (self.new ≡ updated start self.old (spec.meanings K.encoding V.encoding operations.now)) }
        ensures earlier { (first : Map) → AreEarlier first self.old (told K.encoding earlier.old.items)
            → AreEarlier first self.new (told K.encoding earlier.new.items) }
    {
        let mut location = start;
        for operation in operations {
            self.follow_update(location, operation, earlier)?;
            location += 1;
        }
        Ok(())
    }

    /// Takes the updates among these operations, the first of which stands at `start`, and answers what their keys had
    /// before, by which `take_back` undoes it. It fails only when out of memory, and the places then stay as they were.
    pub fn follow_updates<F: Family, V: FixedValue>(
        &mut self,
        start: usize,
        operations: &[OrderedOperation<F, K, V>],
    ) -> Result<Vec<(K, Option<usize>)>, AllocError>
        requires { start + length operations.now < 2 ^ 64 }
        ensures ok { OnOk result
            (self.new ≡ updated start self.old (spec.meanings K.encoding V.encoding operations.now)) }
        ensures earlier { IfOk result (λ earlier. AreEarlier self.old self.new (told K.encoding earlier.items)) }
        ensures err { OnErr result (self.new ≡ self.old) }
    {
        let mut earlier = Vec::new(self.alloc);
        match self.follow_each_update(start, operations, &mut earlier) {
            Ok(()) => Ok(earlier),
            Err(e) => {
                self.take_back(earlier);
                Err(e)
            }
        }
    }

    // Gives a key back what it had before. It takes no memory.
    fn put_back(&mut self, key: K, had: Option<usize>)
        requires { IsSome had → IsSome (value_at self.old (K.encoding key)) }
        ensures { self.new ≡ put_back self.old (K.encoding key, option_map (λ location. location ∷ []) had) }
    {
        match had {
            Some(location) => {
                let Ok(_) = self.locations.insert(key, location) else {
                    unreachable!()
                };
            }
            None => {
                self.locations.remove(&key);
            }
        }
    }

    /// Gives keys back what they had before, the last one first. It takes no memory: that a key that had a place has
    /// one is on the caller, as it is after `follow_updates`.
    pub fn take_back(&mut self, earlier: Vec<(K, Option<usize>)>)
        requires { CanTakeBack self.old (told K.encoding earlier.items) }
        ensures { self.new ≡ taken_back self.old (told K.encoding earlier.items) }
    {
        let mut earlier = earlier;
        while let Some((key, had)) = earlier.pop() {
            self.put_back(key, had);
        }
    }

    // Takes an operation where it is a delete. It takes no memory.
    fn follow_delete<F: Family, V: FixedValue>(&mut self, operation: &OrderedOperation<F, K, V>)
        ensures { self.new ≡ after_delete (meaning_of K.encoding V.encoding operation.now) self.old }
    {
        match operation {
            Operation::Delete(key) => {
                self.locations.remove(key);
            }
            Operation::Update(_) => {}
            Operation::CommitFloor(_, _) => {}
        }
    }

    /// Takes the deletes among these operations. It takes no memory.
    pub fn follow_deletes<F: Family, V: FixedValue>(
        &mut self,
        operations: &[OrderedOperation<F, K, V>],
    )
        ensures { self.new ≡ without_deleted self.old (spec.meanings K.encoding V.encoding operations.now) }
    {
        for operation in operations {
            self.follow_delete(operation);
        }
    }
}
