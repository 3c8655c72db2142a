//! The log of a live store, read where it stands: on its blob, through its cache.
ghost use Rattle.auth_store_log.specs.Records.{format_of};
ghost use Rattle.auth_store_machine.specs.Reads.{LeadsTo, MayRead, RefusesAt, log_of_reader, over};
ghost use Rattle.auth_store_machine.specs.ReadsOn.{reads_more, reads_none, reads_on, reads_refused};

use auth_store_ledger::{LoggedOperations, LoggedValues};
use auth_store_log::{LogError, read_operation};
use fault_storage::Crc32;
use merkle_forest::Family;
use paged_blob::{Blob, CacheRef, Writer};
use state_ops::{FixedKey, FixedValue, Operation, OrderedOperation};
use std::alloc::Global;
use std::marker::PhantomData;

/// The log that a writer has on a blob, read through a cache.
#[derive(Drop)]
pub(crate) struct LogReader<'a, 'b, 'c, F: Family, K: FixedKey, V: FixedValue, B: Blob + 'a> {
    /// Where operations are put together.
    pub alloc: Global,
    /// The writer of the log.
    pub writer: &'c Writer<Crc32>,
    /// Its blob.
    pub blob: &'a mut B,
    /// The cache, which has pages of it.
    pub cache: &'b mut CacheRef,
    /// What operations are read.
    pub of: PhantomData<OrderedOperation<F, K, V>>,
}

impl<'a, 'b, 'c, F: Family, K: FixedKey, V: FixedValue, B: Blob + 'a> LoggedValues<V>
    for LogReader<'a, 'b, 'c, F, K, V, B> {
    type Error = LogError;

    ghost log = { log_of_reader (format_of (K.after tt) (V.after tt) K.SIZE V.SIZE)
        (λ r. record {
          blob = r.blob.ghost_name;
          cache = r.cache.ghost_name;
          writer = r.writer.now;
          now = over (B.calls r.blob.now) (B.failures r.blob.now) (B.left r.blob.now) r.cache.now;
        }) };

    ghost reads = { λ r. 0 };

    ghost readable = { MayRead (format_of (K.after tt) (V.after tt) K.SIZE V.SIZE)
        (λ r. record {
          blob = r.blob.ghost_name;
          cache = r.cache.ghost_name;
          writer = r.writer.now;
          now = over (B.calls r.blob.now) (B.failures r.blob.now) (B.left r.blob.now) r.cache.now;
        }) };

    ghost leads = { LeadsTo (format_of (K.after tt) (V.after tt) K.SIZE V.SIZE)
        (λ r. record {
          blob = r.blob.ghost_name;
          cache = r.cache.ghost_name;
          writer = r.writer.now;
          now = over (B.calls r.blob.now) (B.failures r.blob.now) (B.left r.blob.now) r.cache.now;
        }) };

    ghost refuses = { RefusesAt (format_of (K.after tt) (V.after tt) K.SIZE V.SIZE)
        (λ r. record {
          blob = r.blob.ghost_name;
          cache = r.cache.ghost_name;
          writer = r.writer.now;
          now = over (B.calls r.blob.now) (B.failures r.blob.now) (B.left r.blob.now) r.cache.now;
        }) };

    ghost none_leads = { reads_none (format_of (K.after tt) (V.after tt) K.SIZE V.SIZE)
        (λ r. record {
          blob = r.blob.ghost_name;
          cache = r.cache.ghost_name;
          writer = r.writer.now;
          now = over (B.calls r.blob.now) (B.failures r.blob.now) (B.left r.blob.now) r.cache.now;
        }) };

    ghost more_leads = { reads_more (format_of (K.after tt) (V.after tt) K.SIZE V.SIZE)
        (λ r. record {
          blob = r.blob.ghost_name;
          cache = r.cache.ghost_name;
          writer = r.writer.now;
          now = over (B.calls r.blob.now) (B.failures r.blob.now) (B.left r.blob.now) r.cache.now;
        }) };

    ghost more_refuses = { reads_refused (format_of (K.after tt) (V.after tt) K.SIZE V.SIZE)
        (λ r. record {
          blob = r.blob.ghost_name;
          cache = r.cache.ghost_name;
          writer = r.writer.now;
          now = over (B.calls r.blob.now) (B.failures r.blob.now) (B.left r.blob.now) r.cache.now;
        }) };

    ghost stays_readable = { reads_on (format_of (K.after tt) (V.after tt) K.SIZE V.SIZE)
        (λ r. record {
          blob = r.blob.ghost_name;
          cache = r.cache.ghost_name;
          writer = r.writer.now;
          now = over (B.calls r.blob.now) (B.failures r.blob.now) (B.left r.blob.now) r.cache.now;
        }) };

    fn value_at(&mut self, location: usize) -> Result<V, LogError> {
        let operation: OrderedOperation<F, K, V> = self.operation_at(location as u64)?;
        match operation {
            Operation::Update(update) => Ok(update.value),
            Operation::Delete(_) => unreachable!(),
            Operation::CommitFloor(_, _) => unreachable!(),
        }
    }
}

impl<'a, 'b, 'c, F: Family, K: FixedKey, V: FixedValue, B: Blob + 'a> LoggedOperations<F, K, V>
    for LogReader<'a, 'b, 'c, F, K, V, B> {
    fn operation_at(&mut self, location: u64) -> Result<OrderedOperation<F, K, V>, LogError> {
        read_operation::<F, K, V, B, Crc32>(
            self.writer,
            self.alloc,
            self.blob,
            self.cache,
            location,
        )
    }
}
