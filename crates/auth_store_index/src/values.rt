//! Values that are read of a log where they stand, and where a batch finds the values of its updates.

ghost use Rattle.std.specs.Prelude.{◌≡◌, ◌+◌, ◌≤◌, if◌then◌else◌, ℕ, List, IfOk, IfErr, OnOk, true};
ghost use Rattle.std.specs.Str.{bytes_eq};
ghost use Rattle.state_ops.specs.Operation as meaning;
ghost use Rattle.auth_store_index.specs.Refusals.{IfLog};
ghost use Rattle.auth_store_index.specs.Sources.{HasUpdate, IsReadable, is_at, reads_for, source_value, value_there};

use auth_store_parts::history::changes::is_same_value;
use state_ops::FixedValue;
use std::alloc::AllocError;

/// What values are read of by their locations (own).
pub trait LoggedValues<V: FixedValue> {
    /// Why a value isn't read.
    type Error: Drop;

    /// What the operations of the log say.
    ghost log: { Self → List meaning.Operation };

    /// How many values were read of it.
    ghost reads: { Self → ℕ };

    /// It may be read.
    ghost readable: { Self → Type 0 };

    /// What reads leave of it, one after the other, of which none is refused.
    ghost leads: { Self → Self → Type 0 };

    /// What they leave of it where the last one is refused for this.
    ghost refuses: { Self → Self → Self.Error → Type 0 };

    /// No read leaves it as it was.
    ghost none_leads: { (log : Self) → leads log log };

    /// What reads leave of what reads left is what all of them leave.
    ghost more_leads: { (one mid other : Self) → leads one mid → leads mid other → leads one other };

    /// So where the last of all is refused.
    ghost more_refuses: { (one mid other : Self) (error : Self.Error) → leads one mid → refuses mid other error
        → refuses one other error };

    /// It may be read behind reads of which none is refused.
    ghost stays_readable: { (one other : Self) → leads one other → readable one → readable other };

    /// The value that the update at this location names. It refuses only as the log does.
    fn value_at(&mut self, location: usize) -> Result<V, Self::Error>
        requires may { readable self.old }
        requires stands { HasUpdate (log self.old) location }
        ensures value { IfOk result (λ value. V.encoding value ≡ value_there (log self.old) location) }
        ensures same { log self.new ≡ log self.old }
        ensures one { reads self.new ≤ reads self.old + 1 }
        ensures leads { OnOk result (leads self.old self.new) }
        ensures refused { IfErr result (λ e. refuses self.old self.new e) };
}

/// Why the operations of a batch aren't made (own).
#[derive(Debug, Drop, thiserror::Error)]
pub enum ReadError<E> {
    /// Out of memory.
    #[error("out of memory")]
    Memory(AllocError),
    /// The log isn't read.
    #[error("the log isn't read")]
    Log(E),
}

impl<E> From<AllocError> for ReadError<E> {
    ghost use Rattle.std.specs.Prelude.{◌≡◌};
    ghost use Rattle.auth_store_index.specs.declared.values.ReadError.TheVariants.{Memory};

    ghost from_gives = { λ a e. e ≡ Memory a };

    fn from(e: AllocError) -> ReadError<E> {
        ReadError::Memory(e)
    }
}

/// Where a value is found.
#[derive(Drop)]
pub enum Source<V> {
    /// At this location of the log.
    Logged(usize),
    /// Here.
    Given(V),
}

/// The value that the update at a location of the log names. It refuses only as the log does.
fn read_at<V: FixedValue, L: LoggedValues<V>>(
    log: &mut L,
    location: usize,
) -> Result<V, ReadError<L::Error>>
    requires may { L.readable log.old }
    requires stands { HasUpdate (L.log log.old) location }
    ensures value { IfOk result (λ value. V.encoding value ≡ value_there (L.log log.old) location) }
    ensures same { L.log log.new ≡ L.log log.old }
    ensures one { L.reads log.new ≤ L.reads log.old + 1 }
    ensures leads { OnOk result (L.leads log.old log.new) }
    ensures refused { IfErr result (IfLog (L.leads log.old log.new) (L.refuses log.old log.new)) }
{
    match log.value_at(location) {
        Ok(value) => Ok(value),
        Err(error) => Err(ReadError::Log(error)),
    }
}

/// The value that a source names. It fails when out of memory, and where the log isn't read.
pub(crate) fn value_from<V: FixedValue, L: LoggedValues<V>>(
    log: &mut L,
    source: &Source<V>,
) -> Result<V, ReadError<L::Error>>
    requires may { L.readable log.old }
    requires readable { IsReadable (L.log log.old) source.now }
    ensures value { IfOk result (λ value. V.encoding value ≡ source_value V.encoding (L.log log.old) source.now) }
    ensures same { L.log log.new ≡ L.log log.old }
    ensures few { L.reads log.new ≤ L.reads log.old + reads_for source.now }
    ensures leads { OnOk result (L.leads log.old log.new) }
    ensures refused { IfErr result (IfLog (L.leads log.old log.new) (L.refuses log.old log.new)) }
{
    match source {
        Source::Logged(location) => read_at(log, *location),
        Source::Given(value) => Ok(value.clone()?),
    }
}

/// Whether the source still names this location, where it then names the value that stands there.
fn is_at_place<V: FixedValue>(source: &Source<V>, place: usize) -> bool
    ensures is { result ≡ is_at source.now place }
    ensures value { (log : List meaning.Operation) → result ≡ true
        → source_value V.encoding log source.now ≡ value_there log place }
{
    match source {
        Source::Logged(location) => *location == place,
        Source::Given(_) => false,
    }
}

/// Whether a source names the value that stands at a location. It fails when out of memory, and where the log isn't
/// read; it reads nothing where the source names that location.
pub(crate) fn has_value<V: FixedValue, L: LoggedValues<V>>(
    room: &mut Vec<u8>,
    log: &mut L,
    place: usize,
    source: &Source<V>,
) -> Result<bool, ReadError<L::Error>>
    requires may { L.readable log.old }
    requires stands { HasUpdate (L.log log.old) place }
    requires readable { IsReadable (L.log log.old) source.now }
    ensures what { IfOk result (λ same. same ≡ bytes_eq (value_there (L.log log.old) place)
        (source_value V.encoding (L.log log.old) source.now)) }
    ensures same { L.log log.new ≡ L.log log.old }
    ensures few { L.reads log.new ≤ L.reads log.old
        + (if is_at source.now place then 0 else 1 + reads_for source.now) }
    ensures leads { OnOk result (L.leads log.old log.new) }
    ensures refused { IfErr result (IfLog (L.leads log.old log.new) (L.refuses log.old log.new)) }
{
    if is_at_place(source, place) {
        return Ok(true);
    }
    let before: V = read_at(log, place)?;
    let after: V = value_from(log, source)?;
    Ok(is_same_value(room, &before, &after)?)
}
