//! Operations and updates as printed, written without building a string.

ghost use Rattle.std.specs.Prelude.{option_map, Some};
ghost use Rattle.std.specs.Fmt.{WritesOnOk};
ghost use Rattle.state_ops_parts.specs.Text as text;

use crate::hexadecimal::{HexEncoding, write_hex};
use crate::key::Key;
use crate::operation::Operation;
use crate::update::{Ordered, Unordered, Update};
use crate::value::ValueEncoding;
use merkle_forest::{Family, Location};
use std::fmt;

// Writes a name and the digits of some bytes.
fn write_field<W: fmt::Write>(name: &str, bytes: &[u8], f: &mut fmt::Formatter<W>) -> fmt::Result
    ensures { WritesOnOk W.write_str_gives f.old result (text.field_text name.now bytes.now) f.new }
{
    f.write_str(name)?;
    write_hex(bytes, f)
}

// Writes a value after its name, and ends the operation.
fn write_value<W: fmt::Write, V: HexEncoding>(value: &V, f: &mut fmt::Formatter<W>) -> fmt::Result
    ensures { WritesOnOk W.write_str_gives f.old result (text.value_text (V.encoding value.now)) f.new }
{
    f.write_str(" value:")?;
    value.fmt_hex(f)?;
    f.write_str("]")
}

// Writes a delete of the key of these bytes.
fn write_delete<W: fmt::Write>(key: &[u8], f: &mut fmt::Formatter<W>) -> fmt::Result
    ensures { WritesOnOk W.write_str_gives f.old result (text.delete_text key.now) f.new }
{
    write_field("[key:", key, f)?;
    f.write_str(" <deleted>]")
}

// Writes that a commit begins, and its metadata where it has some.
fn write_metadata<W: fmt::Write, V: HexEncoding>(
    metadata: &Option<V>,
    f: &mut fmt::Formatter<W>,
) -> fmt::Result
    ensures { WritesOnOk W.write_str_gives f.old result
        (text.metadata_text (option_map V.encoding metadata.now)) f.new }
{
    match metadata {
        None => f.write_str("[commit"),
        Some(value) => {
            f.write_str("[commit ")?;
            value.fmt_hex(f)
        }
    }
}

// Writes the floor of a commit, and ends the operation.
fn write_floor<W: fmt::Write, F: Family>(
    floor: Location<F>,
    f: &mut fmt::Formatter<W>,
) -> fmt::Result
    ensures { WritesOnOk W.write_str_gives f.old result (text.floor_text floor) f.new }
{
    write!(f, " with inactivity floor: {floor}]")
}

// Writes a commit.
fn write_commit<W: fmt::Write, F: Family, V: HexEncoding>(
    metadata: &Option<V>,
    floor: Location<F>,
    f: &mut fmt::Formatter<W>,
) -> fmt::Result
    ensures { WritesOnOk W.write_str_gives f.old result
        (text.commit_text (option_map V.encoding metadata.now) floor) f.new }
{
    write_metadata(metadata, f)?;
    write_floor(floor, f)
}

/// An ordered update is printed as its key, the next key and the value's encoding, in hexadecimal digits.
/// In the Rust: `qmdb::any::operation::update::Update::fmt`.
impl<K: Key, E: ValueEncoding> fmt::Display for Ordered<K, E>
where
    E::Value: HexEncoding,
{
    ghost output = { λ u. Some (text.ordered_text (K.bytes u.key) (K.bytes u.next_key) (E.Value.encoding u.value)) };

    fn fmt<W: fmt::Write>(&self, f: &mut fmt::Formatter<W>) -> fmt::Result {
        write_field("[key:", self.key.as_bytes(), f)?;
        write_field(" next_key:", self.next_key.as_bytes(), f)?;
        write_value(&self.value, f)
    }
}

/// An unordered update is printed as its key and the value's encoding, in hexadecimal digits.
/// In the Rust: `qmdb::any::operation::update::Update::fmt`.
impl<K: Key, E: ValueEncoding> fmt::Display for Unordered<K, E>
where
    E::Value: HexEncoding,
{
    ghost output = { λ u. Some (text.unordered_text (K.bytes u.0) (E.Value.encoding u.1)) };

    fn fmt<W: fmt::Write>(&self, f: &mut fmt::Formatter<W>) -> fmt::Result {
        write_field("[key:", self.0.as_bytes(), f)?;
        write_value(&self.1, f)
    }
}

/// An operation is printed in brackets: what it says of its key, or a commit's metadata and floor.
impl<F: Family, S: Update + fmt::Display> fmt::Display for Operation<F, S>
where
    S::Value: HexEncoding,
{
    ghost output = { λ o. text.operation_text S.Key.bytes S.Value.encoding S.output o };

    fn fmt<W: fmt::Write>(&self, f: &mut fmt::Formatter<W>) -> fmt::Result {
        match self {
            Operation::Delete(key) => write_delete(key.as_bytes(), f),
            Operation::Update(update) => update.fmt(f),
            Operation::CommitFloor(metadata, floor) => write_commit(metadata, *floor, f),
        }
    }
}
