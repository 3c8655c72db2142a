//! Bytes laid over a file.

ghost use Rattle.std.specs.Prelude.{◌≡◌, ◌^◌, ◌<◌, ◌≤◌, ◌+◌, ◌-◌, ◌++◌, ◌∷◌, [], length, take, drop, if◌then◌else◌};
ghost use Rattle.std.specs.Vec.{vec_len, vec_capacity};
ghost use Rattle.fault_storage_parts.specs.Files.{grown, resized, with_bytes, with_kept};

// Appends a byte for which there is room.
fn append(file: &mut Vec<u8>, byte: u8)
    requires room { vec_len file.old < vec_capacity file.old }
    ensures items { file.new.items ≡ file.old.items ++ (byte ∷ []) }
    ensures len { vec_len file.new ≡ vec_len file.old + 1 }
    ensures capacity { vec_capacity file.old ≤ vec_capacity file.new }
{
    let _ = file.push(byte);
}

/// Grows the file to `size` bytes by zeros, where it has fewer. There is room for them.
pub fn grow(file: &mut Vec<u8>, size: usize)
    requires room { size ≤ vec_capacity file.old }
    ensures grown { file.new.items ≡ grown size file.old.items }
    ensures capacity { vec_capacity file.old ≤ vec_capacity file.new }
{
    let have = file.len();
    for added in have..size {
        append(file, 0);
    }
}

/// Puts a byte at an offset, with zeros in a gap before it. There is room for it.
pub fn put_byte(file: &mut Vec<u8>, offset: usize, byte: u8)
    requires room { offset < vec_capacity file.old }
    ensures put { file.new.items ≡ with_bytes offset (byte ∷ []) file.old.items }
    ensures capacity { vec_capacity file.old ≤ vec_capacity file.new }
{
    if offset < file.len() {
        file[offset] = byte;
        return;
    }
    grow(file, offset);
    append(file, byte);
}

// Puts a byte at an offset where it is kept. There is room for it.
fn put_if(file: &mut Vec<u8>, offset: usize, byte: u8, is_kept: bool)
    requires room { offset < vec_capacity file.old }
    ensures put { file.new.items ≡ (if is_kept then with_bytes offset (byte ∷ []) file.old.items else file.old.items) }
    ensures capacity { vec_capacity file.old ≤ vec_capacity file.new }
{
    if is_kept {
        put_byte(file, offset, byte);
    }
}

/// Lays those of the bytes over the file, at an offset, that are kept. There is room for them.
pub fn put_kept(file: &mut Vec<u8>, offset: usize, bytes: &[u8], kept: &[bool])
    requires room { offset + length bytes.now ≤ vec_capacity file.old }
    ensures put { file.new.items ≡ with_kept offset bytes.now kept.now file.old.items }
    ensures capacity { vec_capacity file.old ≤ vec_capacity file.new }
{
    for index in 0..bytes.len().min(kept.len()) {
        put_if(file, offset + index, bytes[index], kept[index]);
    }
}

// Lays the bytes over others, which reach as far.
fn overwrite(file: &mut [u8], offset: usize, bytes: &[u8])
    requires { offset + length bytes.now ≤ length file.old }
    ensures { file.new ≡ take offset file.old ++ (bytes.now ++ drop (offset + length bytes.now) file.old) }
{
    file[offset..offset + bytes.len()].copy_from_slice(bytes);
}

/// Lays the bytes over the file at an offset, with zeros in a gap before them. There is room for them.
pub fn put_bytes(file: &mut Vec<u8>, offset: usize, bytes: &[u8])
    requires fits { offset + length bytes.now < 2 ^ 64 }
    requires room { offset + length bytes.now ≤ vec_capacity file.old }
    ensures put { file.new.items ≡ with_bytes offset bytes.now file.old.items }
{
    grow(file, offset + bytes.len());
    overwrite(file, offset, bytes);
}

/// Cuts the file to a size, or grows it to that by zeros. There is room for them.
pub fn resize(file: &mut Vec<u8>, size: usize)
    requires room { size ≤ vec_capacity file.old }
    ensures resized { file.new.items ≡ resized size file.old.items }
    ensures capacity { vec_capacity file.old ≤ vec_capacity file.new }
{
    file.truncate(size);
    grow(file, size);
}
