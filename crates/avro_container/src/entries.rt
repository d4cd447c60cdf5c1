//! The entries of a header's metadata: a map, in blocks of entries.
ghost use Rattle.std.specs.Prelude.{◌≡◌, ◌≢◌, ◌<◌, ◌≤◌, ◌+◌, ◌++◌, ◌^◌, [], List, ℕ, length, IfOk, OnOk, IfErr, Some, None, codes, Bool, true, false, pos};
ghost use Rattle.std.specs.Bool.{OnTrue, OnFalse};
ghost use Rattle.std.specs.Str.{IsUtf8};
ghost use Rattle.avro_container.specs.File.{the_entry};
ghost use Rattle.avro_container.specs.FileForms.{entry, key_form, sized_many};
ghost use Rattle.avro_container.specs.Forms.{many, under, block_of, blocks, number as a_number, signed_of};
ghost use Rattle.avro_container.specs.Kept.{TakesEntry, TakesEntries, later};
ghost use Rattle.avro_container.specs.Taking.{state_of, Takes, Passed, Stopped};
ghost use Rattle.avro_container.specs.declared.parts.Stop.TheVariants as TheStop;

use crate::parts::{Allowance, Stop, count, number, sized};
use arrow_base::{Bytes, Source};
use std::alloc::Global;

// What is kept of the entries: the last value of each of two keys.
#[derive(Drop)]
pub(crate) struct Found {
    pub(crate) schema: Option<Bytes>,
    pub(crate) codec: Option<Bytes>,
}

impl Found {
    // Keeps the value of an entry, where its key is one of the two.
    fn put(&mut self, key: &[u8], value: Bytes)
        ensures schema { self.new.schema ≡ later (codes "avro.schema") self.old.schema
            (the_entry key.now value) }
        ensures codec { self.new.codec ≡ later (codes "avro.codec") self.old.codec
            (the_entry key.now value) }
    {
        if key == b"avro.schema".as_slice() {
            self.schema = Some(value);
        } else if key == b"avro.codec".as_slice() {
            self.codec = Some(value);
        }
    }
}

// Whether the bytes are UTF-8.
fn is_utf8(bytes: &[u8]) -> bool
    ensures yes { OnTrue result (IsUtf8 bytes.now) }
    ensures no { OnFalse result (IsUtf8 bytes.now → ⊥) }
{
    std::str::from_utf8(bytes).is_ok()
}

// Takes a key, which is UTF-8.
fn take_key<S: Source>(
    alloc: Global,
    source: &mut S,
    allowed: &mut Allowance,
) -> Result<Vec<u8>, Stop>
    ensures ok { IfOk result (λ key. Passed key_form
        (state_of S.left S.faults source.old allowed.old)
        (state_of S.left S.faults source.new allowed.new)
        key.items) }
    ensures stops { IfErr result (Stopped key_form
        (state_of S.left S.faults source.old allowed.old)
        (state_of S.left S.faults source.new allowed.new)) }
    ensures same { S.identity source.new ≡ S.identity source.old }
{
    let mut key = Vec::new(alloc);
    sized(source, allowed, &mut key)?;
    if !is_utf8(&key) {
        return Err(Stop::Wrong);
    }
    Ok(key)
}

// Takes an entry, and keeps its value where its key asks for it.
fn take_entry<S: Source>(
    alloc: Global,
    source: &mut S,
    allowed: &mut Allowance,
    found: &mut Found,
) -> Result<(), Stop>
    ensures ok { OnOk result (TakesEntry
        (state_of S.left S.faults source.old allowed.old)
        (state_of S.left S.faults source.new allowed.new)
        found.old.schema found.new.schema found.old.codec found.new.codec) }
    ensures stops { IfErr result (Stopped entry
        (state_of S.left S.faults source.old allowed.old)
        (state_of S.left S.faults source.new allowed.new)) }
    ensures same { S.identity source.new ≡ S.identity source.old }
{
    let key = take_key(alloc, source, allowed)?;
    let mut value = Vec::new(alloc);
    sized(source, allowed, &mut value)?;
    found.put(&key, Bytes::from_vec(value));
    Ok(())
}

// Takes `n` entries.
fn take_entries<S: Source>(
    alloc: Global,
    source: &mut S,
    allowed: &mut Allowance,
    n: u64,
    found: &mut Found,
) -> Result<(), Stop>
    ensures ok { OnOk result (TakesEntries (many entry n)
        (state_of S.left S.faults source.old allowed.old)
        (state_of S.left S.faults source.new allowed.new)
        found.old.schema found.new.schema found.old.codec found.new.codec) }
    ensures stops { IfErr result (Stopped (many entry n)
        (state_of S.left S.faults source.old allowed.old)
        (state_of S.left S.faults source.new allowed.new)) }
    ensures same { S.identity source.new ≡ S.identity source.old }
{
    for index in 0..n {
        take_entry(alloc, source, allowed, found)?;
    }
    Ok(())
}

// The count of a block of entries: how many they are, and whether their size is stated, which it is
// where the count is below 0.
#[derive(Drop, Clone, Copy)]
struct BlockCount {
    entries: u64,
    is_sized: bool,
}

// Takes the count of a block.
fn block_count<S: Source>(source: &mut S, allowed: &mut Allowance) -> Result<BlockCount, Stop>
    ensures ok { IfOk result (λ c. Passed a_number
        (state_of S.left S.faults source.old allowed.old)
        (state_of S.left S.faults source.new allowed.new)
        (signed_of c.is_sized c.entries)) }
    ensures stops { IfErr result (Stopped a_number
        (state_of S.left S.faults source.old allowed.old)
        (state_of S.left S.faults source.new allowed.new)) }
    ensures same { S.identity source.new ≡ S.identity source.old }
{
    let n = number(source, allowed)?;
    Ok(BlockCount {
        entries: n.unsigned_abs(),
        is_sized: n < 0,
    })
}

// Takes `n` entries whose size was stated, which has to be exact: no byte past it is taken.
fn take_within<S: Source>(
    alloc: Global,
    source: &mut S,
    allowed: &mut Allowance,
    size: usize,
    n: u64,
    found: &mut Found,
) -> Result<(), Stop>
    requires { allowed.old.size_left ≡ None }
    ensures ok { OnOk result (TakesEntries (under (pos size) (many entry n))
        (state_of S.left S.faults source.old allowed.old)
        (state_of S.left S.faults source.new allowed.new)
        found.old.schema found.new.schema found.old.codec found.new.codec) }
    ensures stops { IfErr result (Stopped (under (pos size) (many entry n))
        (state_of S.left S.faults source.old allowed.old)
        (state_of S.left S.faults source.new allowed.new)) }
    ensures size_left { allowed.new.size_left ≡ None }
    ensures same { S.identity source.new ≡ S.identity source.old }
{
    allowed.size_left = Some(size as u64);
    let taken = take_entries(alloc, source, allowed, n, found);
    let left = allowed.size_left;
    allowed.size_left = None;
    match taken {
        Ok(()) => used_up(left),
        Err(Stop::UsedUp) => Err(Stop::Wrong),
        Err(stop) => Err(stop),
    }
}

// Whether nothing is left of the stated size.
fn used_up(left: Option<u64>) -> Result<(), Stop>
    ensures ok { OnOk result (left ≡ Some 0) }
    ensures err { IfErr result (λ e. (e ≡ TheStop.Wrong) × (left ≢ Some 0)) }
{
    if left == Some(0) {
        Ok(())
    } else {
        Err(Stop::Wrong)
    }
}

// Takes `n` entries, and before them their size in bytes.
fn take_sized_entries<S: Source>(
    alloc: Global,
    source: &mut S,
    allowed: &mut Allowance,
    n: u64,
    found: &mut Found,
) -> Result<(), Stop>
    requires { allowed.old.size_left ≡ None }
    ensures ok { OnOk result (TakesEntries (sized_many n)
        (state_of S.left S.faults source.old allowed.old)
        (state_of S.left S.faults source.new allowed.new)
        found.old.schema found.new.schema found.old.codec found.new.codec) }
    ensures stops { IfErr result (Stopped (sized_many n)
        (state_of S.left S.faults source.old allowed.old)
        (state_of S.left S.faults source.new allowed.new)) }
    ensures size_left { OnOk result (allowed.new.size_left ≡ None) }
    ensures same { S.identity source.new ≡ S.identity source.old }
{
    let size = count(source, allowed)?;
    take_within(alloc, source, allowed, size, n, found)?;
    Ok(())
}

// Takes what stands after the count of a block: its entries, and before them their size where it is
// stated.
fn take_block_of<S: Source>(
    alloc: Global,
    source: &mut S,
    allowed: &mut Allowance,
    count: BlockCount,
    found: &mut Found,
) -> Result<(), Stop>
    requires some { 0 < count.entries }
    requires no_size { allowed.old.size_left ≡ None }
    ensures ok { OnOk result (TakesEntries (block_of entry (signed_of count.is_sized count.entries))
        (state_of S.left S.faults source.old allowed.old)
        (state_of S.left S.faults source.new allowed.new)
        found.old.schema found.new.schema found.old.codec found.new.codec) }
    ensures stops { IfErr result (Stopped (block_of entry (signed_of count.is_sized count.entries))
        (state_of S.left S.faults source.old allowed.old)
        (state_of S.left S.faults source.new allowed.new)) }
    ensures size_left { OnOk result (allowed.new.size_left ≡ None) }
    ensures same { S.identity source.new ≡ S.identity source.old }
{
    if count.entries >= 1 << 63 {
        return Err(Stop::Wrong);
    }
    if count.is_sized {
        take_sized_entries(alloc, source, allowed, count.entries, found)?;
        return Ok(());
    }
    take_entries(alloc, source, allowed, count.entries, found)?;
    Ok(())
}

// Takes blocks of entries, up to the number 0 that ends a map.
pub(crate) fn take_map<S: Source>(
    alloc: Global,
    source: &mut S,
    allowed: &mut Allowance,
    found: &mut Found,
) -> Result<(), Stop>
    requires { allowed.old.size_left ≡ None }
    ensures ok { OnOk result (TakesEntries (blocks entry)
        (state_of S.left S.faults source.old allowed.old)
        (state_of S.left S.faults source.new allowed.new)
        found.old.schema found.new.schema found.old.codec found.new.codec) }
    ensures stops { IfErr result (Stopped (blocks entry)
        (state_of S.left S.faults source.old allowed.old)
        (state_of S.left S.faults source.new allowed.new)) }
    ensures size_left { OnOk result (allowed.new.size_left ≡ None) }
    ensures same { S.identity source.new ≡ S.identity source.old }
{
    loop {
        let count = block_count(source, allowed)?;
        if count.entries == 0 {
            return Ok(());
        }
        take_block_of(alloc, source, allowed, count, found)?;
    }
}
