//! The parts of a file: bytes, numbers, and numbers of bytes, taken from a source one after another.
ghost use Rattle.std.specs.Prelude.{◌≡◌, ◌<◌, ◌≤◌, ◌+◌, ◌-◌, max, [], ◌∷◌, take, length, vec_len, ◌++◌, IfOk, OnOk, IfErr, Some};
ghost use Rattle.std.specs.Int.{IsInRange};
ghost use Rattle.avro_container.specs.Forms.{raw, count as a_count, number as a_number, sized as a_sized};
ghost use Rattle.avro_container.specs.OneRead.{Stops, TakesMore, Allows};
ghost use Rattle.avro_container.specs.Taking.{state_of, Takes, Passed, Stopped, SizeFalls, NotUsedUp};
ghost use Rattle.avro_container.specs.declared.parts.Stop.TheVariants as TheStop;
ghost use Rattle.avro_schema.specs.Number.{zigzag};

use arrow_base::Source;

// How many bytes are asked for at once, and by how many a buffer grows before they are read.
const PIECE: usize = 65_536;

/// Why no more bytes are taken of a source.
#[derive(Clone, Copy, PartialEq, Eq, Debug)]
pub enum Stop {
    /// The source ended.
    Ended,
    /// The bytes at hand are wrong.
    Wrong,
    /// The stated size is used up.
    UsedUp,
    /// One byte more than the limit was taken.
    Limit,
    /// A read failed.
    Fault,
    /// There is no memory.
    Memory,
}

/// How many bytes may still be taken of a source.
#[derive(Drop, Clone, Copy)]
pub struct Allowance {
    /// How many in all.
    pub limit: u64,
    /// How many of a stated size (Avro 1.11, "Complex Types": blocks of a map), where one was stated.
    pub size_left: Option<u64>,
}

// Takes the next bytes into the buffer, from its start on, one at least.
pub(crate) fn take_some<S: Source>(
    source: &mut S,
    allowed: &mut Allowance,
    buffer: &mut [u8],
) -> Result<usize, Stop>
    requires { 0 < length buffer.old }
    ensures count { IfOk result (IsInRange 1 (length buffer.old)) }
    ensures taken { IfOk result (λ n. Takes
        (state_of S.left S.faults source.old allowed.old)
        (state_of S.left S.faults source.new allowed.new)
        (take n buffer.new)) }
    ensures stops { IfErr result (Stops
        (state_of S.left S.faults source.old allowed.old)
        (state_of S.left S.faults source.new allowed.new)) }
    ensures never_rises { allowed.new.limit ≤ allowed.old.limit }
    ensures same { S.identity source.new ≡ S.identity source.old }
{
    let most = allowed.most(buffer.len().min(PIECE))?;
    let prefix = &mut buffer[..most];
    match source.read(prefix) {
        Ok(0) => Err(Stop::Ended),
        Ok(n) => allowed.pass(n),
        Err(_) => Err(Stop::Fault),
    }
}

impl Allowance {
    // How many bytes may be asked for, of `wanted`. Where the limit is reached it is one, which
    // tells whether the source has more.
    fn most(&self, wanted: usize) -> Result<usize, Stop>
        requires { 0 < wanted }
        ensures ok { IfOk result (λ n. IsInRange 1 wanted n
            × Allows self.now.limit self.now.size_left n × NotUsedUp self.now.size_left 0) }
        ensures err { IfErr result (λ e. (e ≡ TheStop.UsedUp) × (self.now.size_left ≡ Some 0)) }
    {
        let mut most = wanted as u64;
        if let Some(size_left) = self.size_left {
            if size_left == 0 {
                return Err(Stop::UsedUp);
            }
            most = most.min(size_left);
        }
        if self.limit == 0 {
            return Ok(1);
        }
        Ok(most.min(self.limit) as usize)
    }

    // Refuses where a stated size is used up.
    fn not_used_up(&self) -> Result<(), Stop>
        ensures ok { OnOk result (NotUsedUp self.now.size_left 0) }
        ensures err { IfErr result (λ e. (e ≡ TheStop.UsedUp) × (self.now.size_left ≡ Some 0)) }
    {
        match self.size_left {
            Some(0) => Err(Stop::UsedUp),
            _ => Ok(()),
        }
    }

    // Counts bytes that were taken.
    fn pass(&mut self, n: usize) -> Result<usize, Stop>
        requires some { 0 < n }
        requires allowed { Allows self.old.limit self.old.size_left n }
        ensures ok { IfOk result (λ k. (k ≡ n) × (self.old.limit ≡ n + self.new.limit)
            × SizeFalls self.old.size_left self.new.size_left n) }
        ensures err { IfErr result (λ e. (e ≡ TheStop.Limit) × (self.old.limit ≡ 0) × (n ≡ 1)) }
        ensures never_rises { self.new.limit ≤ self.old.limit }
    {
        if self.limit == 0 {
            return Err(Stop::Limit);
        }
        self.limit -= n as u64;
        if let Some(size_left) = self.size_left {
            self.size_left = Some(size_left - n as u64);
        }
        Ok(n)
    }
}

// Takes a byte.
pub(crate) fn byte<S: Source>(source: &mut S, allowed: &mut Allowance) -> Result<u8, Stop>
    ensures taken { IfOk result (λ b. Takes
        (state_of S.left S.faults source.old allowed.old)
        (state_of S.left S.faults source.new allowed.new)
        (b ∷ [])) }
    ensures stops { IfErr result (Stops
        (state_of S.left S.faults source.old allowed.old)
        (state_of S.left S.faults source.new allowed.new)) }
    ensures same { S.identity source.new ≡ S.identity source.old }
{
    let mut buffer = [0u8; 1];
    take_some(source, allowed, &mut buffer)?;
    Ok(buffer[0])
}

// The signed number that zigzag encodes as `unsigned`.
fn signed(unsigned: u64) -> i64
    ensures { result ≡ zigzag unsigned }
{
    let half = (unsigned / 2) as i64;
    if unsigned % 2 == 0 { half } else { -1 - half }
}

// Takes a number.
pub(crate) fn number<S: Source>(source: &mut S, allowed: &mut Allowance) -> Result<i64, Stop>
    ensures ok { IfOk result (Passed a_number
        (state_of S.left S.faults source.old allowed.old)
        (state_of S.left S.faults source.new allowed.new)) }
    ensures stops { IfErr result (Stopped a_number
        (state_of S.left S.faults source.old allowed.old)
        (state_of S.left S.faults source.new allowed.new)) }
    ensures same { S.identity source.new ≡ S.identity source.old }
{
    let mut unsigned: u64 = 0;
    let mut index: u32 = 0;
    loop {
        let byte = byte(source, allowed)?;
        // Nine bytes have 63 bits: the tenth may add the last one, and no more.
        if index == 9 && byte > 1 {
            return Err(Stop::Wrong);
        }
        unsigned += ((byte % 128) as u64) << (7 * index);
        if byte < 128 {
            return Ok(signed(unsigned));
        }
        index += 1;
    }
}

// Takes bytes into a vector, from index `at` on, one at least.
fn fill_some<S: Source>(
    source: &mut S,
    allowed: &mut Allowance,
    bytes: &mut Vec<u8>,
    at: usize,
) -> Result<usize, Stop>
    requires { at < vec_len bytes.old }
    ensures count { IfOk result (λ n. IsInRange 1 (vec_len bytes.old) (at + n)) }
    ensures some { IfOk result (λ n. 0 < n) }
    ensures taken { IfOk result (λ n. TakesMore
        (state_of S.left S.faults source.old allowed.old)
        (state_of S.left S.faults source.new allowed.new)
        (take at bytes.old.items) (take (at + n) bytes.new.items)) }
    ensures stops { IfErr result (Stops
        (state_of S.left S.faults source.old allowed.old)
        (state_of S.left S.faults source.new allowed.new)) }
    ensures len { vec_len bytes.new ≡ vec_len bytes.old }
    ensures never_rises { allowed.new.limit ≤ allowed.old.limit }
    ensures same { S.identity source.new ≡ S.identity source.old }
{
    let n = take_some(source, allowed, &mut bytes[at..])?;
    Ok(n)
}

// Makes a vector that will have `n` bytes long enough for the bytes of one read from index `at` on,
// which are a piece at most.
fn extend_buffer(bytes: &mut Vec<u8>, at: usize, n: usize) -> Result<(), Stop>
    requires { (at ≤ vec_len bytes.old) × (vec_len bytes.old ≤ n) × (at < n) }
    ensures ok { OnOk result (at < vec_len bytes.new) }
    ensures within { OnOk result (vec_len bytes.new ≤ n) }
    ensures piece { vec_len bytes.new ≤ max (vec_len bytes.old) (at + PIECE) }
    ensures kept { OnOk result (take at bytes.new.items ≡ take at bytes.old.items) }
    ensures err { IfErr result (λ e. e ≡ TheStop.Memory) }
{
    let wanted = at + PIECE.min(n - at);
    if bytes.len() < wanted && bytes.resize(wanted, 0).is_err() {
        return Err(Stop::Memory);
    }
    Ok(())
}

/// Takes `n` bytes of a source. What `bytes` had is written over, so that its memory is used again.
/// Each buffer that the bytes of a header or a block are read into is filled by this call alone: of
/// a header the magic, each key, each value and the marker; of a block its rows with the marker.
///
/// `UsedUp` where the stated size has fewer bytes; `Limit` where one byte more than the limit was
/// taken; `Ended` where the source ended before; `Fault` where a read failed; `Memory`; never
/// `Wrong`. After an error nothing is promised of what bytes `bytes` holds. It is filled in pieces of
/// at most 65536 bytes, each asked for once the ones before it were read: so, whatever is answered,
/// it has at most as many bytes as before, or 65536 more than this call took (`grown`).
pub fn fill_buffer<S: Source>(
    source: &mut S,
    allowed: &mut Allowance,
    bytes: &mut Vec<u8>,
    n: usize,
) -> Result<(), Stop>
    ensures ok { OnOk result (Passed (raw n)
        (state_of S.left S.faults source.old allowed.old)
        (state_of S.left S.faults source.new allowed.new)
        bytes.new.items) }
    ensures stops { IfErr result (Stopped (raw n)
        (state_of S.left S.faults source.old allowed.old)
        (state_of S.left S.faults source.new allowed.new)) }
    // The limit falls by the bytes that were taken, the one past it aside.
    ensures grown { vec_len bytes.new
        ≤ max (vec_len bytes.old) (allowed.old.limit - allowed.new.limit + 65536) }
    ensures same { S.identity source.new ≡ S.identity source.old }
{
    bytes.truncate(n);
    let mut at = 0;
    while at < n {
        allowed.not_used_up()?;
        extend_buffer(bytes, at, n)?;
        at += fill_some(source, allowed, bytes, at)?;
    }
    Ok(())
}

// Takes a number of 0 or more.
pub(crate) fn count<S: Source>(source: &mut S, allowed: &mut Allowance) -> Result<usize, Stop>
    ensures ok { IfOk result (Passed a_count
        (state_of S.left S.faults source.old allowed.old)
        (state_of S.left S.faults source.new allowed.new)) }
    ensures stops { IfErr result (Stopped a_count
        (state_of S.left S.faults source.old allowed.old)
        (state_of S.left S.faults source.new allowed.new)) }
    ensures same { S.identity source.new ≡ S.identity source.old }
{
    let n = number(source, allowed)?;
    if n < 0 {
        return Err(Stop::Wrong);
    }
    Ok(n as usize)
}

// Takes a number n of 0 or more, and n bytes.
pub(crate) fn sized<S: Source>(
    source: &mut S,
    allowed: &mut Allowance,
    bytes: &mut Vec<u8>,
) -> Result<(), Stop>
    ensures ok { OnOk result (Passed a_sized
        (state_of S.left S.faults source.old allowed.old)
        (state_of S.left S.faults source.new allowed.new)
        bytes.new.items) }
    ensures stops { IfErr result (Stopped a_sized
        (state_of S.left S.faults source.old allowed.old)
        (state_of S.left S.faults source.new allowed.new)) }
    ensures same { S.identity source.new ≡ S.identity source.old }
{
    let n = count(source, allowed)?;
    fill_buffer(source, allowed, bytes, n)?;
    Ok(())
}
