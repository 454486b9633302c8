//! A disk in memory, for tests: with a room, a number of calls, calls that fail, and what a stop inside a call leaves.
ghost use Rattle.std.specs.Prelude.{◌≡◌, ◌≤◌, max, length, vec_len, vec_capacity, IfOk, ◌^◌};
ghost use Rattle.lr_bits.specs.Faults.{Rose, OneMore};
ghost use Rattle.lr_bits.specs.Sizes.{most_u64};
ghost use Rattle.lr_disk.specs.Mem.{span};
ghost use Rattle.lr_disk.specs.Ranges.{ImagesKeepTheRest, KeepersAreImages};

use crate::Disk;
use crate::past::{Past, extend_within};
use crate::stop::Left;
use lr_bits::{Failed, NoMemory};
use std::alloc::Global;

/// Bytes in memory as a disk, with a room and a number of calls, one of which can be stated to fail. It keeps what it
/// had at first, each call, and all bytes that were written, so that it tells what a crash may leave. The room is that
/// for its contents, and again for all bytes written.
#[derive(Drop)]
pub struct MemDisk {
    past: Past,
    room: u64,
    most: u64,
    failing: Option<u64>,
    faults: u64,
    ghost few_bytes: { length past.bytes.items ≤ room },
    ghost few_logged: { length past.log.items ≤ room },
    ghost few_calls: { length past.calls.items ≤ most },
    ghost small: { max (length past.first.items) (span past.calls.items) ≤ room },
    ghost room_for_bytes: { room ≤ vec_capacity past.bytes },
    ghost room_for_log: { room ≤ vec_capacity past.log },
    ghost room_for_calls: { most ≤ vec_capacity past.calls },
}

/// That a crash image of a disk in memory has the bytes of the last sync outside each range written since, and a length
/// between the least and the greatest since then.
pub fn images_keep_the_rest()
    ensures { ImagesKeepTheRest }
{}

/// That each list of bytes with these and such a length is a crash image.
pub fn keepers_are_images()
    ensures { KeepersAreImages }
{}

/// One fault more.
fn count_fault(faults: &mut u64)
    ensures rose { Rose faults.old faults.new }
    ensures one { OneMore faults.old faults.new }
    ensures later { faults.old ≤ faults.new }
{
    *faults = faults.saturating_add(1);
}

impl MemDisk {
    ghost use Rattle.std.specs.Prelude.{◌≡◌, ◌+◌, ◌<◌, ◌≤◌, ◌⊎◌, Some, None, MatchBool, IfOk, min};
    ghost use Rattle.lr_disk.specs.Disk.{Only};
    ghost use Rattle.lr_disk.specs.MemDisk.{
      held_by,
      images_by,
      calls_made,
      calls_allowed,
      bytes_written,
      room_of,
      faults_of,
      failing_call,
      RefusesWrites,
      FailsCall,
      States,
    };
    ghost use Rattle.lr_disk.specs.Stop.{IsLeftInside, StopsInside};

    /// A disk with these bytes, on which nothing is pending. It takes all memory that its calls will need.
    pub fn of(alloc: Global, bytes: Vec<u8>, room: u64, calls: u64) -> Result<Self, NoMemory>
        requires { vec_len bytes ≤ room }
        ensures contents { IfOk result (λ disk. held_by disk ≡ bytes.items) }
        ensures durable { IfOk result (λ disk. Only bytes.items (images_by disk)) }
        ensures room { IfOk result (λ disk. room_of disk ≡ room) }
        ensures calls { IfOk result (λ disk. calls_allowed disk ≡ calls) }
        ensures made { IfOk result (λ disk. calls_made disk ≡ 0) }
        ensures written { IfOk result (λ disk. bytes_written disk ≡ 0) }
        ensures failing { IfOk result (λ disk. failing_call disk ≡ None) }
        ensures faults { IfOk result (λ disk. faults_of disk ≡ 0) }
    {
        let mut kept = Vec::with_capacity(alloc, room as usize)?;
        extend_within(&mut kept, &bytes);
        let log = Vec::with_capacity(alloc, room as usize)?;
        let list = Vec::with_capacity(alloc, calls as usize)?;
        Ok(MemDisk {
            past: Past {
                first: bytes,
                log,
                calls: list,
                bytes: kept,
            },
            room,
            most: calls,
            failing: None,
            faults: 0,
        })
    }

    /// The bytes that reads give.
    pub fn as_slice(&self) -> &[u8]
        ensures { result.now ≡ held_by self.now }
    {
        &self.past.bytes
    }

    /// How many calls were made, without those for which none was left.
    pub fn calls(&self) -> u64
        ensures { result ≡ calls_made self.now }
    {
        self.past.calls.len() as u64
    }

    /// States that the call of this number, counted from 0 from now on, fails once, in the place of one stated before.
    pub fn fail_at(&mut self, call: u64)
        ensures { States (Some (min (calls_made self.old + call) most_u64)) self.old self.new }
    {
        let made = self.past.calls.len() as u64;
        self.failing = Some(made.saturating_add(call));
    }

    /// The disk as a stop inside this call leaves it, counted from the first call on, with the same room and number of
    /// calls. It has made no call, has no fault, and no call of it is stated to fail. Kind 0 has nothing of what is
    /// pending then, kind 1 all of it, and kind 2 the byte 7F wherever any byte may stand.
    pub fn image(&self, alloc: Global, call: u64, kind: u8) -> Result<MemDisk, NoMemory>
        requires made { call < calls_made self.now }
        requires kind { kind ≤ 2 }
        ensures left { IfOk result (λ disk. StopsInside self.now call kind (held_by disk)) }
        ensures image { IfOk result (λ disk. IsLeftInside self.now call (held_by disk)) }
        ensures durable { IfOk result (λ disk. Only (held_by disk) (images_by disk)) }
        ensures room { IfOk result (λ disk. room_of disk ≡ room_of self.now) }
        ensures calls { IfOk result (λ disk. calls_allowed disk ≡ calls_allowed self.now) }
        ensures made { IfOk result (λ disk. calls_made disk ≡ 0) }
        ensures written { IfOk result (λ disk. bytes_written disk ≡ 0) }
        ensures failing { IfOk result (λ disk. failing_call disk ≡ None) }
        ensures faults { IfOk result (λ disk. faults_of disk ≡ 0) }
    {
        let mut left = Left::of(alloc, &self.past.first, self.room as usize)?;
        let before = call as usize;
        left.make_all(&self.past.log, &self.past.calls[..before]);
        left.stop_in(&self.past.log, self.past.calls[before]);
        MemDisk::of(alloc, left.kind(kind), self.room, self.most)
    }

    /// Whether the call that begins fails, and is then counted: no call is left, or it is stated to fail.
    fn is_refused(&mut self) -> bool
        ensures { MatchBool result (FailsCall self.old self.new) ((self.new ≡ self.old)
            × (RefusesWrites self.old → ⊥)) }
    {
        let made = self.past.calls.len() as u64;
        if made >= self.most {
            count_fault(&mut self.faults);
            return true;
        }
        if self.failing == Some(made) {
            self.past.keep();
            count_fault(&mut self.faults);
            return true;
        }
        false
    }
}

impl Disk for MemDisk {
    ghost use Rattle.std.specs.Prelude.{
      ◌≡◌,
      ◌↔◌,
      ◌⊎◌,
      ◌<◌,
      ◌≤◌,
      ◌+◌,
      ◌-◌,
      min,
      length,
      take,
      IfOk,
      OnOk,
      OnErr,
      IsErr,
      is_ok,
      if◌then◌else◌,
    };
    ghost use Rattle.lr_bits.specs.Faults.{HasCause, FailsAtOnce};
    ghost use Rattle.lr_disk.specs.Disk.{
      Written,
      Torn,
      Cut,
      bytes_at,
      FollowsWrite,
      SameImages,
      KeepsImages,
      NoOther,
      Only,
      Elapses,
    };
    ghost use Rattle.std.proofs.Common.{refl, ◌∙◌};
    ghost use Rattle.lr_disk.specs.Mem.{leaves_its_contents, counts_this_moment, only_this_moment};
    ghost use Rattle.lr_disk.specs.MemDisk.{
      HasNoWrite,
      held_by,
      images_by,
      left_since as left_by,
      calls_made,
      faults_of,
      RefusesWrites,
      IsPastRoom,
      CountsCall,
    };

    ghost faults = { faults_of };

    ghost tells = { λ _. Unit {0} };

    ghost contents = { held_by };

    ghost may_leave = { images_by };

    ghost moment = { calls_made };

    ghost left_since = { left_by };

    ghost only_read = { HasNoWrite };

    ghost leaves_contents = { λ d _. leaves_its_contents d.past.first.items d.past.log.items d.past.calls.items
        d.past.bytes.items d.past.same };

    ghost counts_now = { λ d t c _ le image. counts_this_moment d.past.first.items d.past.log.items
        d.past.calls.items t c le image };

    ghost reads_none = { λ d. record { contents = refl; written = refl } };

    ghost reads_on = { λ d e f first second. record {
      contents = second.contents ∙ first.contents;
      written = second.written ∙ first.written;
    } };

    ghost only_now = { λ d c _ left. only_this_moment d.past.first.items d.past.log.items d.past.calls.items c left };

    /// It fails exactly where no call is left or it is stated to. This takes no memory, and neither do the other calls.
    fn length(&mut self) -> Result<u64, Failed>
        ensures cause { HasCause (faults_of self.old) (faults_of self.new) result }
        ensures only_read { HasNoWrite self.old self.new }
        ensures errors { FailsAtOnce (faults_of self.old) (faults_of self.new) result }
        ensures size { IfOk result (λ n. n ≡ length (held_by self.old)) }
        ensures contents { held_by self.new ≡ held_by self.old }
        ensures crash { SameImages (images_by self.old) (images_by self.new) }
        ensures time { Elapses (calls_made self.old) (calls_made self.new)
            (left_by self.old) (left_by self.new) (images_by self.new) }
        ensures exact { IsErr result ↔ RefusesWrites self.old }
        ensures limits { CountsCall 0 self.old self.new }
    {
        if self.is_refused() {
            return Err(Failed);
        }
        self.past.keep();
        Ok(self.past.bytes.len() as u64)
    }

    /// It fails exactly where no call is left or it is stated to.
    fn read(&mut self, at: u64, into: &mut [u8]) -> Result<usize, Failed>
        requires { 0 < length into.old }
        ensures cause { HasCause (faults_of self.old) (faults_of self.new) result }
        ensures only_read { HasNoWrite self.old self.new }
        ensures errors { FailsAtOnce (faults_of self.old) (faults_of self.new) result }
        ensures within { IfOk result (λ n. n ≤ length into.new) }
        ensures count { IfOk result (λ n. n ≡ min (length into.new) (length (held_by self.old) - at)) }
        ensures bytes { IfOk result (λ n. take n into.new ≡ bytes_at at n (held_by self.old)) }
        ensures contents { held_by self.new ≡ held_by self.old }
        ensures crash { SameImages (images_by self.old) (images_by self.new) }
        ensures time { Elapses (calls_made self.old) (calls_made self.new)
            (left_by self.old) (left_by self.new) (images_by self.new) }
        ensures exact { IsErr result ↔ RefusesWrites self.old }
        ensures limits { CountsCall 0 self.old self.new }
    {
        if self.is_refused() {
            return Err(Failed);
        }
        self.past.keep();
        let size = self.past.bytes.len();
        if at >= size as u64 {
            return Ok(0);
        }
        let from = at as usize;
        let count = into.len().min(size - from);
        into[..count].copy_from_slice(&self.past.bytes[from..from + count]);
        Ok(count)
    }

    /// It fails exactly where no call is left or it is stated to, or where the bytes would take the contents, or all
    /// bytes written so far, past the room. Where it fails nothing was written. A gap is filled with zeros.
    fn write_at(&mut self, at: u64, bytes: &[u8]) -> Result<(), Failed>
        requires some { 0 < length bytes.now }
        requires low { at + length bytes.now ≤ 2 ^ 62 }
        ensures cause { HasCause (faults_of self.old) (faults_of self.new) result }
        ensures errors { FailsAtOnce (faults_of self.old) (faults_of self.new) result }
        ensures written { OnOk result (Written at bytes.now (held_by self.old) (held_by self.new)) }
        ensures torn { Torn (min at (length (held_by self.old))) (at + length bytes.now)
            (held_by self.old) (held_by self.new) }
        ensures crash { FollowsWrite (Torn (min at (length (held_by self.old))) (at + length bytes.now))
            (images_by self.old) (images_by self.new) }
        ensures kept { KeepsImages (images_by self.old) (images_by self.new) }
        ensures time { Elapses (calls_made self.old) (calls_made self.new)
            (left_by self.old) (left_by self.new) (images_by self.new) }
        ensures exact { IsErr result ↔ (RefusesWrites self.old ⊎ IsPastRoom self.old at (length bytes.now)) }
        ensures unwritten { OnErr result (held_by self.new ≡ held_by self.old) }
        ensures limits { CountsCall (if is_ok result then length bytes.now else 0) self.old self.new }
    {
        if self.is_refused() {
            return Err(Failed);
        }
        let count = bytes.len() as u64;
        if at + count > self.room || count > self.room - self.past.log.len() as u64 {
            self.past.keep();
            count_fault(&mut self.faults);
            return Err(Failed);
        }
        self.past.write(at, bytes);
        Ok(())
    }

    /// It fails exactly where no call is left or it is stated to, and then takes nothing away.
    fn cut(&mut self, length: u64) -> Result<(), Failed>
        ensures cause { HasCause (faults_of self.old) (faults_of self.new) result }
        ensures errors { FailsAtOnce (faults_of self.old) (faults_of self.new) result }
        ensures cut { OnOk result (held_by self.new ≡ take length (held_by self.old)) }
        ensures failed { OnErr result
            ((held_by self.new ≡ take length (held_by self.old)) ⊎ (held_by self.new ≡ held_by self.old)) }
        ensures crash { FollowsWrite (Cut length) (images_by self.old) (images_by self.new) }
        ensures kept { KeepsImages (images_by self.old) (images_by self.new) }
        ensures time { Elapses (calls_made self.old) (calls_made self.new)
            (left_by self.old) (left_by self.new) (images_by self.new) }
        ensures exact { IsErr result ↔ RefusesWrites self.old }
        ensures uncut { OnErr result (held_by self.new ≡ held_by self.old) }
        ensures limits { CountsCall 0 self.old self.new }
    {
        if self.is_refused() {
            return Err(Failed);
        }
        self.past.cut(length);
        Ok(())
    }

    /// It fails exactly where no call is left or it is stated to.
    fn sync(&mut self) -> Result<(), Failed>
        ensures cause { HasCause (faults_of self.old) (faults_of self.new) result }
        ensures only_read { HasNoWrite self.old self.new }
        ensures errors { FailsAtOnce (faults_of self.old) (faults_of self.new) result }
        ensures durable { OnOk result (Only (held_by self.new) (images_by self.new)) }
        ensures contents { held_by self.new ≡ held_by self.old }
        ensures crash { NoOther (images_by self.old) (images_by self.new) }
        ensures time { Elapses (calls_made self.old) (calls_made self.new)
            (left_by self.old) (left_by self.new) (images_by self.new) }
        ensures exact { IsErr result ↔ RefusesWrites self.old }
        ensures limits { CountsCall 0 self.old self.new }
    {
        if self.is_refused() {
            return Err(Failed);
        }
        self.past.sync();
        Ok(())
    }
}
