//! A bundle is taken whole.
ghost use Rattle.std.specs.Prelude.{◌≡◌, IfOk, IfErr};
ghost use Rattle.lr_cmd_downlinks.specs.Taking.{TakesBytes, TakingWantsMemory, TakesBundle, TakesNone};
ghost use Rattle.lr_cmd_downlinks.specs.Taking.{bundle_by, flaw_of, unless_stopped};

use lr_bits::{Bytes, Failed, NoMemory};
use lr_causes::{BundleFlaw, Cause, Party, Refusal};
use lr_downlinks::{Bundle, BundleFault, MOST_BUNDLE_BYTES};
use lr_forms::Stop;
use lr_io::Source;
use std::alloc::Global;

/// How many bytes are taken at once, at most.
const PIECE_BYTES: usize = 16_384;

/// How many bytes are taken, at most: one more than a bundle can have.
const MOST_TAKEN: usize = MOST_BUNDLE_BYTES + 1;

/// Takes the bytes of the source up to its end, or as many as are taken at most.
fn take_bytes<S: Source>(alloc: Global, source: &mut S) -> Result<(Bytes, Stop), NoMemory>
    ensures taken { IfOk result (λ taken. TakesBytes S.Source taken.0 taken.1 source.old source.new) }
    ensures refused { IfErr result (λ _. TakingWantsMemory S.Source source.old source.new) }
{
    let mut bytes = Bytes::new(alloc);
    let mut piece = [0; PIECE_BYTES];
    let mut size = 0;
    'pieces: while size < MOST_TAKEN {
        let most = PIECE_BYTES.min(MOST_TAKEN - size);
        match source.take(&mut piece[..most]) {
            Ok(0) => return Ok((bytes, Stop::End)),
            Ok(count) => {
                bytes.extend(&piece[..count])?;
                size += count;
            }
            Err(Failed) => return Ok((bytes, Stop::Fault)),
        }
    }
    Ok((bytes, Stop::Limit))
}

/// Why bytes are no bundle.
fn flaw_of(fault: BundleFault) -> BundleFlaw
    ensures { result ≡ flaw_of fault }
{
    match fault {
        BundleFault::Ended { at } => BundleFlaw::Ended { at },
        BundleFault::Count { count } => BundleFlaw::Count { count },
        BundleFault::Rest { at } => BundleFlaw::Rest { at },
    }
}

/// Nothing where the source ended after the bytes that were taken, or the cause for which no bundle is read of them.
fn unless_stopped(stop: Stop) -> Result<(), Cause>
    ensures { result ≡ unless_stopped stop }
{
    match stop {
        Stop::End => Ok(()),
        Stop::Limit => Err(Cause::Refused(Refusal::BadBundle(BundleFlaw::TooLong))),
        Stop::Fault => Err(Cause::Failed(Party::Source)),
    }
}

/// The bundle that bytes are read as, or the cause for which they are none.
fn bundle_by(read: Result<Bundle, BundleFault>) -> Result<Bundle, Cause>
    ensures { result ≡ bundle_by read }
{
    match read {
        Ok(bundle) => Ok(bundle),
        Err(fault) => Err(Cause::Refused(Refusal::BadBundle(flaw_of(fault)))),
    }
}

/// The bundle that the source gives up to its end.
pub(crate) fn take_bundle<S: Source>(alloc: Global, source: &mut S) -> Result<Bundle, Cause>
    ensures taken { IfOk result (λ bundle. TakesBundle S.Source bundle source.old source.new) }
    ensures refused { IfErr result (λ cause. TakesNone S.Source cause source.old source.new) }
{
    let (bytes, stop) = take_bytes(alloc, source)?;
    if let Err(cause) = unless_stopped(stop) {
        return Err(cause);
    }
    bundle_by(Bundle::read(bytes))
}
