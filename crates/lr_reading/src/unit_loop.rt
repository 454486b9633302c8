//! Units into a consumer.
ghost use Rattle.std.specs.Prelude.{◌≡◌, ◌≤◌, [], IfOk, IfErr};
ghost use Rattle.lr_reading.specs.Inputs.{unit_bytes};
ghost use Rattle.lr_reading.specs.Readers.{leeway_for};
ghost use Rattle.lr_reading.specs.Runs.{TakesAll, TakesSome, course_of, lent};
ghost use Rattle.lr_forms.specs.declared.forms.Input.TheVariants.{Units};

use crate::arrival::Arrival;
use crate::consumer::Consumer;
use crate::next::Next;
use crate::outcome::unit_outcome;
use crate::read_counts::ReadCounts;
use crate::units::UnitFeed;
use lr_bits::{BLOCK_BYTES, FRAME_BYTES};
use lr_forms::UnitForm;
use lr_io::Source;
use lr_rs::RsScratch;

/// Leads the consumer through what becomes of each unit of N bytes.
pub(crate) fn read_units<const N: usize, S: Source, C: Consumer>(
    form: UnitForm,
    most: u64,
    source: &mut S,
    consumer: &mut C,
) -> Result<ReadCounts, C::Cause>
    requires size { N ≡ unit_bytes form }
    requires few { most ≤ C.most }
    requires ready { (c : C) × C.took c [] consumer.old }
    ensures all { IfOk result
        (λ totals. TakesAll (course_of S.Source C.took (Units form) most (leeway_for (Units form) 1)) totals
        (lent source.old consumer.old) (lent source.new consumer.new)) }
    ensures some { IfErr result
        (λ cause. TakesSome (course_of S.Source C.took (Units form) most (leeway_for (Units form) 1)) C.stopped cause
        (lent source.old consumer.old) (lent source.new consumer.new)) }
{
    let mut units = UnitFeed::<N>::new(most);
    let mut scratch = RsScratch::new();
    let mut frames = 0u64;
    'units: loop {
        match units.next(source) {
            Next::Ended(stop) => {
                return Ok(ReadCounts {
                    symbols: units.bytes_taken(),
                    frames,
                    left: units.len() as u64,
                    stop,
                });
            }
            Next::Whole => {
                let outcome = unit_outcome(form, units.unit(), &mut scratch);
                let arrival = Arrival {
                    position: None,
                    outcome,
                };
                consumer.take(&arrival)?;
                units.clear();
                frames += 1;
            }
        }
    }
}

/// Leads the consumer through what becomes of each unit of this form.
pub(crate) fn read_form<S: Source, C: Consumer>(
    form: UnitForm,
    most: u64,
    source: &mut S,
    consumer: &mut C,
) -> Result<ReadCounts, C::Cause>
    requires few { most ≤ C.most }
    requires ready { (c : C) × C.took c [] consumer.old }
    ensures all { IfOk result
        (λ totals. TakesAll (course_of S.Source C.took (Units form) most (leeway_for (Units form) 1)) totals
        (lent source.old consumer.old) (lent source.new consumer.new)) }
    ensures some { IfErr result
        (λ cause. TakesSome (course_of S.Source C.took (Units form) most (leeway_for (Units form) 1)) C.stopped cause
        (lent source.old consumer.old) (lent source.new consumer.new)) }
{
    match form {
        UnitForm::Blocks => read_units::<BLOCK_BYTES, S, C>(form, most, source, consumer),
        UnitForm::Frames => read_units::<FRAME_BYTES, S, C>(form, most, source, consumer),
    }
}
