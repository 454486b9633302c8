//! Time stamps as text.

ghost use Rattle.std.specs.Prelude.{◌≡◌, ◌<◌, ◌++◌, ℕ, List, IfOk, OnOk, OnErr, string_bytes, pos, ◌-ℤ◌};
ghost use Rattle.jiff.specs.Words.{epoch_day};
ghost use Rattle.lr_headers.specs.declared.stamp.TheConstants.{DAYS_TO_1970, MILLISECONDS};
ghost use Rattle.lr_headers.specs.Stamps.{IsDateText, IsStampText, other_text};

use crate::Stamp;
use jiff::civil::{Date, time};
use jiff::fmt::temporal::DateTimePrinter;
use jiff_core::civil::Date as Day;
use lr_bits::{Bytes, NoMemory};
use std::alloc::{AllocError, Global};

/// The days from 1 January 1958 to 1 January 1970.
const DAYS_TO_1970: i64 = 4_383;

/// The form of stamps that tell a date.
const DATE_FORM: u8 = 0x40;

/// The milliseconds of a day.
const MILLISECONDS: u32 = 86_400_000;

/// Appends the text of a time stamp, or nothing: `YYYY-MM-DDTHH:MM:SS.mmmZ` where it tells a date and a time, else its
/// three numbers.
pub fn stamp_text(alloc: Global, stamp: &Stamp, out: &mut Bytes) -> Result<(), NoMemory>
    ensures ok { OnOk result ((text : List ℕ) × IsStampText stamp.now text × (out.new ≡ out.old ++ text)) }
    ensures err { OnErr result (out.new ≡ out.old) }
{
    let text = if stamp.form == DATE_FORM && stamp.milliseconds < MILLISECONDS {
        date_text(alloc, stamp.days, stamp.milliseconds)?
    } else {
        other_text(alloc, stamp)?
    };
    out.extend(text.as_bytes())
}

/// The date that comes this many days after 1 January 1958.
fn day(days: u16) -> Date
    ensures { epoch_day result ≡ pos days -ℤ DAYS_TO_1970 }
{
    match Day::from_unix_epoch_day(i64::from(days) - DAYS_TO_1970) {
        Ok(day) => Date::from_plain(day),
        Err(_) => unreachable!(),
    }
}

fn date_text(alloc: Global, days: u16, milliseconds: u32) -> Result<String, AllocError>
    requires { milliseconds < MILLISECONDS }
    ensures { IfOk result (λ text. IsDateText days milliseconds (string_bytes text)) }
{
    let hour = milliseconds / 3_600_000;
    let minute = milliseconds / 60_000 % 60;
    let second = milliseconds / 1_000 % 60;
    let clock = time(
        hour as i8,
        minute as i8,
        second as i8,
        (milliseconds % 1_000 * 1_000_000) as i32,
    );
    let text = DateTimePrinter::new()
        .precision(Some(3))
        .datetime_text(day(days).to_datetime(clock).to_plain());
    format!(in alloc; "{}Z", text.as_str())
}

#[tactic(auto, unfolding(crate::specs::Stamps::other_text))]
fn other_text(alloc: Global, stamp: &Stamp) -> Result<String, AllocError>
    ensures { IfOk result (λ text. string_bytes text ≡ other_text stamp.now) }
{
    let Stamp {
        form,
        days,
        milliseconds,
    } = *stamp;
    format!(in alloc; "form {form} days {days} milliseconds {milliseconds}")
}
