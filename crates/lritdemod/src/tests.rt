//! What no clause says: texts, what a call's words ask for, and a reader that fails.

use crate::cause::Cause;
use crate::downlink::{NAMES, downlink_named};
use crate::input::{After, Input};
use crate::plan::{NoPlan, Told, plan_of};
use crate::report::{Json, Report};
use crate::sigmf::told_by;
use crate::words::request_of;
use lr_demod::{Form, Lock, Reception, Refusal};
use std::alloc::{AllocError, Global};
use std::io::{self, Read};

#[test]
fn causes_have_the_statuses_of_the_station(rt: HostRuntime) {
    for (cause, status) in [
        (Cause::Usage, 2u8),
        (Cause::Input, 3),
        (Cause::Output, 5),
        (Cause::NoMemory, 9),
    ] {
        assert_eq!(rt; cause.status(), status);
    }
}

#[test]
fn downlinks_have_their_names(rt: HostRuntime) {
    for name in NAMES {
        assert!(rt;
            matches!(downlink_named(name), Some(downlink) if downlink.name == name),
            "{name}"
        );
    }
}

#[test]
fn what_is_told_reads_well(rt: HostRuntime) -> Result<(), AllocError> {
    let lock = Lock {
        es_n0: -1.26,
        carrier: -7012.4,
        clock: 19.96,
    };
    let reception = Reception {
        samples: 2400000,
        level: -20.04,
        clipped: 0.0013,
        lock: Some(lock),
    };
    let report = Report {
        seconds: 3.0,
        reception,
    };
    let line =
        "3.0 s: level -20.0 dB, clipped 0.13 %, locked, Es/N0 -1.3 dB, carrier -7012 Hz, clock 20.0 ppm";
    assert_eq!(rt; format!(in rt.alloc(); "{report}")?.as_str(), line);
    let json = Json { report };
    let line =
        "{\"seconds\": 3.0, \"level_db\": -20.04, \"clipped_percent\": 0.13, \"locked\": true, \
        \"es_n0_db\": -1.26, \"carrier_hz\": -7012.4, \"clock_ppm\": 19.96}";
    assert_eq!(rt; format!(in rt.alloc(); "{json}")?.as_str(), line);
    let json = Json {
        report: Report {
            seconds: 0.5,
            reception: Reception {
                lock: None,
                ..reception
            },
        },
    };
    let line =
        "{\"seconds\": 0.5, \"level_db\": -20.04, \"clipped_percent\": 0.13, \"locked\": false, \
        \"es_n0_db\": null, \"carrier_hz\": null, \"clock_ppm\": null}";
    assert_eq!(rt; format!(in rt.alloc(); "{json}")?.as_str(), line);
    Ok(())
}

fn words_of(alloc: Global, words: &[&str]) -> Result<Vec<String>, AllocError> {
    let mut list = Vec::new(alloc);
    list.push(String::from_str(alloc, "lritdemod")?)?;
    for word in words {
        list.push(String::from_str(alloc, word)?)?;
    }
    Ok(list)
}

#[test]
fn a_plan_follows_the_call_before_the_recording(rt: HostRuntime) -> Result<(), Cause> {
    let words = words_of(rt.alloc(), &["--downlink", "goes-hrit", "--scale", "40"])?;
    let Some(request) = request_of(&rt, &words)? else {
        panic!(rt; "no request");
    };
    assert!(rt; matches!(plan_of(&request, None), Err(NoPlan::NoRate)));
    let told = Told {
        rate: 2400000.0,
        form: Form::S16,
    };
    let Ok(plan) = plan_of(&request, Some(told)) else {
        panic!(rt; "no plan");
    };
    assert!(rt; plan.settings.symbols == 927000.0 && plan.settings.roll_off == 0.3);
    assert!(rt; plan.settings.scale == 40.0 && plan.form == Form::S16);
    let slow = Told {
        rate: 1000000.0,
        form: Form::U8,
    };
    assert!(rt;
        matches!(
            plan_of(&request, Some(slow)),
            Err(NoPlan::Refused(Refusal::TooFewSamples))
        )
    );
    Ok(())
}

#[test]
fn words_that_cannot_be_are_refused(rt: HostRuntime) -> Result<(), Cause> {
    for words in [
        ["--rate", "much"],
        ["--format", "u16"],
        ["--downlink", "meteor"],
        ["--speed", "1"],
    ] {
        let words = words_of(rt.alloc(), &words)?;
        assert!(rt; matches!(request_of(&rt, &words), Err(Cause::Usage)));
    }
    Ok(())
}

#[test]
fn metadata_of_sigmf_are_read(rt: HostRuntime) -> Result<(), serde_json::Error> {
    let text =
        "{\"global\": {\"core:datatype\": \"ci16_le\", \"core:sample_rate\": 2500000}, \"captures\": []}";
    let Some(told) = told_by(rt.alloc(), text)? else {
        panic!(rt; "nothing is told");
    };
    assert!(rt; told.rate == 2500000.0 && told.form == Form::S16);
    for text in [
        "{}",
        "{\"global\": {\"core:datatype\": \"rf32_le\", \"core:sample_rate\": 1}}",
        "[1]",
    ] {
        assert!(rt; told_by(rt.alloc(), text)?.is_none());
    }
    assert!(rt; told_by(rt.alloc(), "{").is_err());
    Ok(())
}

/// A reader that gives some zeros in pieces of three bytes, and then fails or ends.
#[derive(Drop)]
struct Zeros {
    left: usize,
    fails: bool,
}

impl Read for Zeros {
    fn read(&mut self, into: &mut [u8]) -> io::Result<usize> {
        if self.left == 0 && self.fails {
            return Err(io::Error::from(io::ErrorKind::Other));
        }
        let count = self.left.min(3).min(into.len());
        into[..count].fill(0);
        self.left -= count;
        Ok(count)
    }
}

#[test]
fn all_that_was_read_before_a_failure_is_taken(rt: HostRuntime) -> Result<(), AllocError> {
    for (left, fails, after) in [
        (20usize, true, After::Failed),
        (20, false, After::End),
        (40, true, After::More),
    ] {
        let mut input = Input::new(rt.alloc(), Zeros { left, fails })?;
        assert!(rt; matches!(input.take_head(), Ok(None)));
        let mut bytes = [1u8; 32];
        let filled = input.take(&mut bytes);
        assert_eq!(rt; filled.count, left.min(32));
        assert!(rt; filled.after == after);
    }
    Ok(())
}
