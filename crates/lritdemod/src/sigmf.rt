//! The metadata of a SigMF recording (SigMF 1.0): its rate and its form.

use crate::plan::Told;
use lr_demod::Form;
use serde_json::{Error, Value};
use std::alloc::Global;

/// The form of SigMF's name for it.
fn form_of(name: &str) -> Option<Form> {
    match name {
        "cu8" => Some(Form::U8),
        "ci8" => Some(Form::S8),
        "ci16_le" => Some(Form::S16),
        "cf32_le" => Some(Form::F32),
        _ => None,
    }
}

/// What a value says of its recording; none where it has no rate, or a form that isn't read.
fn told_of(value: &Value) -> Option<Told> {
    let global = value.get("global")?;
    let rate = global.get("core:sample_rate")?.as_f64()?;
    let form = form_of(global.get("core:datatype")?.as_str()?)?;
    Some(Told { rate, form })
}

/// What a text of metadata says. Fails where it is no JSON, or memory is refused.
pub(crate) fn told_by(alloc: Global, text: &str) -> Result<Option<Told>, Error> {
    let value = Value::from_str(alloc, text)?;
    Ok(told_of(&value))
}
