//! What was read, in one line.

use ossl_conf::{ConfRefused, Settings, put_refusal, put_shown};
use std::alloc::{AllocError, Global};

/// `activate`, the names that are activated and, behind `:`, the default query; or the error line.
pub fn line_of(alloc: Global, read: &Result<Settings, ConfRefused>) -> Result<Vec<u8>, AllocError> {
    let mut line = Vec::new(alloc);
    match read {
        Ok(settings) => put_settings(alloc, &mut line, settings)?,
        Err(refusal) => put_refusal(alloc, &mut line, refusal)?,
    }
    Ok(line)
}

fn put_settings(alloc: Global, line: &mut Vec<u8>, settings: &Settings) -> Result<(), AllocError> {
    line.extend_from_slice(b"activate")?;
    for name in settings.activations() {
        line.push(b' ')?;
        put_shown(line, name.as_slice())?;
    }
    if let Some(query) = settings.default_query() {
        line.extend_from_slice(b" : ")?;
        line.extend_from_slice(query.print(alloc)?.as_slice())?;
    }
    line.extend_from_slice(b"\n")
}
