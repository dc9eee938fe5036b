//! A CSV text that is being written, record by record.

ghost use Rattle.std.specs.Prelude.{◌≡◌, ℕ, List, IfOk, OnOk, map};
ghost use Rattle.gi_exports.specs.Csv.{record_text};
ghost use Rattle.gi_exports.specs.Sheet.{AddsText, HasWritten};

use csv::{Writer, WriterBuilder};
use std::alloc::{AllocError, Global};

/// Adds a record. A writer into memory fails only for want of it.
pub fn put_record(out: &mut Writer<Vec<u8>>, fields: &[&[u8]]) -> Result<(), AllocError>
    ensures { OnOk result (AddsText out.old out.new (record_text (map (λ field. field.now) fields.now))) }
{
    match out.write_fields(fields) {
        Ok(()) => Ok(()),
        Err(_error) => Err(AllocError),
    }
}

/// A writer of a text that begins with this header.
pub fn begun(alloc: Global, header: &[&[u8]]) -> Result<Writer<Vec<u8>>, AllocError>
    ensures { IfOk result (λ out. HasWritten out (record_text (map (λ field. field.now) header.now))) }
{
    let mut out = WriterBuilder::new().from_writer(Vec::new(alloc));
    put_record(&mut out, header)?;
    Ok(out)
}

/// What was written.
pub fn finished(out: Writer<Vec<u8>>) -> Result<Vec<u8>, AllocError>
    ensures { IfOk result (λ bytes. (text : List ℕ) → HasWritten out text → bytes.items ≡ text) }
{
    match out.into_inner() {
        Ok(bytes) => Ok(bytes),
        Err(_error) => Err(AllocError),
    }
}
