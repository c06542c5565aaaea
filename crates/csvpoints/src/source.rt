ghost use Rattle.std.specs.Prelude.{◌≡◌, IfOk};
ghost use Rattle.csv.specs.Records.{fields_of};
ghost use Rattle.csvpoints.specs.Source.{records_of, left, IsReading, Found};

use csv::{ByteRecord, Reader, ReaderBuilder};
use std::alloc::{AllocError, Global};

/// A reader of the records of a text, with no header row of its own and records of any length.
pub fn reader_of(alloc: Global, text: &[u8]) -> Reader<&[u8]>
    ensures records { left result ≡ records_of text.now }
    ensures reading { IsReading result }
{
    ReaderBuilder::new()
        .has_headers(false)
        .flexible(true)
        .from_reader(alloc, text)
}

/// Whether there is a next record, which then is in `row`.
///
/// Reading from bytes can't fail, and a record may have any length, so an error is that memory was
/// refused.
pub fn read_record(reader: &mut Reader<&[u8]>, row: &mut ByteRecord) -> Result<bool, AllocError>
    requires { IsReading reader.old }
    ensures { IfOk result (λ found. Found found (fields_of row.new) reader.old reader.new) }
{
    let Ok(found) = reader.read_byte_record(row) else {
        return Err(AllocError);
    };
    Ok(found)
}
