ghost use Rattle.std.specs.Prelude.{◌≡◌, Ok, length, IfOk, IfErr, MatchResult};
ghost use Rattle.wmsquery.specs.Meaning.{IsMeaning, IsMeaningError};
ghost use Rattle.wmsquery.specs.Slots.{kept};
ghost use Rattle.wmsquery.specs.Reading.{IsErrorOf, operation_read, request_read};
ghost use Rattle.wmsquery.specs.Within.{IsWithin};

use crate::error::QueryError;
use crate::fault::{Parameter, WmsFault, checked};
use crate::information::read_information;
use crate::lists::names_of;
use crate::picture::{PictureTexts, read_map};
use crate::request::Request;
use crate::texts::ParameterTexts;
use crate::values::{operation, service, update_sequence};
use mapdefs::Map;
use operations::Operation;
use std::alloc::Global;

// The operation that is requested.
fn read_operation(texts: &ParameterTexts) -> Result<Operation, WmsFault>
    ensures { result ≡ operation_read (kept texts.now) }
{
    checked(Parameter::Service, service(texts.given(Parameter::Service)))?;
    checked(
        Parameter::Request,
        operation(texts.given(Parameter::Request)),
    )
}

// The request that the texts of the parameters make.
fn read_texts(
    alloc: Global,
    texts: &ParameterTexts,
    map: &Map,
    sequence: u64,
) -> Result<Request, QueryError>
    ensures value { MatchResult result
        (λ request. request_read map.now sequence (kept texts.now) ≡ Ok request)
        (IsErrorOf (request_read map.now sequence (kept texts.now))) }
    ensures within { IfOk result (IsWithin (length map.now.layers)) }
{
    match read_operation(texts)? {
        Operation::Capabilities => {
            let text = texts.given(Parameter::UpdateSequence);
            checked(Parameter::UpdateSequence, update_sequence(sequence, text))?;
            Ok(Request::Capabilities)
        }
        Operation::Map => {
            let names = names_of(alloc, texts.given(Parameter::Layers))?;
            let names = names.as_slice();
            let query = PictureTexts { texts, names };
            Ok(Request::Map(read_map(alloc, Operation::Map, &query, map)?))
        }
        Operation::Information => {
            let names = names_of(alloc, texts.given(Parameter::Layers))?;
            let names = names.as_slice();
            let query = PictureTexts { texts, names };
            Ok(Request::Information(read_information(alloc, &query, map)?))
        }
    }
}

/// The request that a query makes of the map at a sequence, which counts the published batches.
///
/// The error is the first parameter at fault by the order of refusal, or `NoMemory` where memory is
/// refused. The map stays as it is.
pub fn read(alloc: Global, query: &[u8], map: &Map, sequence: u64) -> Result<Request, QueryError>
    ensures request { IfOk result (λ r. IsMeaning map.now sequence query.now (Ok r)) }
    ensures fault { IfErr result (IsMeaningError map.now sequence query.now) }
    ensures within { IfOk result (IsWithin (length map.now.layers)) }
{
    let texts = ParameterTexts::of_query(alloc, query)?;
    read_texts(alloc, &texts, map, sequence)
}
