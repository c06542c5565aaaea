use std::alloc::{AllocError, Global};
use std::str;
use test_tables::{TableFault, check_rows};
use wmsquery::{Code, Parameter, WmsFault, report};

// The length of a document, and the document with `~` for a line feed, and the name of the parameter that
// is missing: that of a query without REQUEST has 215 bytes by hand.
const DOCUMENTS: &str = "\
215 <?xml version=\"1.0\" encoding=\"UTF-8\"?>~<ServiceExceptionReport version=\"1.3.0\" xmlns=\"http://www.opengis.net/ogc\">~<ServiceException code=\"MissingParameterValue\">REQUEST</ServiceException>~</ServiceExceptionReport>~|REQUEST";

// The document where REQUEST is missing, as the row writes it.
fn document_of(alloc: Global, name: &str) -> Result<String, AllocError> {
    if name != "REQUEST" {
        return String::from_str(alloc, "malformed");
    }
    let fault = WmsFault {
        code: Code::MissingParameterValue,
        parameter: Parameter::Request,
    };
    let document = report(alloc, fault)?;
    let text = str::from_utf8(document.as_slice()).unwrap_or("no text");
    let text = text.replace(alloc, '\n', "~")?;
    format!(in alloc; "{} {text}", document.len())
}

#[test]
fn faults_are_reported_as_documents(rt: HostRuntime) -> Result<(), TableFault> {
    check_rows(rt.alloc(), DOCUMENTS, '|', 1, document_of)
}
