ghost use Rattle.std.specs.Prelude.{◌≡◌, ◌++◌, IfOk, OnOk};
ghost use Rattle.geom.specs.World.{IsExtent};
ghost use Rattle.capabilities.specs.Document.{preamble, service, address_line, format_line, png_line, format_lines, request, requests, mercator_line, outer, document};

use crate::element::{
    add, add_attribute, add_element, add_markup, add_online_resource, add_text, close, open,
};
use crate::layer::add_layers;
use crate::markup::Markup;
use crate::world::{add_boxes, add_mercator_box};
use itoa::Buffer;
use mapdefs::{Items, Map, MapFields};
use operations::{Mime, Operation};
use std::alloc::{AllocError, Global};

// Adds the first two lines.
#[tactic(auto, unfolding(crate::specs::Document::preamble))]
fn add_preamble(out: &mut Vec<u8>, sequence: u64) -> Result<(), AllocError>
    ensures { OnOk result (out.new.items ≡ out.old.items ++ preamble sequence) }
{
    add_markup(out, Markup::Declaration)?;
    add_attribute(out, "updateSequence", Buffer::new().format(sequence))?;
    add_markup(out, Markup::Namespaces)
}

// Adds the service.
#[tactic(auto, unfolding(crate::specs::Document::service))]
fn add_service(out: &mut Vec<u8>, title: &str, url: &str) -> Result<(), AllocError>
    ensures { OnOk result (out.new.items ≡ out.old.items ++ service title.now url.now) }
{
    add_markup(out, Markup::Service)?;
    add_text(out, "Title", title)?;
    add_online_resource(out, url)?;
    add_markup(out, Markup::Limits)
}

// Adds the line of the address of a request.
#[tactic(auto, unfolding(crate::specs::Document::address_line))]
fn add_address_line(out: &mut Vec<u8>, url: &str) -> Result<(), AllocError>
    ensures { OnOk result (out.new.items ≡ out.old.items ++ address_line url.now) }
{
    add_markup(out, Markup::Get)?;
    add_online_resource(out, url)?;
    add_markup(out, Markup::GetEnd)
}

// Adds the line of a format.
fn add_format(out: &mut Vec<u8>, mime: Mime) -> Result<(), AllocError>
    ensures { OnOk result (out.new.items ≡ out.old.items ++ format_line mime) }
{
    add_element(out, "Format", mime.text())
}

// Adds the line of PNG, where it is offered.
fn add_png(out: &mut Vec<u8>, offered: bool) -> Result<(), AllocError>
    ensures { OnOk result (out.new.items ≡ out.old.items ++ png_line offered) }
{
    if offered {
        add_format(out, Mime::Png)
    } else {
        Ok(())
    }
}

// Adds the formats of the answers to a request, a line each.
fn add_formats(out: &mut Vec<u8>, png: bool, operation: Operation) -> Result<(), AllocError>
    ensures { OnOk result (out.new.items ≡ out.old.items ++ format_lines png operation) }
{
    match operation {
        Operation::Capabilities => add_format(out, Mime::Xml),
        Operation::Map => {
            add_png(out, png)?;
            add_format(out, Mime::Pixmap)?;
            add_format(out, Mime::ArbitraryMap)
        }
        Operation::Information => add_format(out, Mime::Plain),
    }
}

// Adds a request that the service answers.
#[tactic(auto, unfolding(crate::specs::Document::request))]
fn add_request(
    out: &mut Vec<u8>,
    png: bool,
    operation: Operation,
    url: &str,
) -> Result<(), AllocError>
    ensures { OnOk result (out.new.items ≡ out.old.items ++ request png operation url.now) }
{
    open(out, operation.name())?;
    add(out, "\n")?;
    add_formats(out, png, operation)?;
    add_address_line(out, url)?;
    close(out, operation.name())?;
    add(out, "\n")
}

// Adds the three requests and the form of exceptions.
#[tactic(auto, unfolding(crate::specs::Document::requests))]
fn add_requests(out: &mut Vec<u8>, png: bool, url: &str) -> Result<(), AllocError>
    ensures { OnOk result (out.new.items ≡ out.old.items ++ requests png url.now) }
{
    add_markup(out, Markup::Requests)?;
    add_request(out, png, Operation::Capabilities, url)?;
    add_request(out, png, Operation::Map, url)?;
    add_request(out, png, Operation::Information, url)?;
    add_markup(out, Markup::Exceptions)
}

// Adds the line of web mercator, where it is offered.
fn add_mercator(out: &mut Vec<u8>, offered: bool) -> Result<(), AllocError>
    ensures { OnOk result (out.new.items ≡ out.old.items ++ mercator_line offered) }
{
    if offered {
        add_markup(out, Markup::Mercator)
    } else {
        Ok(())
    }
}

// Adds the outermost layer up to its inner layers.
#[tactic(auto, unfolding(crate::specs::Document::outer))]
fn add_outer(out: &mut Vec<u8>, map: &MapFields) -> Result<(), AllocError>
    requires { IsExtent map.now.extent }
    ensures { OnOk result (out.new.items ≡ out.old.items ++ outer map.now) }
{
    add_markup(out, Markup::Layer)?;
    add_text(out, "Title", map.title.as_str())?;
    add_markup(out, Markup::Systems)?;
    add_mercator(out, map.mercator)?;
    add_boxes(out, map.extent)?;
    add_mercator_box(out, map.mercator, map.extent)
}

/// The document of a map at a sequence. The error is that memory was refused.
#[tactic(auto, unfolding(crate::specs::Document::document))]
pub fn document(alloc: Global, sequence: u64, map: &Map) -> Result<Items<u8>, AllocError>
    ensures { IfOk result (λ bytes. bytes ≡ document sequence map.now) }
{
    let map = map.get();
    let mut out = Vec::new(alloc);
    add_preamble(&mut out, sequence)?;
    add_service(&mut out, map.title.as_str(), map.url.as_str())?;
    add_requests(&mut out, map.png, map.url.as_str())?;
    add_outer(&mut out, map)?;
    add_layers(&mut out, map.layers.as_slice())?;
    add_markup(&mut out, Markup::End)?;
    Ok(Items::of(out))
}
