ghost use Rattle.std.specs.Prelude.{◌≡◌, ◌++◌, OnOk};
ghost use Rattle.geom.specs.Written.{written};
ghost use Rattle.xmltext.specs.Escape.{escaped};
ghost use Rattle.capabilities.specs.Element.{opening, ending, enclosed, element, attribute, online_resource};
ghost use Rattle.capabilities.specs.Markup.{markup};

use crate::markup::Markup;
use geom::Micro;
use std::alloc::AllocError;

/// Adds a text as it is.
pub fn add(out: &mut Vec<u8>, text: &str) -> Result<(), AllocError>
    ensures { OnOk result (out.new.items ≡ out.old.items ++ text.now) }
{
    out.extend_from_slice(text.as_bytes())
}

/// Adds a part of each document.
pub fn add_markup(out: &mut Vec<u8>, part: Markup) -> Result<(), AllocError>
    ensures { OnOk result (out.new.items ≡ out.old.items ++ markup part) }
{
    add(out, part.text())
}

/// Adds the tag that begins an element.
#[tactic(auto, unfolding(crate::specs::Element::opening))]
pub fn open(out: &mut Vec<u8>, name: &str) -> Result<(), AllocError>
    ensures { OnOk result (out.new.items ≡ out.old.items ++ opening name.now) }
{
    add(out, "<")?;
    add(out, name)?;
    add(out, ">")
}

/// Adds the tag that ends an element.
#[tactic(auto, unfolding(crate::specs::Element::ending))]
pub fn close(out: &mut Vec<u8>, name: &str) -> Result<(), AllocError>
    ensures { OnOk result (out.new.items ≡ out.old.items ++ ending name.now) }
{
    add(out, "</")?;
    add(out, name)?;
    add(out, ">")
}

/// Adds an element of a text that needs no escape, on a line.
#[tactic(auto, unfolding(crate::specs::Element::element, crate::specs::Element::enclosed))]
pub fn add_element(out: &mut Vec<u8>, name: &str, content: &str) -> Result<(), AllocError>
    ensures { OnOk result (out.new.items ≡ out.old.items ++ element name.now content.now) }
{
    open(out, name)?;
    add(out, content)?;
    close(out, name)?;
    add(out, "\n")
}

/// Adds an element of a text, on a line.
#[tactic(auto, unfolding(crate::specs::Element::element, crate::specs::Element::enclosed))]
pub fn add_text(out: &mut Vec<u8>, name: &str, text: &str) -> Result<(), AllocError>
    ensures { OnOk result (out.new.items ≡ out.old.items ++ element name.now (escaped text.now)) }
{
    open(out, name)?;
    xmltext::write(out, text)?;
    close(out, name)?;
    add(out, "\n")
}

/// Adds an element of a number, within a line.
#[tactic(auto, unfolding(crate::specs::Element::enclosed))]
pub fn add_enclosed(out: &mut Vec<u8>, name: &str, number: Micro) -> Result<(), AllocError>
    ensures { OnOk result (out.new.items ≡ out.old.items ++ enclosed name.now (written number)) }
{
    open(out, name)?;
    number.write(out)?;
    close(out, name)
}

/// Adds an element of a number, on a line.
#[tactic(auto, unfolding(crate::specs::Element::element))]
pub fn add_number(out: &mut Vec<u8>, name: &str, number: Micro) -> Result<(), AllocError>
    ensures { OnOk result (out.new.items ≡ out.old.items ++ element name.now (written number)) }
{
    add_enclosed(out, name, number)?;
    add(out, "\n")
}

/// Adds an attribute of a text that needs no escape.
#[tactic(auto, unfolding(crate::specs::Element::attribute))]
pub fn add_attribute(out: &mut Vec<u8>, name: &str, value: &str) -> Result<(), AllocError>
    ensures { OnOk result (out.new.items ≡ out.old.items ++ attribute name.now value.now) }
{
    add(out, " ")?;
    add(out, name)?;
    add(out, "=\"")?;
    add(out, value)?;
    add(out, "\"")
}

/// Adds an attribute of a text.
#[tactic(auto, unfolding(crate::specs::Element::attribute))]
pub fn add_text_attribute(out: &mut Vec<u8>, name: &str, text: &str) -> Result<(), AllocError>
    ensures { OnOk result (out.new.items ≡ out.old.items ++ attribute name.now (escaped text.now)) }
{
    add(out, " ")?;
    add(out, name)?;
    add(out, "=\"")?;
    xmltext::write(out, text)?;
    add(out, "\"")
}

/// Adds an attribute of a number.
#[tactic(auto, unfolding(crate::specs::Element::attribute))]
pub fn add_side(out: &mut Vec<u8>, name: &str, number: Micro) -> Result<(), AllocError>
    ensures { OnOk result (out.new.items ≡ out.old.items ++ attribute name.now (written number)) }
{
    add(out, " ")?;
    add(out, name)?;
    add(out, "=\"")?;
    number.write(out)?;
    add(out, "\"")
}

/// Adds the address of the service.
#[tactic(auto, unfolding(crate::specs::Element::online_resource))]
pub fn add_online_resource(out: &mut Vec<u8>, url: &str) -> Result<(), AllocError>
    ensures { OnOk result (out.new.items ≡ out.old.items ++ online_resource url.now) }
{
    add_markup(out, Markup::Address)?;
    add_text_attribute(out, "xlink:href", url)?;
    add(out, "/>")
}
