ghost use Rattle.std.specs.Prelude.{◌≡◌, ◌<◌, None, replicate, IfOk, OnOk};
ghost use Rattle.std.specs.Option.{option_copied};
ghost use Rattle.wmsquery.specs.declared.fault.Parameter.{Parameter};
ghost use Rattle.wmsquery.specs.declared.texts.TheConstants.{COUNT};
ghost use Rattle.wmsquery.specs.Pairs.{pairs_of, texts_of, given, some_text};
ghost use Rattle.wmsquery.specs.Slots.{slot_of, parameter_named, kept, with_pair};

use crate::fault::Parameter;
use mapdefs::Text;
use std::alloc::{AllocError, Global};
use std::marker::Model;

// How many parameters there are.
const COUNT: usize = 18;

// All parameters, each at the index of its slot.
const PARAMETERS: [Parameter; COUNT] = [
    Parameter::Service,
    Parameter::Request,
    Parameter::Version,
    Parameter::Layers,
    Parameter::Styles,
    Parameter::Crs,
    Parameter::Bbox,
    Parameter::Width,
    Parameter::Height,
    Parameter::Format,
    Parameter::Transparent,
    Parameter::Bgcolor,
    Parameter::QueryLayers,
    Parameter::InfoFormat,
    Parameter::FeatureCount,
    Parameter::Column,
    Parameter::Row,
    Parameter::UpdateSequence,
];

impl Parameter {
    // The index of the parameter's slot.
    fn slot(self) -> usize
        ensures value { result ≡ slot_of self }
        ensures within { result < COUNT }
    {
        self as usize
    }

    // The parameter with a name, which is compared without case.
    fn named(name: &str) -> Option<Parameter>
        ensures { result ≡ parameter_named name.now }
    {
        PARAMETERS
            .iter()
            .copied()
            .find(|parameter| name.eq_ignore_ascii_case(parameter.text()))
    }
}

// A text that is not empty.
fn some_text(text: &str) -> Option<&str>
    ensures { option_copied result ≡ some_text text.now }
{
    if text.is_empty() { None } else { Some(text) }
}

/// The texts of a query's parameters, each in a slot of its own. A slot is empty where the query has no
/// pair with the name.
#[derive(Drop)]
pub struct ParameterTexts {
    slots: [Option<Text>; COUNT],
}

impl Model for ParameterTexts {
    ghost use Rattle.std.specs.Prelude.{List, ℕ, Option};

    ghost Value = { List (Option (List ℕ)) };

    ghost view = { λ t. t.slots };
}

impl ParameterTexts {
    // No texts.
    fn new() -> Self
        ensures { result ≡ replicate COUNT None }
    {
        ParameterTexts {
            slots: [
                None, None, None, None, None, None, None, None, None, None, None, None, None, None,
                None, None, None, None,
            ],
        }
    }

    // Keeps the value of a pair, if it is the first with its parameter's name.
    fn keep(&mut self, alloc: Global, name: &str, value: &str) -> Result<(), AllocError>
        ensures { OnOk result (self.new ≡ with_pair self.old name.now value.now) }
    {
        let Some(parameter) = Parameter::named(name) else {
            return Ok(());
        };
        let slot = parameter.slot();
        if self.slots[slot].is_none() {
            self.slots[slot] = Some(Text::from_str(alloc, value)?);
        }
        Ok(())
    }

    /// The texts of a query's parameters.
    pub fn of_query(alloc: Global, query: &[u8]) -> Result<Self, AllocError>
        ensures { IfOk result (λ texts. (p : Parameter) → kept texts p ≡ texts_of (pairs_of query.now) p) }
    {
        let mut texts = ParameterTexts::new();
        for pair in form_urlencoded::parse(alloc, query) {
            let (name, value) = pair?;
            texts.keep(alloc, &name, &value)?;
        }
        Ok(texts)
    }

    /// The text of a parameter: the value of the first pair with its name, which is compared without case.
    pub fn text(&self, parameter: Parameter) -> Option<&str>
        ensures { option_copied result ≡ kept self.now parameter }
    {
        let text = self.slots[parameter.slot()].as_ref()?;
        Some(text.as_str())
    }

    /// The text of a parameter, where it is not empty.
    pub fn given(&self, parameter: Parameter) -> Option<&str>
        ensures { option_copied result ≡ given (kept self.now) parameter }
    {
        some_text(self.text(parameter)?)
    }
}
