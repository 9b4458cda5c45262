//! The settings that the sections of a configuration ask for.

ghost use Rattle.std.specs.Prelude.{◌≡◌, codes, IfOk};
ghost use Rattle.std.specs.Option.{option_copied, option_to_list};
ghost use Rattle.ossl_conf.specs.Answers.{mapped, Answers};
ghost use Rattle.ossl_conf.specs.Kept.{all_sections};
ghost use Rattle.ossl_conf.specs.Places.{entries_at};
ghost use Rattle.ossl_conf.specs.Sections.{default_section, value_in};
ghost use Rattle.ossl_conf.specs.Settings.{activates, activation, activations, default_query, named};
ghost use Rattle.ossl_conf.specs.Settings.{properties, providers, settings_in};

use crate::refusal::ConfRefused;
use crate::sections::SectionMap;
use crate::settings::Settings;
use crate::words::is_on;
use ossl_base::Text;
use ossl_property::{Query, TextRefused};
use std::alloc::{AllocError, Global};

/// The settings of all sections.
pub(crate) fn settings(alloc: Global, sections: &SectionMap) -> Result<Settings, ConfRefused>
    ensures { Answers result (settings_in (all_sections sections.now)) }
{
    let Some(init) = init_section(alloc, sections)? else {
        return Ok(Settings::new(Vec::new(alloc), None));
    };
    let init = named(alloc, sections, init)?;
    let name = sections.value(alloc, init, b"providers")?;
    let names = providers(alloc, sections, name)?;
    let name = sections.value(alloc, init, b"alg_section")?;
    let text = properties(alloc, sections, name)?;
    let query = default_query(alloc, text)?;
    Ok(Settings::new(names, query))
}

// The name of the init section, where it is set.
fn init_section(alloc: Global, sections: &SectionMap) -> Result<Option<&[u8]>, AllocError>
    ensures { IfOk result (λ name. option_copied name ≡
        value_in (all_sections sections.now) default_section (codes "openssl_conf")) }
{
    match sections.place_of(b"default") {
        Some(at) => sections.value(alloc, at, b"openssl_conf"),
        None => Ok(None),
    }
}

// What the section that `providers` names activates; nothing where there is no such name.
fn providers(
    alloc: Global,
    sections: &SectionMap,
    name: Option<&[u8]>,
) -> Result<Vec<Text>, ConfRefused>
    ensures { Answers (mapped (λ names. names.items) result)
        (providers (all_sections sections.now) (option_copied name.entry)) }
{
    let Some(name) = name else {
        return Ok(Vec::new(alloc));
    };
    let at = named(alloc, sections, name)?;
    activations(alloc, sections, at)
}

// The text of the default query, where the section that `alg_section` names has one.
fn properties<'a>(
    alloc: Global,
    sections: &'a SectionMap,
    name: Option<&[u8]>,
) -> Result<Option<&'a [u8]>, ConfRefused>
    ensures { Answers (mapped (λ text. option_copied text) result)
        (properties (all_sections sections.now) (option_copied name.entry)) }
{
    let Some(name) = name else {
        return Ok(None);
    };
    let at = named(alloc, sections, name)?;
    Ok(sections.value(alloc, at, b"default_properties")?)
}

// Where a section stands that is named.
fn named(alloc: Global, sections: &SectionMap, name: &[u8]) -> Result<usize, ConfRefused>
    ensures { let all = all_sections sections.now in
        Answers (mapped (entries_at all) result) (named all name.now) }
{
    match sections.place_of(name) {
        Some(at) => Ok(at),
        None => Err(ConfRefused::NoSection {
            name: Text::of(Vec::from_slice(alloc, name)?),
        }),
    }
}

// The activations of the providers that the section at a place lists, in its order.
fn activations(alloc: Global, sections: &SectionMap, at: usize) -> Result<Vec<Text>, ConfRefused>
    ensures { let all = all_sections sections.now in
        Answers (mapped (λ names. names.items) result) (activations all (entries_at all at)) }
{
    let mut names = Vec::new(alloc);
    for index in 0..sections.values.len() {
        let Some(((section, name), value)) = sections.values.get_index(index) else {
            break;
        };
        if *section == at {
            if let Some(name) = activation(alloc, sections, name.as_slice(), value.as_slice())? {
                names.push(name)?;
            }
        }
    }
    Ok(names)
}

// The name that is activated for a listed provider, where it is on.
fn activation(
    alloc: Global,
    sections: &SectionMap,
    name: &[u8],
    section: &[u8],
) -> Result<Option<Text>, ConfRefused>
    ensures { Answers (mapped option_to_list result)
        (activation (all_sections sections.now) (name.now, section.now)) }
{
    let at = named(alloc, sections, section)?;
    if !activates(alloc, sections.value(alloc, at, b"activate")?)? {
        return Ok(None);
    }
    let name = sections.value(alloc, at, b"identity")?.unwrap_or(name);
    Ok(Some(Text::of(Vec::from_slice(alloc, name)?)))
}

// Whether a word of `activate` is on; where there is none it is off.
fn activates(alloc: Global, word: Option<&[u8]>) -> Result<bool, ConfRefused>
    ensures { Answers result (activates (option_copied word.entry)) }
{
    let Some(word) = word else {
        return Ok(false);
    };
    match is_on(word) {
        Some(on) => Ok(on),
        None => Err(ConfRefused::BadActivate {
            word: Text::of(Vec::from_slice(alloc, word)?),
        }),
    }
}

// The default query, where a text says one.
fn default_query(alloc: Global, text: Option<&[u8]>) -> Result<Option<Query>, ConfRefused>
    ensures { Answers result (default_query (option_copied text.entry)) }
{
    let Some(text) = text else {
        return Ok(None);
    };
    match Query::parse(alloc, text) {
        Ok(query) => Ok(Some(query)),
        Err(TextRefused::NotInGrammar { place }) => Err(ConfRefused::BadQuery { place }),
        Err(TextRefused::NoMemory) => Err(ConfRefused::NoMemory),
    }
}
