//! What was read so far of a configuration.

ghost use Rattle.std.specs.Prelude.{◌≡◌, ◌⊎◌, ◌≤◌, Some, unwrap_or, IfOk, OnOk};
ghost use Rattle.std.specs.Option.{option_copied};
ghost use Rattle.ossl_conf.specs.Kept.{all_sections};
ghost use Rattle.ossl_conf.specs.Places.{current_name, place_of, IsPlace, Stays};
ghost use Rattle.ossl_conf.specs.Reading.{most_bytes, most_values};
ghost use Rattle.ossl_conf.specs.Sections.{with_section};

use crate::kind::ConfKind;
use crate::part::{Part, part_at};
use crate::refusal::ConfRefused;
use crate::run::past;
use crate::said::{Statement, cut_at_colons};
use crate::sections::{Name, SectionMap};
use crate::value::Value;
use ossl_base::Text;
use std::alloc::{AllocError, Global};

/// The greatest sum of the lengths of all values that are set.
const MOST_VALUES: u64 = 16_777_216;

/// The greatest number of bytes of a configuration with all files that it includes, each counted as often as it is
/// read.
pub const MOST_BYTES: u64 = 1_048_576;

/// What was read so far.
#[derive(Drop)]
pub(crate) struct Progress {
    pub sections: SectionMap,
    /// The place of the current section; none before one is opened, which is `default`.
    pub current: Option<usize>,
    /// The sum of the lengths of all values that were set.
    pub total: u64,
    /// How many bytes included files may still have.
    pub left: u64,
    ghost placed: { IsPlace (all_sections sections) current },
    ghost few: { total ≤ most_values },
    ghost bounded: { left ≤ most_bytes },
}

impl Progress {
    ghost use Rattle.std.specs.Prelude.{ℕ, List, ◌-◌, ◌++◌};
    ghost use Rattle.ossl_conf.specs.Answers.{Answers};
    ghost use Rattle.ossl_conf.specs.Places.{value_at_or_default};
    ghost use Rattle.ossl_conf.specs.Private.{after, part_of, shown_said, IsSoFar, Puts};
    ghost use Rattle.ossl_conf.specs.Progress.{conf_of};
    ghost use Rattle.ossl_conf.specs.Reading.{after_plain, after_setting, file_of, nothing_read, value_by_name};
    ghost use Rattle.ossl_conf.specs.Reading.{value_of};
    ghost use Rattle.ossl_conf.specs.Values.{text_of};

    /// What begins before the first line of a text.
    pub fn new(alloc: Global, text: &[u8]) -> Progress
        ensures { conf_of result ≡ nothing_read text.now }
    {
        Progress {
            sections: SectionMap::new(alloc),
            current: None,
            total: 0,
            left: MOST_BYTES.saturating_sub(text.len() as u64),
        }
    }

    /// Obeys a line that includes no file.
    pub fn obey(
        &mut self,
        alloc: Global,
        number: u64,
        said: Statement<'_>,
    ) -> Result<(), ConfRefused>
        ensures read { Answers (after (conf_of self.new) result)
            (after_plain (conf_of self.old) number (shown_said said.entry)) }
        ensures others { Stays (all_sections self.old.sections) (all_sections self.new.sections) }
    {
        match said {
            Statement::Nothing => Ok(()),
            Statement::Opens(name) => {
                self.current = Some(self.sections.open(alloc, name)?);
                Ok(())
            }
            Statement::Sets {
                section,
                name,
                value,
            } => {
                let value = self.value_of(alloc, number, value)?;
                self.set(alloc, number, section, name, value)
            }
            Statement::Includes(_) => Ok(()),
            Statement::Faulty(kind) => Err(ConfRefused::Line { number, kind }),
        }
    }

    // Sets a name in the current section or in one that is named.
    fn set(
        &mut self,
        alloc: Global,
        number: u64,
        section: Option<&[u8]>,
        name: &[u8],
        value: Text,
    ) -> Result<(), ConfRefused>
        ensures set { let old = conf_of self.old in
            Answers (after (conf_of self.new) result)
            (after_setting old number (unwrap_or (option_copied section.entry) old.current) name.now value) }
        ensures others { Stays (all_sections self.old.sections) (all_sections self.new.sections) }
    {
        let total = self.total + value.as_slice().len() as u64;
        if total > MOST_VALUES {
            let kind = ConfKind::Growth;
            return Err(ConfRefused::Line { number, kind });
        }
        let name = Name::from_slice(alloc, name)?;
        let place = open_section(alloc, &mut self.sections, self.current, section)?;
        self.sections.set(place, name, value)?;
        self.total = total;
        Ok(())
    }

    /// The name of a file that a text has in a line of this number.
    pub fn file_of(&self, alloc: Global, number: u64, text: &[u8]) -> Result<Text, ConfRefused>
        ensures { Answers result (file_of (conf_of self.now) number text.now) }
    {
        let name = self.value_of(alloc, number, text)?;
        if name.as_slice().is_empty() {
            let kind = ConfKind::Name;
            return Err(ConfRefused::Line { number, kind });
        }
        Ok(name)
    }

    // The value that a text has in a line of this number. Every variable is looked up, also where the value is too
    // long.
    fn value_of(&self, alloc: Global, number: u64, text: &[u8]) -> Result<Text, ConfRefused>
        ensures { Answers result (value_of (conf_of self.now) number text.now) }
    {
        let mut value = Value::new(alloc);
        let mut rest = text;
        'parts: while let Some((first, behind)) = rest.split_first() {
            let taken = part_at(*first, behind);
            self.put_part(alloc, &mut value, number, taken.part)?;
            rest = past(taken.count, behind);
        }
        if value.is_long {
            let kind = ConfKind::Length;
            return Err(ConfRefused::Line { number, kind });
        }
        Ok(Text::of(value.bytes))
    }

    // Appends what stands for a part of a value.
    fn put_part(
        &self,
        alloc: Global,
        value: &mut Value,
        number: u64,
        part: Part<'_>,
    ) -> Result<(), ConfRefused>
        ensures { (done : List ℕ) → IsSoFar value.old.bytes.items value.old.is_long done →
            Puts number (text_of (value_by_name (conf_of self.now)) (part_of part.entry))
            (λ piece. IsSoFar value.new.bytes.items value.new.is_long (done ++ piece)) result }
    {
        let bytes = match part {
            Part::Byte(byte) => {
                value.put(&[byte])?;
                return Ok(());
            }
            Part::Bytes(bytes) => bytes,
            Part::Variable(name) => match self.variable(alloc, name)? {
                Some(bytes) => bytes,
                None => return Err(no_variable(alloc, number, name)),
            },
            Part::Unclosed(name) => return Err(no_variable(alloc, number, name)),
        };
        value.put(bytes)?;
        Ok(())
    }

    // A variable by its name as written.
    fn variable(&self, alloc: Global, written: &[u8]) -> Result<Option<&[u8]>, AllocError>
        ensures { IfOk result (λ value. option_copied value ≡ value_by_name (conf_of self.now) written.now) }
    {
        match cut_at_colons(written) {
            None => self.look_up(alloc, self.place(), written),
            Some((section, name)) => self.look_up(alloc, self.sections.place_of(section), name),
        }
    }

    // The value of a name in the section at a place, or else in `default`.
    fn look_up(
        &self,
        alloc: Global,
        place: Option<usize>,
        name: &[u8],
    ) -> Result<Option<&[u8]>, AllocError>
        ensures { IfOk result (λ value.
            option_copied value ≡ value_at_or_default (all_sections self.now.sections) place name.now) }
    {
        if let Some(place) = place {
            if let Some(value) = self.sections.value(alloc, place, name)? {
                return Ok(Some(value));
            }
        }
        match self.sections.place_of(b"default") {
            Some(place) => self.sections.value(alloc, place, name),
            None => Ok(None),
        }
    }

    // The place of the current section, if it is there.
    fn place(&self) -> Option<usize>
        ensures { result ≡ place_of (all_sections self.now.sections) (conf_of self.now).current }
    {
        match self.current {
            Some(place) => Some(place),
            None => self.sections.place_of(b"default"),
        }
    }

    /// A file of so many bytes begins. The place of the current section is to be given back at its end.
    pub fn enter(&mut self, bytes: u64) -> Option<usize>
        requires { bytes ≤ self.old.left }
        ensures conf { conf_of self.new ≡ record (conf_of self.old) { left = self.old.left - bytes } }
        ensures sections { self.new.sections ≡ self.old.sections }
        ensures place { result ≡ self.old.current }
    {
        self.left -= bytes;
        self.current
    }

    /// A file ends: the section that was current when it began is current again.
    pub fn leave(&mut self, place: Option<usize>)
        requires { IsPlace (all_sections self.old.sections) place }
        ensures conf { conf_of self.new ≡
            record (conf_of self.old) { current = current_name (all_sections self.old.sections) place } }
        ensures sections { self.new.sections ≡ self.old.sections }
    {
        self.current = place;
    }
}

// Opens the section in which a name is set: one that is named, or the current one by its place.
fn open_section(
    alloc: Global,
    sections: &mut SectionMap,
    current: Option<usize>,
    named: Option<&[u8]>,
) -> Result<usize, AllocError>
    requires { IsPlace (all_sections sections.old) current }
    ensures sections { OnOk result (let old = all_sections sections.old in
        all_sections sections.new
        ≡ with_section (unwrap_or (option_copied named.entry) (current_name old current)) old) }
    ensures place { IfOk result (λ at. let old = all_sections sections.old in
        place_of (all_sections sections.new) (unwrap_or (option_copied named.entry) (current_name old current))
        ≡ Some at) }
    ensures others { Stays (all_sections sections.old) (all_sections sections.new) }
{
    match (named, current) {
        (Some(name), _) => sections.open(alloc, name),
        (None, Some(place)) => Ok(place),
        (None, None) => sections.open(alloc, b"default"),
    }
}

// A variable has no value; its name is told as written.
fn no_variable(alloc: Global, number: u64, name: &[u8]) -> ConfRefused
    ensures { (result ≡ ConfRefused.NoMemory) ⊎ (result ≡ ConfRefused.NoVariable number name.now) }
{
    match Vec::from_slice(alloc, name) {
        Ok(name) => ConfRefused::NoVariable {
            number,
            name: Text::of(name),
        },
        Err(_) => ConfRefused::NoMemory,
    }
}
