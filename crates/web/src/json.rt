//! JSON bodies of requests.

ghost use Rattle.std.specs.Prelude.{◌≡◌, ◌<◌, ◌^◌, ℕ, List, Option, string_bytes};
ghost use Rattle.std.specs.Prelude.{IfOk, IfSome, IfNone, Some};
ghost use Rattle.serde_json.specs.Find.{get};
ghost use Rattle.calendar.specs.Days.{IsDayNumber, day_text};
ghost use Rattle.serde_json.specs.Data.{Data, number, string, unsigned};
ghost use Rattle.serde_json.specs.View.{view, items_view};
ghost use Rattle.std.specs.Option.{option_map};
ghost use Rattle.terms.specs.Laws.{IsNumber};
ghost use Rattle.front.specs.Understood.{texts_of};
ghost use Rattle.web.specs.Json.{IsJson, IsHold, TellsFirstDay, IsTextList, texts_data, data_text};

use crate::limits::MOST_WORDS;
use serde_json::Value;
use std::alloc::{AllocError, Global};
use std::str;
use terms::{BranchId, Day, Memory, TitleId};

/// Parses a JSON body.
fn read_value(alloc: Global, body: &[u8]) -> Result<Option<Value>, Memory>
    ensures some { IfOk result (λ o. IfSome o (λ v. IsJson body.now (view v))) }
    ensures none { IfOk result (λ o. IfNone o ((d : Data) → IsJson body.now d → ⊥)) }
{
    let Ok(text) = str::from_utf8(body) else {
        return Ok(None);
    };
    match Value::from_str(alloc, text) {
        Ok(value) => Ok(Some(value)),
        Err(error) => {
            if error.is_memory() {
                return Err(AllocError);
            }
            Ok(None)
        }
    }
}

/// Returns a member that is a number below 2^32.
fn number_at(object: &Value, name: &str) -> Option<u32>
    ensures some { IfSome result
        (λ n. (get name.now (view object.now) ≡ Some (number (unsigned n))) × (n < 2 ^ 32)) }
    ensures none { IfNone result ((n : ℕ) → n < 2 ^ 32
        → get name.now (view object.now) ≡ Some (number (unsigned n)) → ⊥) }
{
    let number = object.get(name)?.as_u64()?;
    u32::try_from(number).ok()
}

/// Returns a member that is the text of a day.
fn day_at(object: &Value, name: &str) -> Option<Day>
    ensures some { IfSome result (λ d. IsDayNumber d
        × (get name.now (view object.now) ≡ Some (string (day_text d)))) }
    ensures none { IfNone result ((d : ℕ) → IsDayNumber d
        → get name.now (view object.now) ≡ Some (string (day_text d)) → ⊥) }
{
    let text = object.get(name)?.as_str()?;
    Day::read(text)
}

/// Returns the first day of a hold from an object with this many members: with two none, with three
/// the member `from`.
fn first_day_of(object: &Value, members: usize) -> Option<Option<Day>>
    ensures some { IfSome result
        (λ d. TellsFirstDay (view object.now) members d × IfSome d IsDayNumber) }
    ensures none { IfNone result ((d : Option ℕ) → IfSome d IsDayNumber
        → TellsFirstDay (view object.now) members d → ⊥) }
{
    match members {
        2 => Some(None),
        3 => {
            let day = day_at(object, "from")?;
            Some(Some(day))
        }
        _ => None,
    }
}

/// The hold that a body asks for.
#[derive(Clone, Copy, Debug, PartialEq, Eq)]
pub(crate) struct AskedHold {
    pub(crate) branch: BranchId,
    pub(crate) title: TitleId,
    /// The first day it is wanted, if not at once.
    pub(crate) first_day: Option<Day>,
}

/// Reads the hold that a value asks for.
fn hold_of(value: &Value) -> Option<AskedHold>
    ensures some { IfSome result (λ asked.
        IsHold (view value.now) asked.branch asked.title asked.first_day
        × IsNumber asked.branch × IsNumber asked.title × IfSome asked.first_day IsDayNumber) }
    ensures none { IfNone result ((b t : ℕ) (d : Option ℕ) → IsNumber b → IsNumber t
        → IfSome d IsDayNumber → IsHold (view value.now) b t d → ⊥) }
{
    let members = value.as_object()?;
    let first_day = first_day_of(value, members.len())?;
    let branch = number_at(value, "branch")?;
    let title = number_at(value, "title")?;
    Some(AskedHold {
        branch: BranchId::new(branch),
        title: TitleId::new(title),
        first_day,
    })
}

/// Reads the hold that a body asks for.
pub(crate) fn read_hold(alloc: Global, body: &[u8]) -> Result<Option<AskedHold>, Memory>
    ensures some { IfOk result (λ o. IfSome o (λ asked. ((value : Data) × IsJson body.now value
        × IsHold value asked.branch asked.title asked.first_day) × IsNumber asked.branch
        × IsNumber asked.title × IfSome asked.first_day IsDayNumber)) }
    ensures none { IfOk result (λ o. IfNone o ((value : Data) (b t : ℕ) (d : Option ℕ)
        → IsJson body.now value → IsNumber b → IsNumber t → IfSome d IsDayNumber
        → IsHold value b t d → ⊥)) }
{
    match read_value(alloc, body)? {
        Some(value) => Ok(hold_of(&value)),
        None => Ok(None),
    }
}

/// Returns the text of a value.
fn text_of(alloc: Global, value: &Value) -> Result<Option<String>, Memory>
    ensures { IfOk result (λ o. data_text (view value.now) ≡ option_map string_bytes o) }
{
    match value.as_str() {
        Some(text) => Ok(Some(String::from_str(alloc, text)?)),
        None => Ok(None),
    }
}

/// Returns the texts in a list of values.
fn texts_in(alloc: Global, values: &[Value]) -> Result<Option<Vec<String>>, Memory>
    ensures some { IfOk result (λ o. IfSome o
        (λ texts. items_view values.now ≡ texts_data (texts_of texts.items))) }
    ensures none { IfOk result (λ o. IfNone o
        ((texts : List (List ℕ)) → items_view values.now ≡ texts_data texts → ⊥)) }
{
    let mut texts = Vec::new(alloc);
    for value in values {
        let Some(text) = text_of(alloc, value)? else {
            return Ok(None);
        };
        texts.push(text)?;
    }
    Ok(Some(texts))
}

/// Reads a body that is a list of 1 to 12 texts.
pub(crate) fn read_texts(alloc: Global, body: &[u8]) -> Result<Option<Vec<String>>, Memory>
    ensures some { IfOk result (λ o. IfSome o
        (λ texts. IsTextList body.now (texts_of texts.items))) }
    ensures none { IfOk result (λ o. IfNone o
        ((texts : List (List ℕ)) → IsTextList body.now texts → ⊥)) }
{
    let Some(value) = read_value(alloc, body)? else {
        return Ok(None);
    };
    let Some(values) = value.as_array() else {
        return Ok(None);
    };
    let count = values.len();
    if count < 1 {
        return Ok(None);
    }
    if count > MOST_WORDS {
        return Ok(None);
    }
    texts_in(alloc, values)
}
