//! JSON ready to be written.

ghost use Rattle.std.specs.Prelude.{◌≡◌, codes, IfOk, string_bytes};
ghost use Rattle.serde_json.specs.Data.{string};
ghost use Rattle.serde_json.specs.View.{items_view};
ghost use Rattle.front.specs.Understood.{texts_of};
ghost use Rattle.web.specs.Answers.{one_member};
ghost use Rattle.web.specs.Json.{texts_data};
ghost use Rattle.web.specs.Sending.{words_text};

use serde_json::{Value, json};
use std::alloc::Global;
use std::marker::Model;
use terms::Memory;

/// JSON text ready to be written; writing it takes no memory.
#[derive(Drop)]
pub struct Json {
    text: String,
}

impl Model for Json {
    ghost use Rattle.std.specs.Prelude.{ℕ, List, string_bytes};

    ghost Value = { List ℕ };

    ghost view = { λ a. string_bytes a.text };
}

/// Makes a value of each word.
fn word_values(alloc: Global, words: &[String]) -> Result<Vec<Value>, Memory>
    ensures { IfOk result (λ values. items_view values.items ≡ texts_data (texts_of words.now)) }
{
    let mut values = Vec::new(alloc);
    for word in words {
        values.push(Value::String(String::from_str(alloc, word.as_str())?))?;
    }
    Ok(values)
}

impl Json {
    /// Makes an object whose one member `reply` is the text.
    pub(crate) fn reply(alloc: Global, text: &str) -> Result<Json, Memory>
        ensures { IfOk result (λ json. json ≡ one_member (codes "reply") (string text.now)) }
    {
        let text = json!(in alloc; {"reply": text})?.to_string(alloc)?;
        Ok(Json { text })
    }

    /// Makes a list of the words.
    pub(crate) fn words(alloc: Global, words: &[String]) -> Result<Json, Memory>
        ensures { IfOk result (λ json. json ≡ words_text (texts_of words.now)) }
    {
        let list = Value::Array(word_values(alloc, words)?);
        let text = list.to_string(alloc)?;
        Ok(Json { text })
    }

    /// Returns the text.
    pub(crate) fn as_str(&self) -> &str
        ensures { result.now ≡ self.now }
    {
        let Json { text } = self;
        text.as_str()
    }
}
