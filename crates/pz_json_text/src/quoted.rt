//! Texts kept as JSON strings.

ghost use Rattle.std.specs.Prelude.{◌≡◌, ◌+◌, ◌<◌, ◌^◌, length, IfOk, string_bytes};
ghost use Rattle.json.specs.Print.{escape, quoted};
ghost use Rattle.pz_json_text.specs.Quoted.{escaped_says};

use json::{Reader, Scratch, Token, Writer};
use std::alloc::{AllocError, Global};
use std::marker::Model;
use std::str::from_utf8;

/// A text kept as a JSON string, with its quotation marks and escapes. Contracts see the text itself. It is quoted once, when it is made,
/// and only copied when it is written.
#[derive(Drop)]
pub struct QuotedText {
    json: Vec<u8>,
}

impl Model for QuotedText {
    ghost use Rattle.std.specs.Prelude.{◌≡◌, List, ℕ};
    ghost use Rattle.json.specs.Print.{quoted};
    ghost use Rattle.pz_json_text.specs.Quoted.{text_said};

    ghost Value = { List ℕ };

    ghost view = { λ q. text_said q.json.items };

    ghost invariant = { λ q. q.json.items ≡ quoted (text_said q.json.items) };
}

impl QuotedText {
    /// Quotes a text. Err: memory was refused.
    pub fn of_str(alloc: Global, text: &str) -> Result<QuotedText, AllocError>
        ensures { IfOk result (λ kept. kept ≡ text.now) }
    {
        // (the end of a line takes two bytes)
        let room = Vec::with_capacity(alloc, text.len() + text.len() / 8 + 16)?;
        let mut writer = Writer::new(room);
        writer.string(text)?;
        Ok(QuotedText {
            json: writer.into_inner(),
        })
    }

    /// Puts quotation marks around a text that is escaped already. Err: memory was refused.
    pub(crate) fn of_escaped(alloc: Global, escaped: &[u8]) -> Result<QuotedText, AllocError>
        requires { escaped.now ≡ escape (escaped_says escaped.now) }
        ensures { IfOk result (λ kept. kept ≡ escaped_says escaped.now) }
    {
        let mut json = Vec::with_capacity(alloc, escaped.len() + 2)?;
        json.push(b'"')?;
        json.extend_from_slice(escaped)?;
        json.push(b'"')?;
        Ok(QuotedText { json })
    }

    /// The text itself. Err: memory was refused.
    pub fn plain(&self, alloc: Global) -> Result<String, AllocError>
        ensures { IfOk result (λ text. string_bytes text ≡ self.now) }
    {
        // (what was quoted is UTF-8, and is read as one string: no clause says so, and the two other answers never come)
        let json = match from_utf8(self.json.as_slice()) {
            Ok(json) => json,
            Err(_) => return Err(AllocError),
        };
        let mut scratch = Scratch::new(alloc);
        let mut reader = Reader::new(json, &mut scratch)?;
        match reader.next() {
            Some(Token::String(text)) => String::from_str(alloc, text),
            _ => Err(AllocError),
        }
    }

    /// The text as a JSON string, as it is written. Rule `program.strings`.
    pub fn as_json(&self) -> &[u8]
        ensures { result.now ≡ quoted self.now }
    {
        self.json.as_slice()
    }

    /// The escaped text, as it stands between the two quotation marks.
    pub(crate) fn escaped(&self) -> &[u8]
        ensures text { result.now ≡ escape self.now }
        ensures small { length result.now + 1 < 2 ^ 63 }
    {
        &self.json[1..self.json.len() - 1]
    }
}
