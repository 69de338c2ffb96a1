//! Sets of texts.

ghost use Rattle.std.specs.Prelude.{◌≡◌, IfOk, IsSorted, map, string_bytes};
ghost use Rattle.std.proofs.Props.{props};
ghost use Rattle.protobuf_parse_rules.specs.Ranges.{is_among};
ghost use Rattle.protobuf_parse_rules.specs.Sets.{AreTexts, text_cmp, texts_of};

use std::alloc::{AllocError, Global};

/// Texts in ascending order.
#[derive(Drop)]
pub struct Words<'a> {
    pub sorted: Vec<&'a str>,
    pub ghost rises: { IsSorted text_cmp sorted.items } by { Prim.hlevel props },
}

impl<'a> Words<'a> {
    /// The words, in any order.
    pub fn of(words: Vec<&'a str>) -> Words<'a>
        ensures { AreTexts result.sorted.items (texts_of words.entry.items) }
    {
        let mut sorted = words;
        sorted.sort_unstable();
        Words { sorted }
    }

    /// Whether the text is one of them.
    pub fn contains(&self, text: &'a str) -> bool
        ensures { result ≡ is_among text.now (texts_of self.now.sorted.items) }
    {
        self.sorted.binary_search(&text).is_ok()
    }
}

/// The texts.
pub fn words_of<'a>(alloc: Global, texts: &'a [String]) -> Result<Words<'a>, AllocError>
    ensures { IfOk result (λ w. AreTexts w.sorted.items (map string_bytes texts.now)) }
{
    let mut words = Vec::with_capacity(alloc, texts.len())?;
    'texts: for text in texts {
        words.push(text.as_str())?;
    }
    Ok(Words::of(words))
}
