//! Answers with at most one number.
ghost use Rattle.std.specs.Prelude.{◌≡◌};
ghost use Rattle.recorder.specs.Short.{only, with_number};

use call_log::word::Word;

/// An answer with at most one number.
#[derive(Clone, Copy, Debug, PartialEq, Eq, Drop)]
pub struct Short {
    pub word: Word,
    pub value: Option<u64>,
}

/// An answer that is only a word.
pub fn only(word: Word) -> Short
    ensures { result ≡ only word }
{
    Short { word, value: None }
}

/// An answer of a word and a number.
pub fn with(word: Word, value: u64) -> Short
    ensures { result ≡ with_number word value }
{
    Short {
        word,
        value: Some(value),
    }
}
