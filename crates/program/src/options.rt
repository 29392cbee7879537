//! The words of a command line.
ghost use Rattle.std.specs.Prelude.{◌≡◌, IfOk, map, string_bytes, false};
ghost use Rattle.std.specs.List.{list_any};
ghost use Rattle.program.specs.Options.{word_of, words_from, ends, checks, unknown, asked};

use std::alloc::{AllocError, Global};

/// What a word says.
#[derive(Clone, Copy)]
pub enum Word {
    /// Prints the help.
    Help,
    /// Prints the version.
    Version,
    /// The status tells whether all files are accepted.
    Check,
    /// Options end here.
    End,
    /// An option that there is none of.
    Unknown,
    /// The name of a file.
    Name,
}

impl Word {
    /// What a word says where options are still read.
    #[tactic(auto, unfolding(crate::specs::Options::option_of))]
    pub(crate) fn from_text(text: &[u8]) -> Word
        ensures { result ≡ word_of text.now }
    {
        match text {
            b"--help" | b"-h" => Word::Help,
            b"--version" => Word::Version,
            b"--check" => Word::Check,
            b"--" => Word::End,
            [b'-', ..] => Word::Unknown,
            _ => Word::Name,
        }
    }

    /// Whether options end here.
    fn is_end(self) -> bool
        ensures { result ≡ ends self }
    {
        matches!(self, Word::End)
    }

    /// Whether files are to be checked.
    pub(crate) fn is_check(self) -> bool
        ensures { result ≡ checks self }
    {
        matches!(self, Word::Check)
    }

    /// Whether it is an option that there is none of.
    pub(crate) fn is_unknown(self) -> bool
        ensures { result ≡ unknown self }
    {
        matches!(self, Word::Unknown)
    }
}

/// What each word of a command line says.
pub(crate) fn read_words(heap: Global, texts: &[String]) -> Result<Vec<Word>, AllocError>
    ensures { IfOk result (λ words. words.items ≡ words_from false (map string_bytes texts.now)) }
{
    let mut words = Vec::new(heap);
    let mut ended = false;
    for text in texts {
        let word = if ended {
            Word::Name
        } else {
            Word::from_text(text.as_bytes())
        };
        ended = ended || word.is_end();
        words.push(word)?;
    }
    Ok(words)
}

/// Whether files are to be checked; none, where a word is an option that there is none of.
pub(crate) fn check_asked(words: &[Word]) -> Option<bool>
    ensures { result ≡ asked words.now }
{
    if has_unknown(words) {
        return None;
    }
    Some(has_check(words))
}

/// Whether a word is an option that there is none of.
fn has_unknown(words: &[Word]) -> bool
    ensures { result ≡ list_any unknown words.now }
{
    words.iter().any(|word| word.is_unknown())
}

/// Whether a word asks that files be checked.
fn has_check(words: &[Word]) -> bool
    ensures { result ≡ list_any checks words.now }
{
    words.iter().any(|word| word.is_check())
}
