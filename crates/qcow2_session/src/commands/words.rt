//! Words of a command line, for several commands.

ghost use Rattle.std.specs.Prelude.{◌≡◌, ℕ, IfOk, List, Option, map, option_map, string_bytes};
ghost use Rattle.qcow2_session.specs.Commands.Words as spec;
ghost use Rattle.qcow2_session.specs.Commands.Words.{Parses};

use super::Command;
use std::alloc::{AllocError, Global};
use std::marker::Model;

/// The parsed arguments of a command: edits, steps or clusters, in their order. Contracts see them as a
/// list.
#[derive(Drop)]
pub struct Arguments<T> {
    list: Vec<T>,
}

impl<T> Model for Arguments<T> {
    ghost use Rattle.std.specs.Prelude.{List};

    ghost Value = { List T };

    ghost view = { λ changes. changes.list.items };
}

/// The name of an image's file, as the command line has it. Contracts see the bytes of its text.
#[derive(Drop)]
pub struct FileName {
    text: String,
}

impl Model for FileName {
    ghost use Rattle.std.specs.Prelude.{ℕ, List, string_bytes};

    ghost Value = { List ℕ };

    ghost view = { λ name. string_bytes name.text };
}

impl FileName {
    /// Makes a name from a word. Fails only if memory for it runs out.
    pub fn new(alloc: Global, word: &str) -> Result<FileName, AllocError>
        ensures { IfOk result (λ name. name ≡ word.now) }
    {
        let text = String::from_str(alloc, word)?;
        Ok(FileName { text })
    }

    /// Returns the text of the name.
    pub fn as_str(&self) -> &str
        ensures { result.now ≡ self.now }
    {
        self.text.as_str()
    }
}

// A value that a word can be parsed to.
pub(super) trait FromWord: Copy {
    ghost from_word: { List ℕ → Option Self };

    // Parses a word.
    fn from_word(word: &str) -> Option<Self>
        ensures { result ≡ from_word word.now };
}

impl<T> Arguments<T> {
    /// Returns the values.
    pub fn as_slice(&self) -> &[T]
        ensures { result.now ≡ self.now }
    {
        self.list.as_slice()
    }
}

impl<T: FromWord> Arguments<T> {
    // Parses the words, each of which must be a value.
    #[tactic(auto, using(crate::proofs::WordsLemmas::values_of_words))]
    pub(super) fn parse(alloc: Global, words: &[String]) -> Option<Result<Arguments<T>, AllocError>>
        ensures { Parses result (spec.all_values T.from_word (map string_bytes words.now)) }
    {
        let mut list = Vec::with_capacity(alloc, words.len());
        for word in words {
            let value = T::from_word(word.as_str())?;
            if let Ok(list) = &mut list {
                list.push(value).unwrap();
            }
        }
        match list {
            Ok(list) => Some(Ok(Arguments { list })),
            Err(error) => Some(Err(error)),
        }
    }
}

/// Parses 1 to 20 decimal digits, without a sign, to a number that fits 64 bits.
#[tactic(auto, using(crate::proofs::CommandsLemmas::number_of_parsed))]
pub(super) fn number(word: &str) -> Option<u64>
    ensures { result ≡ spec.word_number word.now }
{
    // `parse` accepts a leading plus.
    if word.len() > 20 || word.starts_with('+') {
        return None;
    }
    word.parse().ok()
}

/// Splits a word at its first colon.
pub(super) fn parts(word: &str) -> Option<(&str, &str)>
    ensures { option_map (λ parts. (parts.0.now, parts.1.now)) result ≡ spec.parts_of word.now }
{
    word.split_once(':')
}

/// Returns the command if no words follow its image.
pub(super) fn alone(command: Command, arguments: &[String]) -> Option<Result<Command, AllocError>>
    ensures { Parses result (spec.command_alone command (map string_bytes arguments.now)) }
{
    if arguments.is_empty() {
        Some(Ok(command))
    } else {
        None
    }
}
