//! What the words after a program's name ask for: a command, its options, and files.
ghost use Rattle.std.specs.Prelude.{◌≡◌, ◌≤◌, ◌+◌, ◌∷◌, ◌++◌, List, String, min, IfOk};
ghost use Rattle.std.specs.Global.{Global as GlobalValue};
ghost use Rattle.program_edges.specs.Words.{plain_words, option_words, AreSorted, AreNoOptions};
ghost use Rattle.program_edges.specs.codings.Left.{plain_left, options_left};

use crate::files::{is_end, is_option, judge_files};
use crate::program::Program;
use crate::words::WordsFault;
use std::alloc::{AllocError, Global};

/// The words of a call in the order in which a program takes them, whatever order they came in.
#[derive(Debug, Drop)]
pub(crate) struct SortedWords {
    /// The command and its own words, and after them its options by the alphabet.
    own: Vec<String>,
    /// How many of these are no options.
    plain: usize,
    /// The files.
    files: Vec<String>,
}

/// A form that words ask for, its own words, and its files.
#[derive(Debug, Drop)]
pub struct Call<'a, F> {
    /// The form.
    pub form: F,
    /// The words of the form: the command, its own words and its options.
    pub words: &'a [String],
    /// The files.
    pub files: &'a [String],
}

/// Words that are no options, and those that are, in their order.
#[derive(Debug, Drop)]
struct PartedWords {
    plain: Vec<String>,
    options: Vec<String>,
}

/// Puts a word behind the command where it belongs, unless it is the `--` that ends options. It answers whether
/// options are ended then.
fn put_word(
    plain: &mut Vec<String>,
    options: &mut Vec<String>,
    ended: bool,
    word: String,
) -> Result<bool, AllocError>
    ensures plain { IfOk result (λ ends. (rest : List (String GlobalValue)) →
        plain.new.items ++ plain_left ends rest ≡ plain.old.items ++ plain_left ended (word ∷ rest)) }
    ensures options { IfOk result (λ ends. (rest : List (String GlobalValue)) →
        options.new.items ++ options_left ends rest
        ≡ options.old.items ++ options_left ended (word ∷ rest)) }
{
    if ended {
        plain.push(word)?;
        return Ok(true);
    }
    if is_end(word.as_str()) {
        return Ok(true);
    }
    if is_option(word.as_str()) {
        options.push(word)?;
        return Ok(false);
    }
    plain.push(word)?;
    Ok(false)
}

/// Parts the words of a call. The first is the command, whatever it is.
fn part_words(alloc: Global, words: Vec<String>) -> Result<PartedWords, AllocError>
    ensures plain { IfOk result (λ parted. parted.plain.items ≡ plain_words words.items) }
    ensures options { IfOk result (λ parted. parted.options.items ≡ option_words words.items) }
{
    let (mut plain, mut options) = (Vec::new(alloc), Vec::new(alloc));
    let mut rest = words.into_iter();
    let Some(command) = rest.next() else {
        return Ok(PartedWords { plain, options });
    };
    plain.push(command)?;
    let mut ended = false;
    for word in rest {
        ended = put_word(&mut plain, &mut options, ended, word)?;
    }
    Ok(PartedWords { plain, options })
}

/// How many of so many words are the command and what belongs to it.
fn own_count(all: usize, behind: usize) -> usize
    ensures value { result ≡ min (behind + 1) all }
    ensures few { result ≤ all }
{
    if behind < all { behind + 1 } else { all }
}

/// Sorts words, of which so many behind the command belong to it. The first is the command, and the others may come
/// in any order: those that begin with `-` are options, except `-` alone, which is a file, and except all that come
/// after `--`; and of the rest the first belong to the command, and the others are files.
pub(crate) fn sort_words(
    alloc: Global,
    words: Vec<String>,
    behind: usize,
) -> Result<SortedWords, AllocError>
    ensures sorted { IfOk result (λ sorted.
        AreSorted behind words.items sorted.own.items sorted.plain sorted.files.items) }
    ensures named { IfOk result (λ sorted. AreNoOptions words.items sorted.files.items) }
{
    let parted = part_words(alloc, words)?;
    let (mut own, mut options) = (parted.plain, parted.options);
    let plain = own_count(own.len(), behind);
    let files = own.split_off(plain)?;
    options.sort_unstable();
    own.append(&mut options)?;
    Ok(SortedWords { own, plain, files })
}

impl SortedWords {
    /// The command, if one is given.
    fn command(&self) -> &str {
        match self.own.as_slice() {
            [command, ..] => command.as_str(),
            [] => "",
        }
    }

    /// The command whose help the words ask for, if they ask for one.
    pub(crate) fn helped_command<P: Program>(&self) -> Option<&str> {
        let command = self.command();
        let asks = self
            .own
            .iter()
            .skip(self.plain)
            .any(|word| word.as_str() == "--help" || word.as_str() == "-h");
        (asks && P::has_command(command)).then_some(command)
    }

    /// Why the words of the form are none: the first option that isn't one of its own, or what the program says.
    fn fault<P: Program>(&self) -> WordsFault<'_> {
        for count in (self.plain.max(1)..self.own.len()).rev() {
            let (form, options) = self.own.split_at(count);
            if let ([word, ..], Some(_)) = (options, P::form_of(form)) {
                return WordsFault::UnknownOption {
                    form: self.command(),
                    word: word.as_str(),
                };
            }
        }
        let (plain, _) = self.own.split_at(self.plain.min(self.own.len()));
        P::fault_of(plain)
    }

    /// The call that the words ask for. It has the form's own words and the files that were sorted.
    pub(crate) fn call<P: Program>(&self) -> Result<Call<'_, P::Form>, WordsFault<'_>>
        ensures words { IfOk result (λ call. call.words.now ≡ self.now.own.items) }
        ensures files { IfOk result (λ call. call.files.now ≡ self.now.files.items) }
    {
        match P::form_of(&self.own) {
            None => Err(self.fault::<P>()),
            Some(form) => {
                judge_files(self.command(), &self.files, P::files_of(&form))?;
                Ok(Call {
                    form,
                    words: &self.own,
                    files: &self.files,
                })
            }
        }
    }
}
