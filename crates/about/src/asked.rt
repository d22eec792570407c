//! The words that ask for a program's help or its version.
ghost use Rattle.std.specs.Prelude.{◌≡◌, ◌∷◌, [], ◌↔◌};
ghost use Rattle.about.specs.Asked.{AreWordsFor, AsksFor};
ghost use Rattle.about.specs.declared.asked.About.{About};

/// What a program can be asked for of itself.
#[derive(Clone, Copy, Debug, PartialEq, Eq)]
pub enum About {
    /// `--help` or `-h`: what each form does, the statuses, and where the pages are.
    Help,
    /// `--version`: the number, the kit that proved it, and the standards.
    Version,
}

impl About {
    /// What this word asks for.
    fn of_word(word: &str) -> Option<About>
        ensures { (about : About) → (result ≡ Some about) ↔ AreWordsFor about (word.now ∷ []) }
    {
        match word {
            "--help" | "-h" => Some(About::Help),
            "--version" => Some(About::Version),
            _ => None,
        }
    }

    /// What the words after the program's name ask for. `None` exactly where they ask for neither help nor version.
    /// It takes no memory.
    pub fn of_words(words: &[String]) -> Option<About>
        ensures { (about : About) → (result ≡ Some about) ↔ AsksFor words.now about }
    {
        match words {
            [word] => About::of_word(word.as_str()),
            _ => None,
        }
    }
}
