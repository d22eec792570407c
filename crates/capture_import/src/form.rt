//! The words that ask for an import.
ghost use Rattle.std.specs.Prelude.{◌≡◌, ◌∷◌, [], ◌↔◌, codes, IsTrue};
ghost use Rattle.capture_import.specs.Form.{AsksImport};

/// Whether this word asks for an import.
fn is_import(word: &str) -> bool
    ensures { IsTrue result ↔ (word.now ∷ [] ≡ codes "import" ∷ []) }
{
    match word {
        "import" => true,
        _ => false,
    }
}

/// Whether the words after the program's name, without the file, ask for an import. It takes no memory.
pub fn asks_import(words: &[String]) -> bool
    ensures { IsTrue result ↔ AsksImport words.now }
{
    match words {
        [word] => is_import(word.as_str()),
        _ => false,
    }
}
