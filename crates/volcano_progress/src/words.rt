//! What the words of a command say of the line.

ghost use Rattle.std.specs.Prelude.{◌≡◌};
ghost use Rattle.std.specs.List.{list_any};
ghost use Rattle.volcano_progress.specs.Words.{is_quiet};

// The option that asks for no line.
const QUIET: &str = "--quiet";

/// Whether the words of a command ask for no line.
pub fn is_quiet(words: &[&str]) -> bool
    ensures { result ≡ list_any (λ word. is_quiet word.now) words.now }
{
    words.iter().any(|word| *word == QUIET)
}
