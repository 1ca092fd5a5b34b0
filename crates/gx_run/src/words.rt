//! The words that the program is called with.

ghost use Rattle.std.specs.Prelude.{◌≡◌, ℕ, List, [], ◌∷◌, map};
ghost use Rattle.std.specs.String.{string_bytes};
ghost use Rattle.gx_run.specs.Words.{command_of};

/// What the program is asked to do.
#[derive(Clone, Copy, Debug, PartialEq, Eq, Drop)]
pub enum Command {
    /// Make an empty database in a file: over whatever is there, or only where the file is empty.
    Init { overwrite: bool },
    /// Run a script on the database in a file.
    Run,
    /// Run a script on an empty database in memory.
    Try,
}

/// The command that the words say.
pub fn read_words(words: &[String]) -> Option<Command>
    ensures { result ≡ command_of (map string_bytes words.now) }
{
    match words {
        [word] => read_one(word.as_str()),
        [first, _] => {
            let verb = first.as_str();
            read_two(verb)
        }
        [start, _, last] => {
            let action = start.as_str();
            let option = last.as_str();
            read_three(action, option)
        }
        _ => None,
    }
}

fn read_one(word: &str) -> Option<Command>
    ensures { result ≡ command_of (word.now ∷ []) }
{
    if word == "try" {
        return Some(Command::Try);
    }
    None
}

fn read_two(word: &str) -> Option<Command>
    ensures { (file : List ℕ) → result ≡ command_of (word.now ∷ file ∷ []) }
{
    if word == "init" {
        return Some(Command::Init { overwrite: false });
    }
    if word == "run" {
        return Some(Command::Run);
    }
    None
}

fn read_three(word: &str, option: &str) -> Option<Command>
    ensures { (file : List ℕ) → result ≡ command_of (word.now ∷ file ∷ option.now ∷ []) }
{
    if word == "init" && option == "--overwrite" {
        return Some(Command::Init { overwrite: true });
    }
    None
}
