//! The words of the command line.

ghost use Rattle.std.specs.Prelude.{◌≡◌, Option};
ghost use Rattle.std.specs.List.{list_all};
ghost use Rattle.std.specs.Option.{option_map};
ghost use Rattle.snap_commands.specs.Words.{bytes_of, is_name, is_printable, job_of, job_under};
ghost use Rattle.snap_commands.specs.Views.{job_view};

use snap_base::MOST_ITEMS;

/// What a command line asks for: a command, and the name of the file that it works on.
#[derive(Clone, Copy, Debug, PartialEq, Eq)]
pub(crate) enum Job<'a> {
    /// To run this source and write the blob of what it leaves.
    Build(&'a str),
    /// To run this entry on what the blob holds, or what the blob itself would run.
    Run(Option<&'a str>),
    /// To verify this blob.
    Verify(&'a str),
}

/// What the words ask for: `build SOURCE`, `run`, `run ENTRY` or `verify NAME`.
pub(crate) fn job_of(words: &[String]) -> Option<Job<'_>>
    ensures { option_map job_view result ≡ job_of (bytes_of words.now) }
{
    match words {
        [command] if command.as_str() == "run" => Some(Job::Run(None)),
        [command, name] if is_name(name.as_str()) => job_under(command.as_str(), name.as_str()),
        _ => None,
    }
}

// The command of this word, over a file.
fn job_under<'a>(command: &str, name: &'a str) -> Option<Job<'a>>
    ensures { option_map job_view result ≡ job_under command.now name.now }
{
    match command {
        "build" => Some(Job::Build(name)),
        "run" => Some(Job::Run(Some(name))),
        "verify" => Some(Job::Verify(name)),
        _ => None,
    }
}

// Whether a word names a file: no longer than a text, of printable characters, and no option.
fn is_name(word: &str) -> bool
    ensures { result ≡ is_name word.now }
{
    if word.len() > MOST_ITEMS as usize {
        return false;
    }
    if word.as_bytes().starts_with(b"--") {
        return false;
    }
    is_printable(word.as_bytes())
}

fn is_printable(bytes: &[u8]) -> bool
    ensures { result ≡ list_all is_printable bytes.now }
{
    bytes.iter().all(|b| 0x20 <= *b && *b <= 0x7E)
}
