ghost use Rattle.std.specs.Prelude.{◌≡◌, map, option_map};
ghost use Rattle.std.specs.Prelude.{string_bytes};
ghost use Rattle.pebbles_cli.specs.Words.{run_words, names_of, is_name};

/// What the words of a run name: its directory and its script.
#[derive(Clone, Copy)]
pub struct Names<'a> {
    pub dir: &'a str,
    pub file: &'a str,
}

fn is_name(word: &str) -> bool
    ensures { result ≡ is_name word.now }
{
    match word.as_bytes() {
        [] => false,
        [first, ..] => *first != b'-',
    }
}

/// The directory and the script that the words of a run name: `run --profile small --workers 0 DIR
/// FILE`, seven in this order.
///
/// Neither name is empty or begins with `-`. All other words name nothing.
pub fn run_words(words: &[String]) -> Option<Names<'_>>
    ensures { option_map names_of result ≡ run_words (map string_bytes words.now) }
{
    let [run, profile, small, workers, count, dir, file] = words else {
        return None;
    };
    if run.as_str() == "run"
        && profile.as_str() == "--profile"
        && small.as_str() == "small"
        && workers.as_str() == "--workers"
        && count.as_str() == "0"
        && is_name(dir.as_str())
        && is_name(file.as_str())
    {
        Some(Names {
            dir: dir.as_str(),
            file: file.as_str(),
        })
    } else {
        None
    }
}
