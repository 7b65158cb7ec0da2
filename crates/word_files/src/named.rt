//! The files that words name.
ghost use Rattle.std.specs.Prelude.{◌≡◌, map, option_map, string_bytes};
ghost use Rattle.std.specs.List.{list_any, before_first, after_first};
ghost use Rattle.word_files.specs.Expanding.{file_behind, file_of, file_of_option, first_file, groups_file, is_at, takes_users, users_file};

fn has_at(word: &str) -> bool
    ensures { result ≡ list_any is_at word.now }
{
    word.as_bytes().iter().any(|b| *b == b'@')
}

fn before_at(word: &str) -> &str
    ensures { result.now ≡ before_first is_at word.now }
{
    match word.split_once('@') {
        Some((before, _)) => before,
        None => word,
    }
}

fn after_at(word: &str) -> &str
    ensures { result.now ≡ after_first is_at word.now }
{
    match word.split_once('@') {
        Some((_, after)) => after,
        None => "",
    }
}

// The file that a word names behind this and an at sign.
fn file_behind<'a>(front: &str, word: &'a str) -> Option<&'a str>
    ensures { option_map (λ f. f.now) result ≡ file_behind front.now word.now }
{
    if has_at(word) && before_at(word).as_bytes() == front.as_bytes() {
        Some(after_at(word))
    } else {
        None
    }
}

fn file_of(list: &str) -> Option<&str>
    ensures { option_map (λ f. f.now) result ≡ file_of list.now }
{
    file_behind("", list)
}

/// The file that an option names.
pub(crate) fn file_of_option(option: &str) -> Option<&str>
    ensures { option_map (λ f. f.now) result ≡ file_of_option option.now }
{
    file_behind("groups=", option)
}

fn first_file(options: &[String]) -> Option<&str>
    ensures { option_map (λ f. f.now) result ≡ first_file (map string_bytes options.now) }
{
    match options {
        [] => None,
        [option, rest @ ..] => match file_of_option(option.as_str()) {
            Some(file) => Some(file),
            None => first_file(rest),
        },
    }
}

fn takes_users(command: &String) -> bool
    ensures { result ≡ takes_users (string_bytes command.now) }
{
    command.as_bytes() == "pipe".as_bytes() || command.as_bytes() == "serve".as_bytes()
}

/// The file of users that the words name.
pub fn users_file(words: &[String]) -> Option<&str>
    ensures { option_map (λ f. f.now) result ≡ users_file (map string_bytes words.now) }
{
    match words {
        [] => None,
        [_] => None,
        [command, list, ..] => {
            if takes_users(command) {
                file_of(list.as_str())
            } else {
                None
            }
        }
    }
}

/// The file of groups that the words name.
pub fn groups_file(words: &[String]) -> Option<&str>
    ensures { option_map (λ f. f.now) result ≡ groups_file (map string_bytes words.now) }
{
    match words {
        [] => None,
        [_] => None,
        [command, _, options @ ..] => {
            if takes_users(command) {
                first_file(options)
            } else {
                None
            }
        }
    }
}
