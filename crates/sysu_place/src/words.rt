//! What the words of the command line ask for.
ghost use Rattle.std.specs.Prelude.{◌≡◌, option_map};
ghost use Rattle.sysu_place.specs.Words.{forms_named, named};

use su_base::Str;

/// The forms that a text is held against.
#[derive(Clone, Copy)]
pub enum Forms {
    /// Definitions, as in a schema file.
    Definitions,
    /// Definitions and statements, as in a script.
    Either,
    /// Statements that are no definitions.
    Statements,
}

/// The forms, and the name of the text's file.
#[derive(Clone, Copy)]
pub struct Asked<'a> {
    pub forms: Forms,
    pub path: &'a Str,
}

fn forms_named(word: &str) -> Option<Forms>
    ensures { result ≡ forms_named word.now }
{
    if word == "schema" {
        return Some(Forms::Definitions);
    }
    if word == "script" {
        return Some(Forms::Either);
    }
    if word == "statement" {
        return Some(Forms::Statements);
    }
    None
}

/// What the words ask for, where they are of the stated form.
pub fn asked_of(words: &[Str]) -> Option<Asked>
    ensures { option_map (λ asked. record { forms = asked.forms; path = asked.path.now }) result ≡ named words.now }
{
    match words {
        [word, path] => {
            let forms = forms_named(word.as_str())?;
            Some(Asked { forms, path })
        }
        _ => None,
    }
}
