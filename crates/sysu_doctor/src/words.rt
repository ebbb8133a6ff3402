//! What the words of the command line ask for.
ghost use Rattle.std.specs.Prelude.{◌≡◌, option_map};
ghost use Rattle.sysu_doctor.specs.Words.{named};

use su_base::Str;

/// The names of the schema's and of the script's file.
#[derive(Clone, Copy)]
pub struct Asked<'a> {
    pub schema: &'a Str,
    pub script: Option<&'a Str>,
}

/// What the words ask for, where they are of a stated form.
pub fn command_of(words: &[Str]) -> Option<Asked>
    ensures { option_map (λ asked. record { schema = asked.schema.now; script = option_map (λ s. s.now) asked.script }) result ≡ named words.now }
{
    match words {
        [schema] => Some(Asked {
            schema,
            script: None,
        }),
        [schema, script] => Some(Asked {
            schema,
            script: Some(script),
        }),
        _ => None,
    }
}
