//! What the words of the command line ask for.
ghost use Rattle.std.specs.Prelude.{◌≡◌, option_map};
ghost use Rattle.sysu_sql.specs.Words.{named, dialect_named};

use su_base::Str;
use su_sql::Dialect;

/// The names of the schema's and of the script's file, and for which engine SQL is asked for.
#[derive(Clone, Copy)]
pub struct Asked<'a> {
    pub schema: &'a Str,
    pub script: &'a Str,
    pub dialect: Dialect,
}

fn dialect_named(word: &str) -> Option<Dialect>
    ensures { result ≡ dialect_named word.now }
{
    if word == "postgres" {
        return Some(Dialect::Postgres);
    }
    if word == "sqlite" {
        return Some(Dialect::Sqlite);
    }
    if word == "spark" {
        return Some(Dialect::Spark);
    }
    None
}

/// What the words ask for, where they are of a stated form.
pub fn command_of(words: &[Str]) -> Option<Asked>
    ensures { option_map (λ asked. record { schema = asked.schema.now; script = asked.script.now; dialect = asked.dialect }) result ≡ named words.now }
{
    match words {
        [schema, script] => Some(Asked {
            schema,
            script,
            dialect: Dialect::Postgres,
        }),
        [schema, script, option, name] if option.as_str() == "--dialect" => {
            let dialect = dialect_named(name.as_str())?;
            Some(Asked {
                schema,
                script,
                dialect,
            })
        }
        _ => None,
    }
}
