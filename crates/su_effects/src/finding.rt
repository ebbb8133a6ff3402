//! The effect of a command.
ghost use Rattle.std.specs.Prelude.{◌≡◌, IfOk, option_map, unwrap_or, []};
ghost use Rattle.su_query.specs.Limits.{HasFew};
ghost use Rattle.su_query.specs.StatementTexts.{IsReady};
ghost use Rattle.su_session.specs.Commands.{WasRead};
ghost use Rattle.su_session.specs.Statements.{Answers};
ghost use Rattle.su_effects.specs.Effects.{IsEffectOf};
ghost use Rattle.su_effects.specs.inside.Statements.{MakesWhere};

use crate::deleting::{delete, delete_where};
use crate::effects::Effect;
use crate::inserting::insert;
use crate::loading::load;
use std::alloc::Global;
use su_base::NoMemory;
use su_query::Statement;
use su_session::Command;
use su_state::Database;

/// The content of a file; nothing without one.
fn content<'a>(file: Option<&'a [u8]>) -> &'a [u8]
    ensures { result.now ≡ unwrap_or (option_map (λ bytes. bytes.now) file.entry) [] }
{
    match file {
        Some(bytes) => bytes,
        None => &[],
    }
}

/// What a statement changes, where it is accepted.
fn of_statement(
    alloc: Global,
    db: &Database,
    statement: &Statement,
    file: &[u8],
) -> Result<Effect, NoMemory>
    requires few { HasFew statement.now }
    requires ready { IsReady statement.now }
    ensures { IfOk result (λ effect. MakesWhere effect db.now (λ reply new. Answers db.now file.now statement.now reply new)) }
{
    match statement {
        Statement::Insert { relation, row } => insert(alloc, db, relation, row),
        Statement::Delete { relation, row } => delete(alloc, db, relation, row),
        Statement::DeleteWhere { relation, cond } => delete_where(alloc, db, relation, cond),
        Statement::Load { relation, .. } => load(alloc, db, relation, file),
        _ => Ok(Effect::Nothing),
    }
}

/// What the command changes, where it is accepted; found before it is carried out. `file` is the content
/// of the file that it wants.
pub fn effect_of(
    alloc: Global,
    db: &Database,
    command: &Command,
    file: Option<&[u8]>,
) -> Result<Effect, NoMemory>
    requires { WasRead command.now }
    ensures { IfOk result (λ effect. IsEffectOf db.now command.now (option_map (λ bytes. bytes.now) file.entry) effect) }
{
    match command {
        Command::Definition(_) => Ok(Effect::Defines),
        Command::Statement(statement) => of_statement(alloc, db, statement, content(file)),
        Command::Refused(_) => Ok(Effect::Nothing),
    }
}
