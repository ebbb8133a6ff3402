//! What a text asks for, read before anything is done.
ghost use Rattle.std.specs.Prelude.{◌≡◌, ◌≢◌, true, false, ℕ, List as Items, IfOk, IfErr, MatchOption};
ghost use Rattle.su_lex.specs.Symbols.{Symbols};
ghost use Rattle.su_query.specs.declared.statements.Statement.TheVariants.{Load};
ghost use Rattle.su_session.specs.Reply.{is_definition_word, begins_definition};
ghost use Rattle.su_session.specs.Commands.{IsRead};
ghost use Rattle.su_session.specs.inside.Tasks.{of_task, IsNoLoad};

use std::alloc::Global;
use su_base::{List, NoMemory, Str};
use su_ddl::definition_of;
use su_lex::{LexEnd, Symbol, symbols};
use su_query::{QueryFault, Statement, statement_of};
use su_schema::Definition;

/// A definition, a statement, or why the text is neither.
pub enum Command {
    Definition(Definition),
    Statement(Statement),
    Refused(QueryFault),
}

/// Not derived, so that it is a single call wherever a command goes out of scope above.
impl Drop for Command {
    fn drop(self) {
        match self {
            Command::Definition(_) => {}
            Command::Statement(_) => {}
            Command::Refused(_) => {}
        }
    }
}

/// What there is to do.
#[derive(Drop)]
pub(crate) enum Task {
    Definition(Definition),
    Statement(Statement),
}

impl Command {
    /// What there is to do, or why there is nothing.
    pub(crate) fn into_task(self) -> Result<Task, QueryFault>
        ensures task { IfOk result (λ task. self ≡ of_task task) }
        ensures refused { IfErr result (λ fault. self ≡ Command.Refused fault) }
    {
        match self {
            Command::Definition(definition) => Ok(Task::Definition(definition)),
            Command::Statement(statement) => Ok(Task::Statement(statement)),
            Command::Refused(fault) => Err(fault),
        }
    }
}

/// Whether the symbols begin a definition.
fn begins_definition(symbols: &[Symbol]) -> bool
    ensures { result ≡ begins_definition symbols.now }
{
    match symbols {
        [Symbol::Word(word), ..] => is_definition_word(word.as_str()),
        _ => false,
    }
}

fn is_definition_word(word: &str) -> bool
    ensures { result ≡ is_definition_word word.now }
{
    word == "attribute"
        || word == "relation"
        || word == "object"
        || word == "fd"
        || word == "maximal"
}

/// A text of symbols that begin a definition. Want of memory is handed on.
fn read_definition(alloc: Global, symbols: List<Symbol>) -> Result<Command, NoMemory>
    requires { begins_definition symbols ≡ true }
    ensures { IfOk result (λ command. (text : Items ℕ) → Symbols text symbols → IsRead text command) }
{
    match definition_of(alloc, symbols) {
        Ok(definition) => Ok(Command::Definition(definition)),
        Err(LexEnd::Syntax) => Ok(Command::Refused(QueryFault::Syntax)),
        Err(LexEnd::NoMemory) => Err(NoMemory),
    }
}

/// Want of memory is handed on.
fn refused(fault: QueryFault) -> Result<Command, NoMemory>
    ensures { IfOk result (λ command. (command ≡ Command.Refused fault) × (fault ≢ QueryFault.NoMemory)) }
{
    match fault {
        QueryFault::NoMemory => Err(NoMemory),
        fault => Ok(Command::Refused(fault)),
    }
}

/// A text of any other symbols.
fn read_statement(alloc: Global, symbols: List<Symbol>) -> Result<Command, NoMemory>
    requires { begins_definition symbols ≡ false }
    ensures { IfOk result (λ command. (text : Items ℕ) → Symbols text symbols → IsRead text command) }
{
    match statement_of(alloc, symbols) {
        Ok(statement) => Ok(Command::Statement(statement)),
        Err(fault) => refused(fault),
    }
}

/// What a text of these symbols asks for.
fn command_of(alloc: Global, symbols: List<Symbol>) -> Result<Command, NoMemory>
    ensures { IfOk result (λ command. (text : Items ℕ) → Symbols text symbols → IsRead text command) }
{
    if begins_definition(symbols.as_slice()) {
        return read_definition(alloc, symbols);
    }
    read_statement(alloc, symbols)
}

/// What the text asks for. Its symbols are made once, and read once: as a definition where the first
/// of them is a word that begins one, else as a statement.
pub fn read(alloc: Global, text: &[u8]) -> Result<Command, NoMemory>
    ensures { IfOk result (λ command. IsRead text.now command) }
{
    match symbols(alloc, text) {
        Ok(symbols) => command_of(alloc, symbols),
        Err(LexEnd::Syntax) => Ok(Command::Refused(QueryFault::Syntax)),
        Err(LexEnd::NoMemory) => Err(NoMemory),
    }
}

/// The relation and the file of a load.
pub(crate) fn load_of(command: &Command) -> Option<(&Str, &Str)>
    ensures { MatchOption result (IsNoLoad command.now) (λ load. command.now ≡ Command.Statement (Load load.0.now load.1.now)) }
{
    match command {
        Command::Statement(Statement::Load { relation, file }) => Some((relation, file)),
        _ => None,
    }
}
