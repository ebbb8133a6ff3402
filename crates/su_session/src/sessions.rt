//! The session: a database, its maximal objects, and one command after another.
ghost use Rattle.std.specs.Prelude.{◌≡◌, ◌≤◌, ℕ, List as Items, IfOk, OnErr, option_map, unwrap_or, []};

use crate::certifying::certify;
use crate::changes::{delete, delete_where, insert, load};
use crate::commands::{Command, Task, load_of, read};
use crate::comparing::compare;
use crate::replies::{Reply, refused};
use crate::retrieving::{explain, retrieve};
use crate::showing::{closure, print, show_schema};
use crate::supporting::support;
use crate::wants::Want;
use crate::windowing::show_window;
use std::alloc::Global;
use std::marker::Model;
use std::mem::replace;
use std::thread::Threads;
use su_base::{List, NoMemory, ObjSet};
use su_maxobj::maximal_objects;
use su_par::Gate;
use su_query::{Query, Statement};
use su_schema::Schema;
use su_show::Refusal;
use su_state::Database;
use su_window::Representative;

/// A database with the maximal objects of its schema, and its representative instance from the first
/// window that is shown until the next change.
pub struct Session {
    pub(crate) alloc: Global,
    pub(crate) db: Database,
    pub(crate) maximal: List<ObjSet>,
    /// Of the database as it is, if a window was asked for since it changed.
    pub(crate) representative: Option<Representative>,
}

/// Not derived, so that it is a single call wherever a session goes out of scope above.
impl Drop for Session {
    fn drop(self) {
        let Session {
            alloc: _,
            db: _,
            maximal: _,
            representative: _,
        } = self;
    }
}

impl Model for Session {
    ghost use Rattle.std.specs.Coded.{codes, coded_ℕ};
    ghost use Rattle.std.specs.Ordering.{nat_cmp};
    ghost use Rattle.std.specs.FinSet as set;
    ghost use Rattle.su_base.specs.contracts.attr_sets.AttrSet as attr_set;
    ghost use Rattle.su_schema.specs.contracts.schemas.Schema as schemas;
    ghost use Rattle.su_state.specs.contracts.databases.Database as databases;
    ghost use Rattle.su_state.specs.DatabaseValue.{DatabaseValue};
    ghost use Rattle.su_maxobj.specs.MaximalObjects.{AreMaximalObjects};
    ghost use Rattle.su_window.specs.Representative.{Represents};
    ghost use Rattle.std.specs.Prelude.{IfSome};

    ghost Value = { DatabaseValue };

    ghost coded = { Prim.hlevel (codes, databases.the_row.coded, schemas.the_row.coded, attr_set.the_row.coded, set.code {R = nat_cmp} coded_ℕ) };

    ghost view = { λ s. s.db };

    ghost invariant = { λ s. AreMaximalObjects s.db.schema s.maximal × IfSome s.representative (Represents s.db) };
}

/// The content of a file; nothing without one.
fn content<'a>(file: Option<&'a [u8]>) -> &'a [u8]
    ensures { result.now ≡ unwrap_or (option_map (λ bytes. bytes.now) file.entry) [] }
{
    match file {
        Some(bytes) => bytes,
        None => &[],
    }
}

impl Session {
    ghost use Rattle.su_session.specs.EmptyDatabase.{empty_database};
    ghost use Rattle.su_session.specs.Commands.{IsRead, WasRead, RepliedTo};
    ghost use Rattle.su_session.specs.Reply.{Replied};
    ghost use Rattle.su_session.specs.WantedFiles.{Wants};
    ghost use Rattle.su_session.specs.Statements.{Answers};
    ghost use Rattle.su_state.specs.DatabaseValue.{IsWellKept};
    ghost use Rattle.su_query.specs.Limits.{AreFew, HasFew};
    ghost use Rattle.su_query.specs.StatementTexts.{IsReady};
    ghost use Rattle.su_session.specs.Retrievals.{Retrieves};
    ghost use Rattle.su_session.specs.Explanations.{Explains};
    ghost use Rattle.su_session.specs.Certificates.{Certifies};
    ghost use Rattle.su_session.specs.Supports.{Supports};

    /// A session on a schema whose relations are empty.
    pub fn open(alloc: Global, schema: Schema) -> Result<Session, NoMemory>
        ensures { IfOk result (λ session. session ≡ empty_database schema) }
    {
        let maximal = maximal_objects(alloc, &schema)?;
        let db = Database::new(alloc, schema)?;
        Ok(Session {
            alloc,
            db,
            maximal,
            representative: None,
        })
    }

    /// A session on a database as it is, with the rows that it has.
    pub fn resume(alloc: Global, db: Database) -> Result<Session, NoMemory>
        ensures { IfOk result (λ session. session ≡ db) }
    {
        let maximal = maximal_objects(alloc, db.schema())?;
        Ok(Session {
            alloc,
            db,
            maximal,
            representative: None,
        })
    }

    /// The database as the accepted statements left it.
    pub fn database(&self) -> &Database
        ensures { result.now ≡ self.now }
    {
        &self.db
    }

    /// The file that the command wants, to be handed to `carry_out`: that of a load of a known relation.
    pub fn wants(&self, command: &Command) -> Result<Want, NoMemory>
        ensures { IfOk result (λ want. (text : Items ℕ) → IsRead text command.now → Wants self.now text want) }
    {
        match load_of(command) {
            Some((relation, file)) => match self.db.schema().find_relation(relation.as_str()) {
                Some(_) => Ok(Want::File(file.copy(self.alloc)?)),
                None => Ok(Want::Nothing),
            },
            None => Ok(Want::Nothing),
        }
    }

    /// Takes one text and gives its reply: `read`, and then `carry_out`.
    pub fn step<R: Threads + Sync, G: Gate>(
        &mut self,
        rt: &R,
        text: &[u8],
        file: Option<&[u8]>,
        workers: u8,
        gate: &G,
    ) -> Result<Reply, NoMemory>
        requires least { 1 ≤ workers }
        requires most { workers ≤ 16 }
        ensures replied { IfOk result (λ reply. Replied self.old text.now (option_map (λ bytes. bytes.now) file.entry) reply self.new) }
        ensures unchanged { OnErr result (self.new ≡ self.old) }
        ensures kept { IsWellKept self.old }
    {
        self.db.keeps_its_rules();
        let command = read(self.alloc, text)?;
        self.carry_out(rt, command, file, workers, gate)
    }

    /// Does what was read and gives the reply. `file` is the content of the file that it wants; without
    /// one a load reads an empty file. What is refused, and what found no memory, changes nothing.
    ///
    /// The terms of a query are minimised and executed by at most `workers` threads at a time, and the
    /// gate is passed before each. Neither changes the reply.
    pub fn carry_out<R: Threads + Sync, G: Gate>(
        &mut self,
        rt: &R,
        command: Command,
        file: Option<&[u8]>,
        workers: u8,
        gate: &G,
    ) -> Result<Reply, NoMemory>
        requires least { 1 ≤ workers }
        requires most { workers ≤ 16 }
        requires read { WasRead command }
        ensures replied { IfOk result (λ reply. RepliedTo self.old command (option_map (λ bytes. bytes.now) file.entry) reply self.new) }
        ensures unchanged { OnErr result (self.new ≡ self.old) }
        ensures kept { IsWellKept self.old }
    {
        self.db.keeps_its_rules();
        match command.into_task() {
            Ok(Task::Definition(definition)) => self.add(&definition),
            Ok(Task::Statement(statement)) => {
                self.answer(rt, statement, content(file), workers, gate)
            }
            Err(fault) => refused(self.alloc, &self.db, Refusal::Query(fault)),
        }
    }

    fn answer<R: Threads + Sync, G: Gate>(
        &mut self,
        rt: &R,
        statement: Statement,
        file: &[u8],
        workers: u8,
        gate: &G,
    ) -> Result<Reply, NoMemory>
        requires least { 1 ≤ workers }
        requires most { workers ≤ 16 }
        requires few { HasFew statement }
        requires ready { IsReady statement }
        ensures replied { IfOk result (λ reply. Answers self.old file.now statement reply self.new) }
        ensures unchanged { OnErr result (self.new ≡ self.old) }
    {
        let mut statement = statement;
        match &mut statement {
            Statement::Insert { relation, row } => {
                let row = replace(row, List::new(self.alloc));
                self.representative = None;
                insert(self.alloc, &mut self.db, relation, row)
            }
            Statement::Delete { relation, row } => {
                self.representative = None;
                delete(self.alloc, &mut self.db, relation, row)
            }
            Statement::DeleteWhere { relation, cond } => {
                self.representative = None;
                delete_where(self.alloc, &mut self.db, relation, cond)
            }
            Statement::Load { relation, .. } => {
                self.representative = None;
                load(self.alloc, &mut self.db, relation, file)
            }
            Statement::Print { relation } => print(self.alloc, &self.db, relation),
            Statement::Schema => show_schema(self.alloc, &self.db, self.maximal.as_slice()),
            Statement::Closure { attributes } => {
                closure(self.alloc, &self.db, attributes.as_slice())
            }
            Statement::Retrieve(query) => self.retrieve(rt, query, workers, gate),
            Statement::Explain(query) => self.explain(rt, query, workers, gate),
            Statement::Certify(query) => self.certify(rt, query, workers, gate),
            Statement::Support(query) => self.support(rt, query, workers, gate),
            Statement::Compare { first, second } => {
                compare(self.alloc, &self.db, self.maximal.as_slice(), first, second)
            }
            Statement::Window { attributes } => {
                let kept = &mut self.representative;
                show_window(self.alloc, &self.db, kept, attributes.as_slice())
            }
        }
    }

    fn retrieve<R: Threads + Sync, G: Gate>(
        &self,
        rt: &R,
        query: &Query,
        workers: u8,
        gate: &G,
    ) -> Result<Reply, NoMemory>
        requires few { AreFew query.now.outputs query.now.cond }
        requires least { 1 ≤ workers }
        requires most { workers ≤ 16 }
        ensures { IfOk result (λ reply. Retrieves self.now query.now reply self.now) }
    {
        let maximal = self.maximal.as_slice();
        retrieve(rt, self.alloc, &self.db, maximal, query, workers, gate)
    }

    fn explain<R: Threads + Sync, G: Gate>(
        &self,
        rt: &R,
        query: &Query,
        workers: u8,
        gate: &G,
    ) -> Result<Reply, NoMemory>
        requires few { AreFew query.now.outputs query.now.cond }
        requires least { 1 ≤ workers }
        requires most { workers ≤ 16 }
        ensures { IfOk result (λ reply. Explains self.now query.now reply self.now) }
    {
        let maximal = self.maximal.as_slice();
        explain(rt, self.alloc, &self.db, maximal, query, workers, gate)
    }

    fn certify<R: Threads + Sync, G: Gate>(
        &self,
        rt: &R,
        query: &Query,
        workers: u8,
        gate: &G,
    ) -> Result<Reply, NoMemory>
        requires few { AreFew query.now.outputs query.now.cond }
        requires least { 1 ≤ workers }
        requires most { workers ≤ 16 }
        ensures { IfOk result (λ reply. Certifies self.now query.now reply self.now) }
    {
        let maximal = self.maximal.as_slice();
        certify(rt, self.alloc, &self.db, maximal, query, workers, gate)
    }

    fn support<R: Threads + Sync, G: Gate>(
        &self,
        rt: &R,
        query: &Query,
        workers: u8,
        gate: &G,
    ) -> Result<Reply, NoMemory>
        requires few { AreFew query.now.outputs query.now.cond }
        requires least { 1 ≤ workers }
        requires most { workers ≤ 16 }
        ensures { IfOk result (λ reply. Supports self.now query.now reply self.now) }
    {
        let maximal = self.maximal.as_slice();
        support(rt, self.alloc, &self.db, maximal, query, workers, gate)
    }
}
