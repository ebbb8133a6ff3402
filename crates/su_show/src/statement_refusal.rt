//! Why a statement is refused.
use su_base::Value;
use su_csv::CsvFault;
use su_query::QueryFault;
use su_state::{DefineFault, LoadFault, StateFault};
use su_steps::StepFault;

/// Why a statement is refused. Relations, columns, dependencies and objects are numbers from 0.
#[derive(Drop)]
pub enum Refusal {
    /// The text is in no form, past a limit, or names what is not there.
    Query(QueryFault),
    /// A change of rows is refused.
    State(StateFault),
    /// A row of a load is refused.
    Record(LoadFault),
    /// The file of a load into the relation with this number is at fault.
    Csv(u8, CsvFault),
    /// A query gets no terms.
    Steps(StepFault),
    /// The answer of a query has more than 1,000,000 rows.
    Answer,
    /// The trees of a query's certificate have more than 200,000 nodes.
    Nodes,
    /// A definition is refused.
    Define(DefineFault),
    /// A query that is compared asks for more than equalities.
    OnlyEqual,
    /// The outputs of two queries that are compared differ in number or in kind.
    OutputsDiffer,
    /// The views of the objects have more than 20,000 members together, too many for a window.
    WindowLimit,
    /// No universal relation includes the stored rows: the dependencies make these two values equal.
    Inconsistent { less: Value, greater: Value },
}
