//! For which engine SQL is written.

/// For which engine SQL is written: how it quotes names and texts, names kinds, and is told to order
/// texts by their bytes.
#[derive(Clone, Copy, PartialEq, Eq, Debug)]
pub enum Dialect {
    /// PostgreSQL. DuckDB and Trino take its queries too, but for their names of collations.
    Postgres,
    Sqlite,
    /// Spark SQL, which orders texts by their bytes.
    Spark,
}
