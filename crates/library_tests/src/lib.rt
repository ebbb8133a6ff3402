//! Tests of library_keys, library_tableaux, library_query and library_certificate, of their public calls alone.
#![tactic(auto)]

#[cfg(test)]
mod tests;
