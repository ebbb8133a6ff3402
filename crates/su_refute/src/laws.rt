//! Theorems on trees and certificates: each is the contract of a function that does nothing.
ghost use Rattle.su_refute.specs.Laws.{KeptRowsHaveOneTree, MoreNodesAreMoreInAll, WrittenCertificatesAreGood};

/// Of a kept row there is one tree.
pub fn a_kept_row_has_one_tree()
    ensures { KeptRowsHaveOneTree }
{}

/// Where the trees of the first tableaux have more nodes than so many, there are trees of all tableaux,
/// and these have more.
pub fn more_nodes_are_more_in_all()
    ensures { MoreNodesAreMoreInAll }
{}

/// What is written of minimised tableaux with their trees is a certificate, and all of it is good.
pub fn a_written_certificate_is_good()
    ensures { WrittenCertificatesAreGood }
{}
