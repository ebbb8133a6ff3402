//! Universal relations of bytes are enough: each law is the contract of a function that does nothing.
ghost use Rattle.su_bytes.specs.Classes.{BytesSufficeForClasses};
ghost use Rattle.su_bytes.specs.Queries.{BytesSufficeForQueries};
ghost use Rattle.su_bytes.specs.Windows.{BytesSufficeForWindows};

/// Tableaux that give a class's answers over every universal relation of bytes give them over every one,
/// where the constants of these and of the class's terms are of bytes. So what `NoneIsSpare` of su_min
/// says of such lists asks for universal relations of bytes alone.
pub fn bytes_suffice_for_classes()
    ensures { BytesSufficeForClasses }
{}

/// A query that is within another over every universal relation of bytes that meets the dependencies is
/// so over every one that does, where the terms of both compare nothing and the constants of the first
/// one's are of bytes.
pub fn bytes_suffice_for_queries()
    ensures { BytesSufficeForQueries }
{}

/// Values that every fitting universal relation of bytes has in a row at the given attributes, every one
/// has, where the stored values are of bytes.
pub fn bytes_suffice_for_windows()
    ensures { BytesSufficeForWindows }
{}
