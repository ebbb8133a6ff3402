//! Databases that are alike have one window on some attributes.
ghost use Rattle.su_once.specs.Windows.{OneWindow, OneWindowRefusal, RefusedOrFitting};

/// A window has one list of rows.
pub fn a_window_has_one_list_of_rows()
    ensures { OneWindow }
{}

/// A window is refused for one cause.
pub fn a_window_is_refused_for_one_cause()
    ensures { OneWindowRefusal }
{}

/// A window that is refused has too many members, or no universal relation fits.
pub fn a_refused_window_fits_nothing()
    ensures { RefusedOrFitting }
{}
