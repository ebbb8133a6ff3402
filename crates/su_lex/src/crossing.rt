//! Every public type may be moved to another thread and shared between threads.
use crate::ends::LexEnd;
use crate::kinds::{Token, TokenKind};
use crate::meaning::Symbol;
use crate::readers::Reader;
use crate::signs::Sign;
use crate::spans::Span;
use su_base::crosses_threads;

fn types_cross_threads() {
    crosses_threads::<Span>();
    crosses_threads::<Sign>();
    crosses_threads::<TokenKind>();
    crosses_threads::<Token>();
    crosses_threads::<Symbol>();
    crosses_threads::<LexEnd>();
    crosses_threads::<Reader>();
}
