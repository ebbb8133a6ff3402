//! A law of talks. The function does nothing: its contract is the law.
ghost use Rattle.su_talk.specs.Laws.{TwoTalksAgree};

/// However the input is cut into what one read gives, the same bytes are told: two talks that came to
/// the end of the same input, over the same files and on databases that are alike, told the same.
pub fn two_talks_agree()
    ensures { TwoTalksAgree }
{}
