//! The law of the counts of a history: a history tells how many calls, switches and own lines it has.
#![tactic(auto)]

ghost use Rattle.history_counts.specs.Law.{HistoriesTellCounts};

/// Two runs of a valid image with one history have the same counts of calls, switches and lines.
pub fn histories_tell_counts()
    ensures { HistoriesTellCounts }
{}
