//! Laws of the definitions.
ghost use Rattle.yv_job.specs.Asks.{WordsAskOnce};

/// No words ask for two requests, so `read_request` answers the one that they ask for. The function
/// does nothing: its contract is the law.
pub fn words_ask_once()
    ensures { WordsAskOnce }
{}
