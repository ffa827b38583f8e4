//! What is dealt out, by the definitions alone.

ghost use Rattle.vx_morsel.specs.Dealing.{DeckDealsOut};

/// Whatever seats draw from one deck, in whatever order: the numbers drawn are those below one number, each once, and each seat's rise.
pub fn deck_deals_out()
    ensures { DeckDealsOut }
{}
