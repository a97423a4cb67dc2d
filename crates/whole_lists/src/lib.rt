// No code: a whole list of universes, written page by page, read and collected again.
#![tactic(auto)]
