//! Laws of what a number sees. Each function runs nothing; its contract is the law.

ghost use Rattle.merge_iter.specs.Seeing.{ShowsVisible};

/// What a number sees of sorted entries are the rows that their map shows at it.
pub fn law_visible()
    ensures { ShowsVisible }
{}
