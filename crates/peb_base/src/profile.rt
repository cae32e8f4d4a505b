//! Profiles.

ghost use Rattle.std.specs.Prelude.{◌≡◌, Some};
ghost use Rattle.peb_base.specs.Texts.{profile_text};

use std::fmt;

/// A choice of all sizes and counts of a store. It prints as `normal` or `small`.
///
/// `Normal` is for use; `Small` fills up after a few operations, so that
/// every part of the store is soon at work.
#[derive(Clone, Copy, Debug, PartialEq, Eq)]
pub enum Profile {
    Normal,
    Small,
}

impl Profile {
    /// The name in lower case.
    pub fn name(self) -> &'static str
        ensures { result.now ≡ profile_text self }
    {
        match self {
            Profile::Normal => "normal",
            Profile::Small => "small",
        }
    }
}

impl fmt::Display for Profile {
    ghost output = { λ profile. Some (profile_text profile) };

    fn fmt<W: fmt::Write>(&self, f: &mut fmt::Formatter<W>) -> fmt::Result {
        f.write_str(self.name())
    }
}
