ghost use Rattle.std.specs.Prelude.{◌≡◌, string_bytes};
ghost use Rattle.std.specs.Option.{option_copied};
ghost use Rattle.disk_model.specs.Directories.{no_directories, after_choice, after_opening};

use crate::opened::Opened;
use std::alloc::Global;
use std::marker::Model;
use std::mem;

/// What devices keep of directories: which one was chosen last, and of which one the journal was
/// handed out last.
#[derive(Drop)]
pub struct Directories {
    chosen: String,
    choices: u64,
    opened: Opened,
    /// The directory whose journal was handed out last, where another one was chosen since.
    earlier: String,
    openings: u64,
}

impl Model for Directories {
    ghost use Rattle.std.specs.Prelude.{string_bytes};
    ghost use Rattle.disk_model.specs.Directories.{Directories};
    ghost use Rattle.disk_model.specs.Opened.{chosen_name, opened_name};

    ghost Value = { Directories };

    ghost view = { λ directories. record {
      chosen = chosen_name directories.choices (string_bytes directories.chosen);
      choices = directories.choices;
      opened = opened_name directories.opened
          (chosen_name directories.choices (string_bytes directories.chosen))
          (string_bytes directories.earlier);
      openings = directories.openings;
    } };
}

impl Directories {
    /// None was chosen, and no journal was handed out.
    pub fn none(alloc: Global) -> Directories
        ensures { result ≡ no_directories }
    {
        Directories {
            chosen: String::new(alloc),
            choices: 0,
            opened: Opened::Nothing,
            earlier: String::new(alloc),
            openings: 0,
        }
    }

    /// The name of the directory that was chosen last.
    pub fn chosen(&self) -> Option<&str>
        ensures { option_copied result ≡ self.now.chosen }
    {
        if self.choices == 0 {
            return None;
        }
        Some(self.chosen.as_str())
    }

    /// Keeps that a directory of this name was chosen.
    pub fn choose(&mut self, name: String)
        ensures { self.new ≡ after_choice (string_bytes name) self.old }
    {
        let earlier = mem::replace(&mut self.chosen, name);
        if let Opened::Chosen = self.opened {
            self.opened = if self.choices == 0 {
                Opened::Nothing
            } else {
                Opened::Earlier
            };
            self.earlier = earlier;
        }
        self.choices = self.choices.saturating_add(1);
    }

    /// Keeps that the journal of the directory that was chosen last was handed out.
    pub fn open(&mut self)
        ensures { self.new ≡ after_opening self.old }
    {
        self.opened = Opened::Chosen;
        self.openings = self.openings.saturating_add(1);
    }
}
