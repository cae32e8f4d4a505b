ghost use Rattle.std.specs.Prelude.{◌≡◌};
ghost use Rattle.std.specs.Option.{option_copied};
ghost use Rattle.disk_model.specs.Returned.{took_by, labelled_by};
ghost use Rattle.disk_model.specs.SinkNames.{name_of};

use crate::Label;
use crate::taken::Taken;

/// The sinks that were handed back, the latest first.
#[derive(Drop)]
pub enum Returned {
    Nothing,
    Sink(u32, Label, Taken, Box<Returned>),
}

impl Returned {
    pub fn name_of(&self, index: u32) -> Option<&str>
        ensures { option_copied result ≡ name_of (labelled_by self.now index) }
    {
        match self {
            Returned::Nothing => None,
            Returned::Sink(client, label, _, earlier) => {
                if *client == index {
                    Some(label.name())
                } else {
                    earlier.name_of(index)
                }
            }
        }
    }

    pub fn bytes_of(&self, index: u32) -> Option<&[u8]>
        ensures { option_copied result ≡ took_by self.now index }
    {
        match self {
            Returned::Nothing => None,
            Returned::Sink(client, _, taken, earlier) => {
                if *client == index {
                    Some(&taken.bytes)
                } else {
                    earlier.bytes_of(index)
                }
            }
        }
    }
}
