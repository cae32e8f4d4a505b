ghost use Rattle.std.specs.Prelude.{◌≡◌, string_bytes};

use std::marker::Model;

/// For which client a sink was opened, and under which name.
#[derive(Drop)]
pub struct Label {
    client: u32,
    name: String,
}

impl Model for Label {
    ghost use Rattle.std.specs.Prelude.{string_bytes};
    ghost use Rattle.disk_model.specs.SinkNames.{Label};

    ghost Value = { Label };

    ghost view = { λ label. record { client = label.client; name = string_bytes label.name } };
}

impl Label {
    pub fn new(client: u32, name: String) -> Label
        ensures { result ≡ record { client = client; name = string_bytes name } }
    {
        Label { client, name }
    }

    pub fn name(&self) -> &str
        ensures { result.now ≡ self.now.name }
    {
        self.name.as_str()
    }
}
