ghost use Rattle.std.specs.Prelude.{◌≡◌, ◌≢◌, ℕ, List, Option, IfOk, OnOk, OnErr};
ghost use Rattle.disk_model.specs.Images.{HasCause};
ghost use Rattle.disk_model.specs.Bytes.{Takes, IsFresh};
ghost use Rattle.disk_model.specs.SinkNames.{SinkNames, after_client, after_return};

use crate::{Failed, Sink};

/// What takes replies and the report: a sink for each client, and the report's own.
///
/// It tells of a client's sink once that was handed back.
pub trait Sinks {
    type One: Sink + Send;

    /// The report's bytes so far, where they are told.
    ghost reported: { Self → Option (List ℕ) };

    /// The bytes that the sink of a client took, where it was handed back and tells them.
    ghost took: { Self → ℕ → Option (List ℕ) };

    /// How often the sink of a client had failed when it was handed back.
    ghost client_faults: { Self → ℕ → ℕ };

    /// How often `client` or `report` has failed.
    ghost faults: { Self → ℕ };

    /// How often a client's sink was opened, and the label of the one that was handed back last for
    /// each client.
    ghost names: { Self → SinkNames };

    /// Opens the sink of client `index` under this name. It has taken nothing.
    ///
    /// What is told of the others and of the report stays. `Failed` comes only where the count of
    /// faults rose.
    fn client(&mut self, index: u32, name: &str) -> Result<Self::One, Failed>
        ensures fresh { IfOk result (λ one. IsFresh (Self.One.taken one)) }
        ensures unused { IfOk result (λ one. Self.One.faults one ≡ 0) }
        ensures label { IfOk result (λ one.
            Self.One.label one ≡ record { client = index; name = name.now }) }
        ensures opened { OnOk result (names self.new ≡ after_client (names self.old)) }
        ensures unopened { OnErr result (names self.new ≡ names self.old) }
        ensures report { reported self.new ≡ reported self.old }
        ensures others { (i : ℕ) → took self.new i ≡ took self.old i }
        ensures counts { (i : ℕ) → client_faults self.new i ≡ client_faults self.old i }
        ensures cause { HasCause (faults self.old) (faults self.new) result };

    /// Takes all of `bytes` as the report's next ones. What is told of the clients' sinks stays.
    ///
    /// `Failed` comes only where the count of faults rose; then some first bytes were taken, or
    /// none.
    fn report(&mut self, bytes: &[u8]) -> Result<(), Failed>
        ensures taken { Takes (reported self.old) bytes.now result (reported self.new) }
        ensures names { names self.new ≡ names self.old }
        ensures others { (i : ℕ) → took self.new i ≡ took self.old i }
        ensures counts { (i : ℕ) → client_faults self.new i ≡ client_faults self.old i }
        ensures cause { HasCause (faults self.old) (faults self.new) result };

    /// Takes back the sink of client `index`, and tells from then on what it took, how often it
    /// failed, and its label.
    fn back(&mut self, index: u32, one: Self::One)
        ensures returned { names self.new
            ≡ after_return index (Self.One.label one) (names self.old) }
        ensures this { took self.new index ≡ Self.One.taken one }
        ensures count { client_faults self.new index ≡ Self.One.faults one }
        ensures others { (i : ℕ) → i ≢ index → took self.new i ≡ took self.old i }
        ensures counts { (i : ℕ) → i ≢ index → client_faults self.new i ≡ client_faults self.old i }
        ensures report { reported self.new ≡ reported self.old }
        ensures faults { faults self.new ≡ faults self.old };
}
